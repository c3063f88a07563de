//! Which people fit which seats, asked for once.
ghost use Rattle.std.specs.Prelude.{◌≡◌, ℕ, ◌+◌, ◌*◌, ◌<◌, ◌≤◌, IfOk, true, slice_index_or};
ghost use Rattle.kcr_seats.specs.{People.contains, People.nobody, declared.TheConstants.MAX_PEOPLE};

use crate::Fits;
use crate::people::People;
use crate::steps::Steps;
use std::alloc::{AllocError, Global};
use std::sync::ledger::Ledger;

/// For each seat the people who fit it.
#[derive(Drop)]
pub(crate) struct FitsMatrix {
    rows: Vec<People>,
    people: usize,
    ghost small: { people ≤ MAX_PEOPLE },
    ghost in_range: { (seat person : ℕ) → contains (slice_index_or rows.items seat nobody) person ≡ true
        → person < people },
}

impl FitsMatrix {
    ghost use Rattle.kcr_seats.specs.Matrix.{fits_of, seats_of, people_of, IsMatrixOf};

    /// Asks once for each seat and person whether the person fits the seat.
    pub fn from_relation<F: Fits, L: Ledger>(
        alloc: Global,
        fits: &F,
        steps: &mut Steps<L>,
    ) -> Result<Self, AllocError>
        requires people { F.person_count fits.now ≤ MAX_PEOPLE }
        ensures table { IfOk result (IsMatrixOf (F.relation fits.now) (F.seat_count fits.now)
            (F.person_count fits.now)) }
        ensures all { steps.new.all ≤ steps.old.all + F.seat_count fits.now * (1 + 2 * F.person_count fits.now) }
        ensures asks { steps.new.fits_calls ≤ steps.old.fits_calls + F.seat_count fits.now * F.person_count fits.now }
    {
        let seats = fits.seats();
        let mut rows = Vec::with_capacity(alloc, seats)?;
        for seat in 0..seats {
            steps.tick();
            rows.push(read_row(fits, seat, steps))?;
        }
        Ok(FitsMatrix {
            rows,
            people: fits.people(),
        })
    }

    /// How many seats there are.
    pub fn seats(&self) -> usize
        ensures { result ≡ seats_of self.now }
    {
        self.rows.len()
    }

    /// The people who fit the seat.
    pub fn row(&self, seat: usize) -> People
        requires { seat < seats_of self.now }
        ensures each { (person : ℕ) → contains result person ≡ fits_of self.now seat person }
        ensures in_range { (person : ℕ) → contains result person ≡ true
            → person < people_of self.now }
    {
        self.rows[seat]
    }
}

/// Asks whether the person fits the seat. Nothing else in the search calls `fits`.
fn call_fits<F: Fits, L: Ledger>(fits: &F, seat: usize, person: usize, steps: &mut Steps<L>) -> bool
    requires seat { seat < F.seat_count fits.now }
    requires person { person < F.person_count fits.now }
    ensures answer { result ≡ F.relation fits.now seat person }
    ensures all { steps.new.all ≡ steps.old.all + 1 }
    ensures asks { steps.new.fits_calls ≡ steps.old.fits_calls + 1 }
{
    steps.tick_fits_call();
    fits.fits(seat, person)
}

/// Asks for each person whether the person fits the seat.
fn read_row<F: Fits, L: Ledger>(fits: &F, seat: usize, steps: &mut Steps<L>) -> People
    requires seat { seat < F.seat_count fits.now }
    requires people { F.person_count fits.now ≤ MAX_PEOPLE }
    ensures in_range { (person : ℕ) → contains result person ≡ true
        → person < F.person_count fits.now }
    ensures each { (person : ℕ) → person < F.person_count fits.now
        → contains result person ≡ F.relation fits.now seat person }
    ensures all { steps.new.all ≡ steps.old.all + 2 * F.person_count fits.now }
    ensures asks { steps.new.fits_calls ≡ steps.old.fits_calls + F.person_count fits.now }
{
    let mut row = People::none();
    for person in 0..fits.people() {
        steps.tick();
        if call_fits(fits, seat, person, steps) {
            row = row.with(person);
        }
    }
    row
}
