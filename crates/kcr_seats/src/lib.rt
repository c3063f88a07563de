//! Seats people: each seat one person who fits it, and nobody two seats.
//!
//! `seat` always decides. It finds the first seating in the order of numbers, or names a least list of seats that fewer
//! people fit than it has seats. By the theorem of Hall (`proofs/Laws.antt`), exactly one of a seating and such a list
//! exists.
#![tactic(auto)]

ghost use Rattle.std.specs.Prelude.{◌≡◌, ℕ, ◌+◌, ◌*◌, ◌<◌, ◌≤◌, Bool, IfOk};
ghost use Rattle.kcr_seats.specs.{Answer.IsAnswer, declared.TheConstants.MAX_PEOPLE};

mod check;
mod matrix;
mod people;
mod search;
mod steps;

pub use check::{is_seating, is_short};
use matrix::FitsMatrix;
use search::search;
use std::alloc::{AllocError, Global};
use std::marker::Brand;
use std::sync::ledger::{Blank, Ledger};
pub use steps::Steps;

/// The most people whom the search takes.
pub const MAX_PEOPLE: usize = 128;

/// Which people fit which seats: a fixed relation between the numbers of the seats and of the people, both counted from
/// 0.
pub trait Fits {
    ghost seat_count: { Self → ℕ };

    ghost person_count: { Self → ℕ };

    ghost relation: { Self → ℕ → ℕ → Bool };

    /// How many seats there are.
    fn seats(&self) -> usize
        ensures { result ≡ seat_count self.now };

    /// How many people there are.
    fn people(&self) -> usize
        ensures { result ≡ person_count self.now };

    /// Whether the person fits the seat.
    fn fits(&self, seat: usize, person: usize) -> bool
        requires seat { seat < seat_count self.now }
        requires person { person < person_count self.now }
        ensures { result ≡ relation self.now seat person };
}

/// What a search for a seating ends with.
#[derive(Drop)]
pub enum Answer {
    /// The first seating: at the position of each seat the number of its person.
    Seated(Vec<usize>),
    /// The positions, from 0 and rising, of seats that too few people fit; no proper part of them is such.
    Short(Vec<usize>),
}

/// Seats people, or says which seats too few people fit. It calls `fits` at most seats times people times.
///
/// The only error is out of memory. A step is a call of `fits` or a turn of a loop; `steps` counts both, also if
/// memory runs out.
pub fn seat<F: Fits, L: Ledger>(
    alloc: Global,
    fits: &F,
    steps: &mut Steps<L>,
) -> Result<Answer, AllocError>
    requires seats { F.seat_count fits.now ≤ 16 }
    requires people { F.person_count fits.now ≤ MAX_PEOPLE }
    ensures answer { IfOk result (λ a. IsAnswer (F.relation fits.now) (F.seat_count fits.now)
        (F.person_count fits.now) a) }
    ensures all { let seats = F.seat_count fits.now in let people = F.person_count fits.now in
        steps.new.all ≤ steps.old.all + (people + 2) * 4 * (seats + 1) * (seats + 1) * (people + 1) }
    ensures asks { steps.new.fits_calls ≤ steps.old.fits_calls + F.seat_count fits.now * F.person_count fits.now }
{
    let table = FitsMatrix::from_relation(alloc, fits, steps)?;
    search(alloc, &table, &mut steps.counter)
}

fn seat_from<F: Fits, L: Ledger>(
    alloc: Global,
    fits: &F,
    blank: Blank,
) -> Result<Answer, AllocError>
    requires seats { F.seat_count fits.now ≤ 16 }
    requires people { F.person_count fits.now ≤ MAX_PEOPLE }
    requires name { blank.name ≡ L.name }
    requires parts { blank.parts ≡ L.parts }
    requires two { 2 ≤ blank.parts }
    ensures { IfOk result (λ a. IsAnswer (F.relation fits.now) (F.seat_count fits.now)
        (F.person_count fits.now) a) }
{
    seat(alloc, fits, &mut Steps::<L>::new(blank))
}

/// `seat` without counting steps.
pub fn seat_uncounted<F: Fits>(alloc: Global, fits: &F) -> Result<Answer, AllocError>
    requires seats { F.seat_count fits.now ≤ 16 }
    requires people { F.person_count fits.now ≤ MAX_PEOPLE }
    ensures { IfOk result (λ a. IsAnswer (F.relation fits.now) (F.seat_count fits.now)
        (F.person_count fits.now) a) }
{
    seat_from::<F, Brand>(alloc, fits, Blank::new(2))
}
