//! The search: one seat after the other gets a person, along alternating paths; then the seating is made the first one.
ghost use Rattle.std.specs.Prelude.{◌≡◌, ◌≢◌, ℕ, ◌+◌, ◌*◌, ◌<◌, ◌≤◌, IsTrue, IfOk, OnOk, IfNone, IfSome, MatchBool};
ghost use Rattle.std.specs.Prelude.{EachIndex, length, slice_index, true, false, vec_len};
ghost use Rattle.kcr_seats.specs.{Seating.IsSeating, Seating.IsFirst, declared.TheConstants.MAX_PEOPLE};
ghost use Rattle.kcr_seats.specs.{People.contains, Answer.IsAnswer, Placement.IsPlacement, Matrix.fits_of, Matrix.seats_of, Matrix.people_of};
ghost use Rattle.kcr_seats.specs.Search.{IsSeatedBut, IsRootAlone, IsPut, IsReached, IsMarked, IsClosed, IsBusy};
ghost use Rattle.kcr_seats.specs.Search.{IsListed, IsReassigned, IsNotReassigned, IsLowered, all_steps, lower_steps, search_steps};

use crate::Answer;
use crate::matrix::FitsMatrix;
use crate::people::People;
use crate::steps::StepCounter;
use std::alloc::{AllocError, Global};
use std::sync::ledger::Ledger;

/// The seats reached from a root, in that order; the index of the seat that each was reached from; and a mark on each
/// of them.
#[derive(Drop)]
struct Reached {
    order: Vec<usize>,
    from: Vec<usize>,
    marked: Vec<bool>,
}

impl Reached {
    /// The root only, among this many seats.
    fn of_root(alloc: Global, seats: usize, root: usize) -> Result<Reached, AllocError>
        requires { root < seats }
        ensures { IfOk result (λ r. IsRootAlone seats root r.order.items r.from.items r.marked.items) }
    {
        let mut order = Vec::with_capacity(alloc, seats)?;
        order.push(root)?;
        let mut from = Vec::with_capacity(alloc, seats)?;
        from.push(0)?;
        let mut marked = vec![in alloc; false; seats]?;
        marked[root] = true;
        Ok(Reached {
            order,
            from,
            marked,
        })
    }

    /// Puts a seat last, which was reached from the seat at the index, and marks it.
    fn put(&mut self, seat: usize, from: usize) -> Result<(), AllocError>
        requires { seat < vec_len self.old.marked }
        ensures { OnOk result (IsPut seat from self.old self.new) }
    {
        self.marked[seat] = true;
        self.order.push(seat)?;
        self.from.push(from)?;
        Ok(())
    }
}

/// Goes from the root to the seats whose people fit a seat that was reached.
fn reach<L: Ledger>(
    alloc: Global,
    table: &FitsMatrix,
    seating: &[usize],
    root: usize,
    fixed: usize,
    turns: &mut StepCounter<L>,
) -> Result<Reached, AllocError>
    requires people { people_of table.now ≤ MAX_PEOPLE }
    requires seated { IsSeatedBut (fits_of table.now) (people_of table.now) root seating.now }
    requires seats { length seating.now ≤ seats_of table.now }
    requires root { root < length seating.now }
    requires fixed { fixed ≤ root }
    ensures reached { IfOk result (λ r. IsReached (fits_of table.now) root fixed
        seating.now r.order.items r.from.items) }
    ensures marked { IfOk result (λ r. IsMarked seating.now r.order.items r.marked.items) }
    ensures closed { IfOk result (λ r. IsClosed (fits_of table.now) fixed (vec_len r.order) (length seating.now)
        seating.now r.order.items r.marked.items) }
    ensures cost { turns.new ≤ turns.old + length seating.now * (1 + length seating.now) }
{
    let mut reached = Reached::of_root(alloc, seating.len(), root)?;
    let mut next = 0;
    'queue: while next < reached.order.len() {
        turns.tick();
        let seat = reached.order[next];
        let fitting = table.row(seat);
        'row: for other in fixed..seating.len() {
            turns.tick();
            if !reached.marked[other] && fitting.contains(seating[other]) {
                reached.put(other, next)?;
            }
        }
        next += 1;
    }
    Ok(reached)
}

/// The people who have a seat other than the root.
fn busy_people<L: Ledger>(seating: &[usize], root: usize, turns: &mut StepCounter<L>) -> People
    requires { (seat : ℕ) → seat < length seating.now → seat ≢ root → slice_index
        seating.now seat < MAX_PEOPLE }
    ensures busy { IsBusy root seating.now result }
    ensures cost { turns.new ≤ turns.old + length seating.now }
{
    let mut busy = People::none();
    for seat in 0..seating.len() {
        turns.tick();
        if seat != root {
            busy = busy.with(seating[seat]);
        }
    }
    busy
}

/// The index of a seat in the order, and a person who is not busy and fits it.
fn free_person<L: Ledger>(
    table: &FitsMatrix,
    order: &[usize],
    busy: People,
    turns: &mut StepCounter<L>,
) -> Option<(usize, usize)>
    requires seats { EachIndex order.now (λ i. slice_index order.now i < seats_of table.now) }
    ensures none { IfNone result ((i person : ℕ) → i < length order.now
        → IsTrue (fits_of table.now (slice_index order.now i) person) → contains busy person ≡ true) }
    ensures index { IfSome result (λ r. r.0 < length order.now) }
    ensures known { IfSome result (λ r. r.1 < people_of table.now) }
    ensures free { IfSome result (λ r. contains busy r.1 ≡ false) }
    ensures fitting { IfSome result (λ r. IsTrue (fits_of table.now
        (slice_index order.now r.0) r.1)) }
    ensures cost { turns.new ≤ turns.old + length order.now }
{
    for index in 0..order.len() {
        turns.tick();
        if let Some(person) = table.row(order[index]).first_outside(busy) {
            return Some((index, person));
        }
    }
    None
}

/// What became of a try to seat the root.
#[derive(Drop)]
enum Placement {
    Placed,
    Stuck(Vec<bool>),
}

/// Seats the root too, if the others can move to let it, or marks seats that too few people fit.
fn reseat<L: Ledger>(
    alloc: Global,
    table: &FitsMatrix,
    seating: &mut Vec<usize>,
    root: usize,
    fixed: usize,
    turns: &mut StepCounter<L>,
) -> Result<Placement, AllocError>
    requires people { people_of table.now ≤ MAX_PEOPLE }
    requires seated { IsSeatedBut (fits_of table.now) (people_of table.now) root seating.old.items }
    requires seats { vec_len seating.old ≤ seats_of table.now }
    requires root { root < vec_len seating.old }
    requires fixed { fixed ≤ root }
    ensures tried { IfOk result (λ t. IsPlacement (fits_of table.now) (people_of table.now) root fixed
        seating.old.items seating.new.items t) }
    ensures cost { turns.new ≤ turns.old + search_steps (seats_of table.now) (people_of table.now) }
{
    let reached = reach(alloc, table, seating, root, fixed, turns)?;
    let busy = busy_people(seating, root, turns);
    let Reached {
        order,
        from,
        marked,
    } = reached;
    let Some((mut index, mut person)) = free_person(table, &order, busy, turns) else {
        return Ok(Placement::Stuck(marked));
    };
    'shift: while index > 0 {
        turns.tick();
        let seat = order[index];
        let old = seating[seat];
        seating[seat] = person;
        person = old;
        index = from[index];
    }
    seating[root] = person;
    Ok(Placement::Placed)
}

/// The seats that are marked.
fn marked_seats<L: Ledger>(
    alloc: Global,
    marked: &[bool],
    turns: &mut StepCounter<L>,
) -> Result<Vec<usize>, AllocError>
    ensures listed { IfOk result (λ s. IsListed marked.now (length marked.now) s.items) }
    ensures cost { turns.new ≤ turns.old + length marked.now }
{
    let mut seats = Vec::new(alloc);
    for seat in 0..marked.len() {
        turns.tick();
        if marked[seat] {
            seats.push(seat)?;
        }
    }
    Ok(seats)
}

/// The seat of the person.
fn seat_of<L: Ledger>(seating: &[usize], person: usize, turns: &mut StepCounter<L>) -> Option<usize>
    ensures none { IfNone result ((seat : ℕ) → seat < length seating.now → slice_index
        seating.now seat ≢ person) }
    ensures some { IfSome result (λ seat. (seat < length seating.now) × (slice_index
        seating.now seat ≡ person)) }
    ensures cost { turns.new ≤ turns.old + length seating.now }
{
    for seat in 0..seating.len() {
        turns.tick();
        if seating[seat] == person {
            return Some(seat);
        }
    }
    None
}

/// Gives the seat to the person, if the seats after it can then be seated and those before it stay.
fn try_person<L: Ledger>(
    alloc: Global,
    table: &FitsMatrix,
    seating: &mut Vec<usize>,
    seat: usize,
    person: usize,
    turns: &mut StepCounter<L>,
) -> Result<bool, AllocError>
    requires people { people_of table.now ≤ MAX_PEOPLE }
    requires seating { IsSeating (fits_of table.now) (seats_of table.now) (people_of table.now)
        seating.old.items }
    requires seat { seat < seats_of table.now }
    requires person { person < people_of table.now }
    requires fitting { IsTrue (fits_of table.now seat person) }
    requires other { slice_index seating.old.items seat ≢ person }
    ensures tried { IfOk result (λ b. MatchBool b
        (IsReassigned (fits_of table.now) (seats_of table.now) (people_of table.now) seat person
        seating.old.items seating.new.items)
        (IsNotReassigned (fits_of table.now) (seats_of table.now) (people_of table.now) seat person
        seating.old.items seating.new.items)) }
    ensures cost { turns.new ≤ turns.old + seats_of table.now + search_steps (seats_of table.now)
        (people_of table.now) }
{
    let Some(root) = seat_of(seating, person, turns) else {
        seating[seat] = person;
        return Ok(true);
    };
    if root < seat {
        return Ok(false);
    }
    let old = seating[seat];
    seating[seat] = person;
    if let Placement::Stuck(_) = reseat(alloc, table, seating, root, seat + 1, turns)? {
        seating[seat] = old;
        return Ok(false);
    }
    Ok(true)
}

/// Gives the seat to the lowest person with whom the seats after it can be seated while those before it stay.
fn assign_lowest<L: Ledger>(
    alloc: Global,
    table: &FitsMatrix,
    seating: &mut Vec<usize>,
    seat: usize,
    turns: &mut StepCounter<L>,
) -> Result<(), AllocError>
    requires people { people_of table.now ≤ MAX_PEOPLE }
    requires seating { IsSeating (fits_of table.now) (seats_of table.now) (people_of table.now)
        seating.old.items }
    requires seat { seat < seats_of table.now }
    ensures lowered { OnOk result (IsLowered (fits_of table.now) (seats_of table.now)
        (people_of table.now) seat
        seating.old.items seating.new.items) }
    ensures cost { turns.new ≤ turns.old + lower_steps (seats_of table.now) (people_of table.now) }
{
    let fitting = table.row(seat);
    for person in 0..seating[seat] {
        turns.tick();
        if fitting.contains(person) && try_person(alloc, table, seating, seat, person, turns)? {
            return Ok(());
        }
    }
    Ok(())
}

/// Makes a seating the first one.
fn make_first<L: Ledger>(
    alloc: Global,
    table: &FitsMatrix,
    seating: &mut Vec<usize>,
    turns: &mut StepCounter<L>,
) -> Result<(), AllocError>
    requires people { people_of table.now ≤ MAX_PEOPLE }
    requires seating { IsSeating (fits_of table.now) (seats_of table.now) (people_of table.now)
        seating.old.items }
    ensures first { OnOk result (IsFirst (fits_of table.now) (seats_of table.now)
        (people_of table.now) seating.new.items) }
    ensures cost { turns.new ≤ turns.old + seats_of table.now * (1 + lower_steps
        (seats_of table.now) (people_of table.now)) }
{
    for seat in 0..seating.len() {
        turns.tick();
        assign_lowest(alloc, table, seating, seat, turns)?;
    }
    Ok(())
}

/// The first seating by the table, or a least list of seats that too few people fit.
pub(crate) fn search<L: Ledger>(
    alloc: Global,
    table: &FitsMatrix,
    turns: &mut StepCounter<L>,
) -> Result<Answer, AllocError>
    requires people { people_of table.now ≤ MAX_PEOPLE }
    ensures answer { IfOk result (λ a. IsAnswer (fits_of table.now) (seats_of table.now)
        (people_of table.now) a) }
    ensures cost { turns.new ≤ turns.old + all_steps (seats_of table.now) (people_of table.now) }
{
    let mut seating = Vec::with_capacity(alloc, table.seats())?;
    for root in 0..table.seats() {
        turns.tick();
        seating.push(0)?;
        if let Placement::Stuck(marked) = reseat(alloc, table, &mut seating, root, 0, turns)? {
            return Ok(Answer::Short(marked_seats(alloc, &marked, turns)?));
        }
    }
    make_first(alloc, table, &mut seating, turns)?;
    Ok(Answer::Seated(seating))
}
