//! The exact tests of an answer. They take no memory.
ghost use Rattle.std.specs.Prelude.{◌≡◌, ◌≢◌, ℕ, ◌<◌, ◌↔◌, IsTrue, EachIndex, length, slice_index};
ghost use Rattle.std.specs.List.Sorted.{IsStrictlyIncreasing};
ghost use Rattle.kcr_seats.specs.Seating.{IsSeating, IsShort, can_take, count_below};

use crate::Fits;

/// Whether nobody before the seat is the one at it.
fn is_new(seating: &[usize], seat: usize) -> bool
    requires { seat < length seating.now }
    ensures { IsTrue result ↔ ((other : ℕ) → other < seat → slice_index seating.now other ≢
        slice_index seating.now seat) }
{
    for other in 0..seat {
        if seating[other] == seating[seat] {
            return false;
        }
    }
    true
}

/// Whether the list gives each seat a person who fits it, and nobody two seats.
pub fn is_seating<F: Fits>(fits: &F, seating: &[usize]) -> bool
    ensures { IsTrue result ↔ IsSeating (F.relation fits.now) (F.seat_count fits.now)
        (F.person_count fits.now) seating.now }
{
    if seating.len() != fits.seats() {
        return false;
    }
    let people = fits.people();
    for seat in 0..seating.len() {
        if seating[seat] >= people || !fits.fits(seat, seating[seat]) || !is_new(seating, seat) {
            return false;
        }
    }
    true
}

/// Whether the person fits one of the seats.
fn can_sit<F: Fits>(fits: &F, seats: &[usize], person: usize) -> bool
    requires each { EachIndex seats.now (λ i. slice_index seats.now i < F.seat_count fits.now) }
    requires person { person < F.person_count fits.now }
    ensures { result ≡ can_take (F.relation fits.now) seats.now person }
{
    for index in 0..seats.len() {
        if fits.fits(seats[index], person) {
            return true;
        }
    }
    false
}

/// Whether the list rises and has seats alone, of which there are `count`.
fn is_rising(seats: &[usize], count: usize) -> bool
    ensures { IsTrue result
        ↔ (IsStrictlyIncreasing seats.now × EachIndex seats.now (λ i. slice_index seats.now i < count)) }
{
    for index in 0..seats.len() {
        if seats[index] >= count || (index > 0 && seats[index - 1] >= seats[index]) {
            return false;
        }
    }
    true
}

/// How many people fit one of the seats.
fn able_count<F: Fits>(fits: &F, seats: &[usize]) -> usize
    requires { EachIndex seats.now (λ i. slice_index seats.now i < F.seat_count fits.now) }
    ensures { result ≡ count_below (can_take (F.relation fits.now) seats.now)
        (F.person_count fits.now) }
{
    let mut count = 0;
    for person in 0..fits.people() {
        if can_sit(fits, seats, person) {
            count += 1;
        }
    }
    count
}

/// Whether the list has rising seats, and fewer people than it has seats fit one of them.
pub fn is_short<F: Fits>(fits: &F, seats: &[usize]) -> bool
    ensures { IsTrue result ↔ IsShort (F.relation fits.now) (F.seat_count fits.now)
        (F.person_count fits.now) seats.now }
{
    is_rising(seats, fits.seats()) && able_count(fits, seats) < seats.len()
}
