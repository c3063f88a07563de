//! Lists of seats and their texts.
//!
//! A seat text is a list of items joined by `;` without spaces. An item is a seat; one without a number may be followed
//! by `*m`, m from 2 to 7, and then stands for m such seats. The list that results has 1 to 16 seats.
ghost use Rattle.std.specs.Prelude.{◌≡◌, ◌≢◌, ◌↔◌, IsTrue, ◌+◌, ◌≤◌, ◌<◌, List, [], ◌∷◌, ◌++◌, All, length};
ghost use Rattle.std.specs.Prelude.{replicate, drop, string_bytes, Some, IfSome, IfOk, OnOk, MatchOption};
ghost use Rattle.kcr_script.specs.Seats.{Item, IsItem, item_text, pair_item, Spells, StandsFor, IsLast, Leads, IsSeats};
ghost use Rattle.kcr_script.specs.Seats.{runs, groups, appended, all_appended, written};
ghost use Rattle.kcr_script.specs.{Reading.seats_of, Seat.IsSeat, declared.seat.Seat.Seat};

use crate::seat::Seat;
use std::alloc::{AllocError, Global};
use std::marker::Model;

/// The seats of a step, in order: 1 to 16, whose numbers are 1 to 7.
#[derive(Drop)]
pub struct Seats {
    list: Vec<Seat>,
}

impl Model for Seats {
    ghost use Rattle.std.specs.Prelude.{List};
    ghost use Rattle.kcr_script.specs.{declared.seat.Seat.Seat, Seats.IsSeats};

    ghost Value = { List Seat };

    ghost view = { λ s. s.list.items };

    ghost invariant = { λ s. IsSeats s.list.items };
}

impl Seats {
    /// The seats in order.
    pub fn as_slice(&self) -> &[Seat]
        ensures value { result.now ≡ self.now }
        ensures form { IsSeats self.now }
    {
        self.list.as_slice()
    }
}

impl Clone for Seats {
    ghost is_clone = { λ a b. b ≡ a };

    fn clone(&self) -> Result<Self, AllocError> {
        Ok(Seats {
            list: self.list.clone()?,
        })
    }
}

/// The seat that an item names, and how many of it.
fn read_item(bytes: &[u8]) -> Option<(Seat, u8)>
    ensures found { IfSome result (λ p. IsItem (pair_item p) × (item_text (pair_item p) ≡ bytes.now)) }
    ensures only { (item : Item) → IsItem item → item_text item ≡ bytes.now → result ≡ Some (item.seat, item.count) }
{
    if let [front @ .., b'*', count @ b'2'..=b'7'] = bytes {
        let seat = Seat::read(front)?;
        if !seat.can_repeat() {
            return None;
        }
        return Some((seat, *count - b'0'));
    }
    Some((Seat::read(bytes)?, 1))
}

/// What stands before the first semicolon, and what after it.
fn split_item(bytes: &[u8]) -> (&[u8], Option<&[u8]>)
    ensures free { All (λ b. b ≢ 59) result.0.now }
    ensures whole { MatchOption result.1
        (bytes.now ≡ result.0.now) (λ rest. bytes.now ≡ result.0.now ++ 59 ∷ rest.now) }
{
    for (i, b) in bytes.iter().enumerate() {
        if *b == b';' {
            return (&bytes[..i], Some(&bytes[i + 1..]));
        }
    }
    (bytes, None)
}

/// The first item of a text, and the text after its semicolon.
fn next_item(text: &[u8]) -> Option<(Seat, u8, Option<&[u8]>)>
    ensures { MatchOption result ((all : List Seat) → Spells text.now all → ⊥)
        (λ p. MatchOption p.2 (IsLast text.now p.0 p.1) (λ rest. Leads text.now p.0 p.1 rest.now)) }
{
    let (front, rest) = split_item(text);
    let (seat, count) = read_item(front)?;
    Some((seat, count, rest))
}

/// Adds a seat some times.
fn push_seats(seats: &mut Vec<Seat>, seat: Seat, count: u8) -> Result<(), AllocError>
    ensures { OnOk result (seats.new.items ≡ seats.old.items ++ replicate count seat) }
{
    for _ in 0..count {
        seats.push(seat)?;
    }
    Ok(())
}

/// The list of seats that the text stands for, or `None` if it stands for none: an empty text, an item that is no
/// seat, a star with a number other than 2 to 7 (`CO*1` is not in the form), a star behind a seat with a number, or
/// more than 16 seats. The error is out of memory.
pub fn read_seats(alloc: Global, text: &[u8]) -> Result<Option<Seats>, AllocError>
    ensures found { IfOk result (λ o. IfSome o (StandsFor text.now)) }
    ensures only { IfOk result (λ o. (seats : List Seat) → StandsFor text.now seats → o ≡ Some seats) }
    ensures value { IfOk result (λ o. o ≡ seats_of text.now) }
{
    let mut seats = Vec::new(alloc);
    let mut rest = text;
    loop {
        let Some((seat, count, more)) = next_item(rest) else {
            return Ok(None);
        };
        if seats.len() + count as usize > 16 {
            return Ok(None);
        }
        push_seats(&mut seats, seat, count)?;
        match more {
            Some(after) => rest = after,
            None => return Ok(Some(Seats { list: seats })),
        }
    }
}

/// Whether two seats are the same.
fn is_same(a: Seat, b: Seat) -> bool
    ensures { IsTrue result ↔ (a ≡ b) }
{
    a == b
}

/// How many seats after the first one are of its run.
fn run_len(first: Seat, after: &[Seat]) -> usize
    ensures within { result ≤ length after.now }
    ensures run { runs (first ∷ after.now) ≡ pair_item (first, result + 1) ∷ runs (drop result after.now) }
{
    if !first.can_repeat() {
        return 0;
    }
    for (i, seat) in after.iter().enumerate() {
        if !is_same(*seat, first) {
            return i;
        }
    }
    after.len()
}

/// Adds a digit.
fn push_digit(text: &mut String, digit: u8) -> Result<(), AllocError>
    requires { digit < 10 }
    ensures { OnOk result (string_bytes text.new ≡ string_bytes text.old ++ (48 + digit) ∷ []) }
{
    text.push((b'0' + digit) as char)
}

/// Adds an item.
fn push_item(text: &mut String, seat: Seat, count: u8) -> Result<(), AllocError>
    requires count { count < 10 }
    requires seat { IsSeat seat }
    ensures { OnOk result (string_bytes text.new ≡ appended (string_bytes text.old) (pair_item (seat, count))) }
{
    if !text.is_empty() {
        text.push(';')?;
    }
    match seat {
        Seat::Staff(role) => text.push_str(role.text())?,
        Seat::AnyCo => text.push_str("CO")?,
        Seat::AnyRksh => text.push_str("RKSH")?,
        Seat::Co(n) => {
            text.push_str("CO/")?;
            push_digit(text, n)?;
        }
        Seat::Rksh(n) => {
            text.push_str("RKSH/")?;
            push_digit(text, n)?;
        }
    }
    if count != 1 {
        text.push('*')?;
        push_digit(text, count)?;
    }
    Ok(())
}

/// Adds a run, in groups of seven and one of the rest.
fn push_run(text: &mut String, seat: Seat, count: usize) -> Result<(), AllocError>
    requires count { 0 < count }
    requires seat { IsSeat seat }
    ensures { OnOk result
        (string_bytes text.new ≡ all_appended (string_bytes text.old) (groups (pair_item (seat, count)))) }
{
    let mut left = count;
    while left > 7 {
        push_item(text, seat, 7)?;
        left -= 7;
    }
    push_item(text, seat, left as u8)
}

/// The one written text of the seats: each longest run of equal seats without a number in groups of seven, then one
/// group of the rest, a group of one without star. Nine `CO` are `CO*7;CO*2`, eight are `CO*7;CO`. The error is out of
/// memory.
pub fn write_seats(alloc: Global, seats: &Seats) -> Result<String, AllocError>
    ensures text { IfOk result (λ t. string_bytes t ≡ written seats.now) }
    ensures stands { IfOk result (λ t. StandsFor (string_bytes t) seats.now) }
{
    let mut text = String::new(alloc);
    let mut rest = seats.as_slice();
    while let Some((seat, after)) = rest.split_first() {
        let more = run_len(*seat, after);
        push_run(&mut text, *seat, more + 1)?;
        rest = &after[more..];
    }
    Ok(text)
}
