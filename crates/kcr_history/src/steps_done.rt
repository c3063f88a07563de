//! How many steps of a ceremony are done, by the rows of their seats.
ghost use Rattle.std.specs.Prelude.{◌≡◌, max};
ghost use Rattle.kcr_history.specs.Views;

use crate::row_types::SeatingRow;

/// The greater of two numbers of steps.
fn later(a: u32, b: u32) -> u32
    ensures { result ≡ max a b }
{
    if a <= b { b } else { a }
}

/// The number of the ceremony's last step that has a seating, counted from 1; 0 if none has. Steps are signed and
/// passed in order, each with people in its seats, so of a register's rows it is how many are done. It may be told by
/// all rows of seats, or by those of the last step alone.
pub fn last_seated(rows: &[SeatingRow], ceremony: u32) -> u32
    ensures { result ≡ Views.last_seated rows.now ceremony }
{
    rows.iter()
        .filter(|row| row.ceremony == ceremony)
        .map(|row| row.step)
        .fold(0, |last, step| later(last, step))
}
