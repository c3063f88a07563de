//! The row of a value, cell by cell, and what the cells of its columns are.

ghost use Rattle.std.specs.Prelude.{◌≡◌, ◌≤◌, ⊤, length, map, pos, take, IfErr, IfOk, OnOk};
ghost use Rattle.sqlite.specs.declared.types.Value.TheVariants.{Int, Text as Chars};
ghost use Rattle.sqlite.specs.{Values.bound, Values.bound_value, Value.owned};
ghost use Rattle.kcr_custody.specs.Spots.{spot_text};
ghost use Rattle.kcr_script.specs.Seats.{StandsFor, written};
ghost use Rattle.kcr_rows.specs.{Cells.cell_value, Values.or_null, Refusals.IsFault, States.loose_value, States.within_value, States.IsNumbered};

use crate::cells::text_cell;
use crate::from_row::FromRow;
use crate::kinds::Kind;
use crate::numbers::AsNumber;
use kcr_base::{Code, Refusal, Text};
use kcr_custody::{Rest, Spot};
use kcr_script::{Seats, write_seats};
use sqlite::types::ValueRef;
use std::alloc::Global;

/// A cell of a value's row.
#[derive(Drop)]
pub enum Cell<'a> {
    Null,
    Number(i64),
    Text(&'a str),
    /// The text of a place, which takes no memory.
    Place(Code<9>),
    /// A text that was made in memory.
    Words(Text),
}

/// The cells of a row in the order of its columns, and NULLs behind them.
pub type Cells<'a> = [Cell<'a>; 6];

impl<'a> Cell<'a> {
    /// The cell as a parameter of a statement.
    fn value(&self) -> ValueRef<'_>
        ensures { bound_value (owned result) ≡ cell_value self.now }
    {
        match self {
            Cell::Null => ValueRef::Null,
            Cell::Number(number) => ValueRef::Int(*number),
            Cell::Text(text) => text_cell(text),
            Cell::Place(words) => text_cell(words.as_str()),
            Cell::Words(words) => text_cell(words.as_str()),
        }
    }
}

/// The cells as parameters of a statement.
pub fn values<'a>(cells: &'a Cells<'_>) -> [ValueRef<'a>; 6]
    ensures { bound result ≡ map cell_value cells.now }
{
    let [a, b, c, d, e, f] = cells;
    [
        a.value(),
        b.value(),
        c.value(),
        d.value(),
        e.value(),
        f.value(),
    ]
}

/// A value of which each column is known.
pub trait Columns: FromRow {
    ghost use Rattle.std.specs.Prelude.{List};
    ghost use Rattle.kcr_rows.specs.declared.kinds.Kind.{Kind as OfColumn};

    /// What the cells of its columns are.
    ghost kinds: { List OfColumn };

    /// What the cells of its columns are.
    fn kinds() -> &'static [Kind]
        ensures kinds { result.now ≡ kinds }
        ensures fits { length kinds ≤ 6 };
}

/// A value whose row takes no memory.
pub trait ToRow: Columns {
    /// The cells of its row.
    fn cells(&self) -> Cells<'_>
        ensures { take (length Self.Columns.kinds) (map cell_value result) ≡ Self.FromRow.row_of self.now };
}

/// A value for whose row words may be made in memory first.
pub trait ToRowAllocating: Columns {
    /// What is known of a value whose words could be made.
    ghost is_told: { Self → Type 0 };

    /// The cells of its row. The error is `Memory`.
    fn cells_allocating(&self, alloc: Global) -> Result<Cells<'_>, Refusal>
        ensures cells { IfOk result (λ cells.
            take (length Self.Columns.kinds) (map cell_value cells) ≡ Self.FromRow.row_of self.now) }
        ensures told { OnOk result (is_told self.now) }
        ensures cause { IfErr result IsFault };
}

impl<T: ToRow> ToRowAllocating for T {
    ghost is_told = { λ _. ⊤ };

    fn cells_allocating(&self, _alloc: Global) -> Result<Cells<'_>, Refusal> {
        Ok(self.cells())
    }
}

/// The cell of a number.
pub fn number<T: AsNumber>(value: T) -> Cell<'static>
    ensures { cell_value result ≡ Int (pos (T.number value)) }
{
    Cell::Number(value.number())
}

/// The cell of a number, or NULL if there is none.
pub fn number_or_null<T: AsNumber>(value: Option<T>) -> Cell<'static>
    ensures { cell_value result ≡ or_null T.number value }
{
    match value {
        Some(value) => number(value),
        None => Cell::Null,
    }
}

/// The text of a spot. The error is `Memory`.
pub fn spot(alloc: Global, spot: Spot) -> Result<Cell<'static>, Refusal>
    ensures text { IfOk result (λ cell. cell_value cell ≡ Chars (spot_text spot)) }
    ensures told { OnOk result (IsNumbered spot) }
    ensures cause { IfErr result IsFault }
{
    let text = spot.text(alloc)?;
    Ok(Cell::Words(Text::from_string(text)))
}

/// The one written text of seats. The error is `Memory`.
pub fn seats(alloc: Global, seats: &Seats) -> Result<Cell<'static>, Refusal>
    ensures text { IfOk result (λ cell. cell_value cell ≡ Chars (written seats.now)) }
    ensures told { OnOk result (StandsFor (written seats.now) seats.now) }
    ensures cause { IfErr result IsFault }
{
    let text = write_seats(alloc, seats)?;
    Ok(Cell::Words(Text::from_string(text)))
}

/// The facility where an item is loose, or NULL.
pub fn loose(rest: Rest) -> Cell<'static>
    ensures { cell_value result ≡ loose_value rest }
{
    match rest {
        Rest::Loose(facility) => Cell::Text(facility.text()),
        Rest::Within(_) => Cell::Null,
    }
}

/// The serial of the bag that an item is in, or NULL.
pub fn within(rest: &Rest) -> Cell<'_>
    ensures { cell_value result ≡ within_value rest.now }
{
    match rest {
        Rest::Loose(_) => Cell::Null,
        Rest::Within(serial) => Cell::Text(serial.as_str()),
    }
}
