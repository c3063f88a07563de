//! The row with a value that at most one row has.

ghost use Rattle.std.specs.Prelude.{◌≡◌, filter, find, true};
ghost use Rattle.std.specs.Ordering.{is_eq};
ghost use Rattle.kcr_rows.specs.{Frame.ImpliesOpen, Keyed.by_key};
ghost use Rattle.kcr_rows.proofs.FilterLemmas.{has_value};
ghost use Rattle.kcr_tables.specs.{Exact.rows_at, Exact.IsFirstShown, Table.machine_rows};
ghost use Rattle.kcr_tables.specs.{Frame.OfMachineTables, Frame.OfTrees, Frame.Reads, UniqueLaws.one_number, UniqueLaws.one_text};

use crate::table::{AsCell, LookupBy, find_rows};
use kcr_base::{Initials, Key, Refusal, Serial};
use kcr_custody::Bag;
use kcr_history::{CeremonyRow, KeyRow};
use kcr_people::Person;
use sqlite::{Alter, Transaction};
use std::alloc::Global;

/// A table in which at most one row has a value, which is the row's key.
pub trait UniqueBy<K: AsCell>: LookupBy<K> {
    // Two rows with one value have one key.
    ghost one_key: { (key : K) (x y : Self) → Self.LookupBy.lookup_spec.is_under key x ≡ true
        → Self.LookupBy.lookup_spec.is_under key y ≡ true
        → is_eq (by_key Self.TableRow.table.place.keys (Self.FromRow.row_of x) (Self.FromRow.row_of y)) ≡ true };
}

impl UniqueBy<Key> for KeyRow {
    ghost one_key = { λ key x y p q. one_text key x.key y.key p q };
}

impl UniqueBy<Initials> for Person {
    ghost one_key = { λ who x y p q. one_text who x.who y.who p q };
}

impl UniqueBy<Serial> for Bag {
    ghost one_key = { λ serial x y p q. one_text serial x.serial y.serial p q };
}

impl UniqueBy<u32> for CeremonyRow {
    ghost one_key = { λ number x y p q. one_number number x.number y.number p q };
}

/// The row with this value, if there is one; the first, if a file has several. Nothing is changed. The error is `Memory`
/// when out of memory, and else `Disk`: the device failed, or a row with this value is invalid.
pub fn find_row<S: Alter, K: AsCell, T: UniqueBy<K>>(
    alloc: Global,
    tx: &mut Transaction<'_, S>,
    key: &K,
) -> Result<Option<T>, Refusal>
    ensures row { OfMachineTables S.Store tx.old tx.new result
        (λ m row. row ≡ find (T.lookup_spec.is_under key.now) (machine_rows T.table m)) }
    ensures exact { OfTrees S.Store tx.old tx.new result (λ db row. IsFirstShown T.row_of row
        (filter (has_value T.lookup_spec.column (K.value_of key.now)) (rows_at T.table.place db))) }
    ensures opened { ImpliesOpen S.Store tx.old tx.new result }
    ensures frame { Reads S.Store tx.old tx.new result }
{
    Ok(find_rows(alloc, tx, key)?.into_iter().next())
}
