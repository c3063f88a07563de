//! Rows that are asked for by a list of keys, or in one of two ways.

ghost use Rattle.std.specs.Prelude.{◌≡◌, Bool, true, IsPermutation, filter};
ghost use Rattle.std.specs.List.{list_any};
ghost use Rattle.std.proofs.{Common.ap, lemmas.Slice.Eq.bytes_eq-Decides};
ghost use Rattle.kcr_base.specs.Same.{same_text};
ghost use Rattle.kcr_history.specs.Views.{Includes, is_of_people, is_item_of};
ghost use Rattle.kcr_rows.specs.Rows.{person_row, item_row};
ghost use Rattle.kcr_tables.specs.Selected.{asked_once, is_under_any, asked_of};
ghost use Rattle.kcr_tables.specs.Exact.{rows_at, has_key, has_any, is_item_row, AreShown};
ghost use Rattle.kcr_tables.specs.{StoredTables.people_place, StoredTables.items_place, Frame.OfTables, Frame.OfTrees, Frame.Reads};

use crate::table::{AsCell, LookupBy, all_rows, find_rows};
use kcr_base::{Initials, ItemCode, Refusal, is_among};
use kcr_custody::Item;
use kcr_history::{InitialsList, ItemFilter, Selection};
use kcr_people::Person;
use sqlite::{Alter, Transaction};
use std::alloc::Global;

/// A table whose rows are asked for by a list of keys, of which some may be the same.
trait LookupByKeys<K: AsCell>: LookupBy<K> {
    /// Whether two keys are the same.
    ghost same: { K → K → Bool };

    /// Whether the key is the same as one of these.
    fn is_named(key: &K, among: &[K]) -> bool
        ensures { result ≡ list_any (same key.now) among.now };

    // Keys that are the same are one.
    ghost one: { (key other : K) → same key other ≡ true → key ≡ other };

    // A row that is under a key is under those that are the same, and no others.
    ghost apart: { (key other : K) (row : Self) → Self.LookupBy.lookup_spec.is_under key row ≡ true
        → Self.LookupBy.lookup_spec.is_under other row ≡ same key other };
}

impl LookupByKeys<Initials> for Person {
    ghost same = { same_text };

    fn is_named(key: &Initials, among: &[Initials]) -> bool {
        is_among(among, *key)
    }

    ghost one = { λ key other h. (bytes_eq-Decides key other).0 h };

    ghost apart = { λ key other row h. ap (λ text. same_text text other) ((bytes_eq-Decides row.who key).0 h) };
}

impl LookupByKeys<ItemCode> for Item {
    ghost same = { same_text };

    fn is_named(key: &ItemCode, among: &[ItemCode]) -> bool {
        is_among(among, *key)
    }

    ghost one = { λ key other h. (bytes_eq-Decides key other).0 h };

    ghost apart = { λ key other row h. ap (λ text. same_text text other) ((bytes_eq-Decides row.code key).0 h) };
}

/// The rows under the key; none if it is the same as one of those before it.
fn rows_once<S: Alter, K: AsCell, T: LookupByKeys<K>>(
    alloc: Global,
    tx: &mut Transaction<'_, S>,
    key: &K,
    before: &[K],
) -> Result<Vec<T>, Refusal>
    ensures rows { OfTables S.Store tx.old tx.new result
        (λ t all. all.items ≡ asked_once T.same T.lookup_spec.is_under key.now before.now (T.table.rows_in t)) }
    ensures exact { OfTrees S.Store tx.old tx.new result
        (λ db all. AreShown T.row_of all.items (asked_once T.same (has_key T.lookup_spec.column K.value_of) key.now
        before.now (rows_at T.table.place db))) }
    ensures frame { Reads S.Store tx.old tx.new result }
{
    if T::is_named(key, before) {
        Ok(Vec::new(alloc))
    } else {
        find_rows(alloc, tx, key)
    }
}

/// The rows of these keys, of which some may be the same: each row once.
fn rows_named<S: Alter, K: AsCell, T: LookupByKeys<K>>(
    alloc: Global,
    tx: &mut Transaction<'_, S>,
    keys: &[K],
) -> Result<Vec<T>, Refusal>
    ensures rows { OfTables S.Store tx.old tx.new result
        (λ t all. IsPermutation (filter (is_under_any T.lookup_spec.is_under keys.now) (T.table.rows_in t)) all.items) }
    ensures exact { OfTrees S.Store tx.old tx.new result
        (λ db all. AreShown T.row_of all.items (filter (is_under_any (has_key T.lookup_spec.column K.value_of) keys.now)
        (rows_at T.table.place db))) }
    ensures frame { Reads S.Store tx.old tx.new result }
{
    let mut rows = Vec::new(alloc);
    for at in 0..keys.len() {
        let mut found = rows_once(alloc, tx, &keys[at], &keys[..at])?;
        rows.append(&mut found)?;
    }
    Ok(rows)
}

/// The people that are asked for.
pub fn select_people<S: Alter>(
    alloc: Global,
    tx: &mut Transaction<'_, S>,
    asked: &Selection<InitialsList>,
) -> Result<Vec<Person>, Refusal>
    ensures rows { OfTables S.Store tx.old tx.new result
        (λ t all. Includes is_of_people asked.now t.rows.people all.items) }
    ensures exact { OfTrees S.Store tx.old tx.new result
        (λ db all. AreShown person_row all.items (asked_of (has_any 0) asked.now (rows_at people_place db))) }
    ensures frame { Reads S.Store tx.old tx.new result }
{
    match asked {
        Selection::Nothing => Ok(Vec::new(alloc)),
        Selection::Matching(people) => rows_named(alloc, tx, people.as_slice()),
        Selection::All => all_rows(alloc, tx),
    }
}

/// The items that are asked for, by their codes or by the bag that they lie in.
pub fn select_items<S: Alter>(
    alloc: Global,
    tx: &mut Transaction<'_, S>,
    asked: &Selection<ItemFilter>,
) -> Result<Vec<Item>, Refusal>
    ensures rows { OfTables S.Store tx.old tx.new result
        (λ t all. Includes is_item_of asked.now t.rows.items all.items) }
    ensures exact { OfTrees S.Store tx.old tx.new result
        (λ db all. AreShown item_row all.items (asked_of is_item_row asked.now (rows_at items_place db))) }
    ensures frame { Reads S.Store tx.old tx.new result }
{
    match asked {
        Selection::Nothing => Ok(Vec::new(alloc)),
        Selection::Matching(ItemFilter::Codes(codes)) => rows_named(alloc, tx, codes.as_slice()),
        Selection::Matching(ItemFilter::Bag(serial)) => find_rows(alloc, tx, serial),
        Selection::All => all_rows(alloc, tx),
    }
}
