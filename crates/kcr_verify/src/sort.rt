//! The accepted commands in the order of their numbers.
ghost use Rattle.std.specs.{Prelude.IsPermutation, List.Sorted.IsSorted};
ghost use Rattle.kcr_verify.specs.Verification.{by_number};

use kcr_history::KeyRow;

/// Puts accepted commands, which a database keeps in the order of their keys, in that of their numbers.
pub(crate) fn sort_by_number(rows: &mut Vec<KeyRow>)
    ensures same { IsPermutation rows.old.items rows.new.items }
    ensures order { IsSorted by_number rows.new.items }
{
    rows.sort_unstable_by_key(|row| row.accepted);
}
