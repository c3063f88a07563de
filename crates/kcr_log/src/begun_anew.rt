//! Whether a register began its log anew between two looks at the head.
ghost use Rattle.std.specs.Prelude.{◌≡◌, ◌-◌};
ghost use Rattle.kcr_log.specs.BegunAnew.{count_of, is_begun_anew, is_later, next, same};

use crate::frames::{HEAD_SIZE, number_at};

/// How often at most a register begins its log anew between two looks: it does so only if the log has 1,000 pages, and
/// at most once for each command.
const MAX_CHECKPOINTS: usize = 1_000;

/// The number of checkpoints that a head has before the first one.
const NO_CHECKPOINT: u32 = 0xffff_ffff;

/// The least first salt.
const MIN_SALT: u32 = 0x100_0000;

/// What a checkpoint counts up in the head of a log.
#[derive(Clone, Copy)]
struct Count {
    checkpoints: u32,
    /// The first of the two salts.
    salt: u32,
}

fn count_of(head: &[u8; HEAD_SIZE]) -> Count
    ensures { result ≡ count_of head.now }
{
    Count {
        checkpoints: number_at(head, 12),
        salt: number_at(head, 16),
    }
}

/// What a head counts after one more checkpoint.
fn next(count: Count) -> Count
    ensures { result ≡ next count }
{
    Count {
        checkpoints: count.checkpoints.wrapping_add(1) % NO_CHECKPOINT,
        salt: count.salt.wrapping_add(1).max(MIN_SALT),
    }
}

fn same(one: Count, other: Count) -> bool
    ensures { result ≡ same one other }
{
    one.checkpoints == other.checkpoints && one.salt == other.salt
}

/// Whether one of the next `most` checkpoints leads from the first count to the second.
fn is_later(most: usize, first: Count, second: Count) -> bool
    ensures { result ≡ is_later most first second }
{
    let mut count = first;
    for _ in 0..most {
        count = next(count);
        if same(count, second) {
            return true;
        }
    }
    false
}

/// Whether the register may have begun its log anew between the two heads: it counts its checkpoints and the first salt
/// up, and leaves the version and the size of a page. The head of an older log has lower counts.
pub fn is_begun_anew(seen: &[u8; HEAD_SIZE], now: &[u8; HEAD_SIZE]) -> bool
    ensures { result ≡ is_begun_anew seen.now now.now }
{
    number_at(seen, 4) == number_at(now, 4)
        && number_at(seen, 8) == number_at(now, 8)
        && is_later(MAX_CHECKPOINTS, count_of(seen), count_of(now))
}
