//! Whether a frame that does not check was safe, by what is there of it and behind it.
ghost use Rattle.std.specs.Prelude.{◌≡◌, ◌<◌, ◌≤◌};
ghost use Rattle.kcr_log.specs.Frames.{frame_count};
ghost use Rattle.kcr_log.specs.Damage.{shut_byte, is_shut, commits_behind, is_followed, is_opened, was_safe};

use crate::frames::{COUNT_PAGE, Header};

/// The byte that a writer puts first among the salts of a frame that is not to be read yet.
fn shut_byte(header: &Header) -> u32
    ensures { result ≡ shut_byte header.now }
{
    if header.salt / 0x100_0000 == 0 { 1 } else { 0 }
}

/// Whether frame `i`, from 0, is not to be read yet.
#[tactic(auto, unfolding(crate::specs::Damage::is_shut))]
fn is_shut(header: &Header, log: &[u8], i: usize) -> bool
    requires { i < frame_count header.now log.now }
    ensures { result ≡ is_shut header.now log.now i }
{
    header.frame(log, i).salt / 0x100_0000 == shut_byte(header)
}

/// How many transactions end in frame `i`, from 0, and in the frames that follow it with the salts.
#[tactic(auto, unfolding(crate::specs::Damage::commits_behind))]
fn commits_behind(header: &Header, log: &[u8], i: usize) -> usize
    requires { i < frame_count header.now log.now }
    ensures { result ≡ commits_behind header.now log.now i }
{
    let here = if header.commits(log, i) { 1 } else { 0 };
    here + header.commits_from(log, i + 1)
}

/// Whether frame `i` was to be read, and two transactions end in it and in those that follow it.
#[tactic(auto, unfolding(crate::specs::Damage::is_followed))]
fn is_followed(header: &Header, log: &[u8], i: usize) -> bool
    requires { i < frame_count header.now log.now }
    ensures { result ≡ is_followed header.now log.now i }
{
    !is_shut(header, log, i) && commits_behind(header, log, i) > 1
}

/// Whether the transaction of frame `i` is read once all of it is safe.
#[tactic(auto, unfolding(crate::specs::Damage::is_opened))]
fn is_opened(header: &Header, log: &[u8], i: usize) -> bool
    requires { i < frame_count header.now log.now }
    ensures { result ≡ is_opened header.now log.now i }
{
    let first = header.start_of(log, i);
    let page = header.frame(log, first).page;
    !is_shut(header, log, first) && page != 0 && page != COUNT_PAGE
}

/// Whether frame `i`, the first that does not check, was safe.
#[tactic(auto, unfolding(crate::specs::Damage::was_safe, crate::specs::Damage::is_passed))]
pub(crate) fn was_safe(header: &Header, log: &[u8], i: usize) -> bool
    requires { i ≤ frame_count header.now log.now }
    ensures { result ≡ was_safe header.now log.now i }
{
    if i == header.count(log) {
        return false;
    }
    is_followed(header, log, i)
        || header.begins_from(log, i + 1)
        || (is_opened(header, log, i) && header.ends_from(log, i) > 1)
}
