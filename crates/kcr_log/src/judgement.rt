//! Whether a log is one that a stop can leave.
ghost use Rattle.std.specs.Prelude.{◌≡◌, ◌<◌, ◌≤◌, ◌||◌, ℕ, true, false, length};
ghost use Rattle.kcr_log.specs.Frames.{header_of, is_signed, frame_count, checks};
ghost use Rattle.kcr_log.specs.{Damage.IsJudged, Pages.told_header, Stop.IsCutShort, Stop.IsEmptied, Stop.IsLeftByStop};

use crate::frames::{Header, is_signed, number_at, read_header};
use crate::later::was_safe;
use crate::pages::{lost_ends, page_size, told_header};

/// What a log is.
#[derive(Clone, Copy)]
pub enum Log {
    /// It is sound so far as it is read.
    Sound,
    /// Its head has a wrong checksum, but its frames continue each other's checksums, or contain pages that the file
    /// lacks.
    WrongHead {
        /// How many transactions end in the frames.
        ended: usize,
    },
    /// A frame does not check, before others that were safe.
    WrongFrame {
        /// The number of the frame, from 1.
        first: usize,
        /// How many transactions end with it and behind it.
        behind: usize,
    },
    /// It has transactions, and its file is missing or has no byte.
    NoFile {
        /// How many transactions end in the frames.
        ended: usize,
    },
}

/// The number of the first frame, from 0, that does not check.
#[tactic(auto, unfolding(crate::specs::Frames::checks, crate::specs::Frames::carries))]
fn first_wrong(header: &Header, log: &[u8]) -> usize
    ensures before { (i : ℕ) → i < result → checks header.now log.now i ≡ true }
    ensures wrong { checks header.now log.now result ≡ false }
    ensures few { result ≤ frame_count header.now log.now }
{
    let count = header.count(log);
    for i in 0..count {
        if !header.checks(log, i) {
            return i;
        }
    }
    count
}

/// Whether the second frame goes on from the first, by one of the two orders of the bytes in a word.
fn agree(page_size: u32, log: &[u8]) -> bool
    requires { 48 ≤ length log.now }
    ensures { result ≡ (checks (told_header false page_size log.now) log.now 1 || checks (told_header true page_size log.now) log.now 1) }
{
    told_header(false, page_size, log).checks(log, 1)
        || told_header(true, page_size, log).checks(log, 1)
}

/// What a log is whose head does not check.
fn judge_head(file: &[u8], log: &[u8]) -> Log
    requires long { 56 ≤ length log.now }
    requires wrong { is_signed log.now ≡ false }
    ensures judged { IsJudged file.now log.now result }
    ensures left { IsEmptied file.now log.now → result ≡ Log.Sound }
{
    let size = page_size(file, log);
    let told = told_header(false, size, log);
    let ended = told.commits_from(log, 0);
    if number_at(log, 0) >= 0x100_0000 && agree(size, log) && ended > 0 {
        return Log::WrongHead { ended };
    }
    match lost_ends(&told, file, log) {
        Some(ended) => Log::WrongHead { ended },
        None => Log::Sound,
    }
}

/// What a log is whose head checks.
fn judge_frames(file: &[u8], log: &[u8]) -> Log
    requires long { 56 ≤ length log.now }
    requires signed { is_signed log.now ≡ true }
    ensures judged { IsJudged file.now log.now result }
    ensures left { 0 < length file.now → IsCutShort (header_of log.now) log.now → result ≡ Log.Sound }
{
    let header = read_header(log);
    let first = first_wrong(&header, log);
    let ended = header.commits_from(log, 0);
    if file.is_empty() && first > 0 && ended > 0 {
        return Log::NoFile { ended };
    }
    if !was_safe(&header, log, first) {
        return Log::Sound;
    }
    let behind = header.ends_from(log, first);
    let first = first + 1;
    Log::WrongFrame { first, behind }
}

/// What the log is, beside the bytes of its file. No file is a file of no bytes.
pub fn judge(file: &[u8], log: &[u8]) -> Log
    ensures judged { IsJudged file.now log.now result }
    ensures left { IsLeftByStop file.now log.now → result ≡ Log.Sound }
{
    if log.len() < 56 {
        return Log::Sound;
    }
    if is_signed(log) {
        judge_frames(file, log)
    } else {
        judge_head(file, log)
    }
}
