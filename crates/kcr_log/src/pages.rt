//! The frames of a log whose head tells nothing, beside the pages of its file.
ghost use Rattle.std.specs.Prelude.{◌≡◌, ◌≢◌, ◌+◌, ◌<◌, ◌≤◌, ◌||◌, ℕ, true, false, length, slice_index, MatchOption};
ghost use Rattle.kcr_log.specs.Frames.{frame_count, frame_of, checks};
ghost use Rattle.kcr_log.specs.Pages.{page_size_of, told_header, by_second, turned, IsRun, IsNewest, HasPage, IsLost, HasLost};

use crate::frames::{FRAME_HEAD_SIZE, Header, number_at};

/// The size of a page by the head of the file, or by the log's if the file is too short.
pub(crate) fn page_size(file: &[u8], log: &[u8]) -> u32
    requires { 32 ≤ length log.now }
    ensures { result ≡ page_size_of file.now log.now }
{
    if file.len() < 18 {
        return number_at(log, 8);
    }
    let named = file[16] as u32 * 256 + file[17] as u32;
    if named == 1 { 65536 } else { named }
}

/// The head of a log as its first frame tells it.
pub(crate) fn told_header(big: bool, page_size: u32, log: &[u8]) -> Header
    requires { 48 ≤ length log.now }
    ensures { result ≡ told_header big page_size log.now }
{
    Header {
        big,
        page_size,
        salt: number_at(log, 40),
        second_salt: number_at(log, 44),
    }
}

/// The head of a log as its second frame tells it.
fn by_second(header: &Header, log: &[u8]) -> Header
    requires { 1 < frame_count header.now log.now }
    ensures { result ≡ by_second header.now log.now }
{
    let frame = header.frame(log, 1);
    Header {
        big: header.big,
        page_size: header.page_size,
        salt: frame.salt,
        second_salt: frame.second_salt,
    }
}

/// The head with the other order of the bytes in a word.
fn turned(header: &Header) -> Header
    ensures { result ≡ turned header.now }
{
    Header {
        big: !header.big,
        page_size: header.page_size,
        salt: header.salt,
        second_salt: header.second_salt,
    }
}

/// The first frame behind the first one that does not have the salts.
fn run_end(header: &Header, log: &[u8]) -> usize
    requires { 1 < frame_count header.now log.now }
    ensures run { IsRun header.now log.now result }
    ensures few { result ≤ frame_count header.now log.now }
{
    let count = header.count(log);
    for i in 1..count {
        if !header.carries(log, i) {
            return i;
        }
    }
    count
}

/// Whether the bytes of the file from `at` on are those of the log from `from` on, as many as a page has.
fn same_bytes(file: &[u8], at: usize, log: &[u8], from: usize, size: usize) -> bool
    requires file { at + size ≤ length file.now }
    requires log { from + size ≤ length log.now }
    ensures same { result ≡ true → (x : ℕ) → x < size → slice_index file.now (at + x) ≡ slice_index log.now (from + x) }
    ensures differ { result ≡ false → (x : ℕ) × (x < size) × (slice_index file.now (at + x) ≢ slice_index log.now (from + x)) }
{
    for x in 0..size {
        if file[at + x] != log[from + x] {
            return false;
        }
    }
    true
}

/// Whether the file has the page of frame `i` as the frame has it.
fn has_page(header: &Header, file: &[u8], log: &[u8], i: usize) -> bool
    requires within { i < frame_count header.now log.now }
    requires page { 0 < (frame_of header.now log.now i).page }
    ensures has { result ≡ true → HasPage header.now file.now log.now i }
    ensures lacks { result ≡ false → ¬ HasPage header.now file.now log.now i }
{
    let size = header.page_size as usize;
    let at = (header.frame(log, i).page as usize - 1) * size;
    let from = header.place(log, i) + FRAME_HEAD_SIZE;
    at + size <= file.len() && same_bytes(file, at, log, from, size)
}

/// Whether no frame of the run behind frame `i` has its page.
fn is_newest(header: &Header, log: &[u8], end: usize, i: usize) -> bool
    requires within { i < end }
    requires few { end ≤ frame_count header.now log.now }
    ensures newest { result ≡ true → IsNewest header.now log.now end i }
    ensures older { result ≡ false → ¬ IsNewest header.now log.now end i }
{
    let page = header.frame(log, i).page;
    for j in i + 1..end {
        if header.frame(log, j).page == page {
            return false;
        }
    }
    true
}

/// Whether frame `i` checks by one of the two orders of the bytes in a word.
fn checks(header: &Header, log: &[u8], i: usize) -> bool
    ensures { result ≡ (checks header.now log.now i || checks (turned header.now) log.now i) }
{
    header.checks(log, i) || turned(header).checks(log, i)
}

/// Whether frame `i` of the run has a page that is lost.
fn is_lost(header: &Header, file: &[u8], log: &[u8], end: usize, i: usize) -> bool
    requires behind { 1 ≤ i }
    requires within { i < end }
    requires few { end ≤ frame_count header.now log.now }
    ensures lost { result ≡ true → IsLost header.now file.now log.now end i }
    ensures kept { result ≡ false → ¬ IsLost header.now file.now log.now end i }
{
    checks(header, log, i)
        && header.frame(log, i).page <= header.frame(log, end - 1).size
        && !has_page(header, file, log, i)
        && is_newest(header, log, end, i)
}

/// Whether a frame of the run has a page that is lost.
fn any_lost(header: &Header, file: &[u8], log: &[u8], end: usize) -> bool
    requires { end ≤ frame_count header.now log.now }
    ensures lost { result ≡ true → (i : ℕ) × IsLost header.now file.now log.now end i }
    ensures kept { result ≡ false → (i : ℕ) → ¬ IsLost header.now file.now log.now end i }
{
    for i in 1..end {
        if is_lost(header, file, log, end, i) {
            return true;
        }
    }
    false
}

/// How many transactions end in the frames behind the first, if they are not all in the file.
pub(crate) fn lost_ends(told: &Header, file: &[u8], log: &[u8]) -> Option<usize>
    ensures { MatchOption result ((ended : ℕ) → ¬ HasLost (by_second told.now log.now) file.now log.now ended) (λ ended. HasLost (by_second told.now log.now) file.now log.now ended) }
{
    if told.count(log) < 2 {
        return None;
    }
    let header = by_second(told, log);
    let end = run_end(&header, log);
    if header.commits(log, end - 1) && any_lost(&header, file, log, end) {
        return Some(header.commits_from(log, 1));
    }
    None
}
