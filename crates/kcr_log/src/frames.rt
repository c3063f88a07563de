//! The head of a log and its frames, read from bytes.
ghost use Rattle.std.specs.Prelude.{◌≡◌, ◌+◌, ◌-◌, ◌*◌, ◌<◌, ◌≤◌, ◌/◌, ◌==◌, length};
ghost use Rattle.sqlite_wal.specs.Format.{be32};
ghost use Rattle.kcr_log.specs.Frames.{header_of, is_signed, frame_at, frame_count, frame_of, carries, sum_before, sum_after, checks, commits, commits_from, ends_in, start_of, begins, begins_in};

use sqlite_wal::checksum_of;

/// The bytes of the head of a log.
pub const HEAD_SIZE: usize = 32;

/// The bytes of a frame before its page.
pub const FRAME_HEAD_SIZE: usize = 24;

/// The page number of a frame that counts the bytes of a transaction.
pub(crate) const COUNT_PAGE: u32 = 0xff00_0000;

/// The magic number of a log whose checksums read words with the highest byte first. The other one is less by 1.
const BIG: u32 = 0x377f_0683;

/// What the head of a log says.
#[derive(Clone, Copy)]
pub(crate) struct Header {
    /// Whether the checksums read words with the highest byte first.
    pub big: bool,
    /// The size of a page, in bytes.
    pub page_size: u32,
    /// The first salt, which each frame of this log repeats.
    pub salt: u32,
    /// The second salt.
    pub second_salt: u32,
}

/// The numbers at the head of a frame.
#[derive(Clone, Copy)]
pub(crate) struct Frame {
    /// The number of the page.
    pub page: u32,
    /// How many pages the database has after a frame that ends a transaction, and 0 in any other.
    pub size: u32,
    /// The first salt.
    pub salt: u32,
    /// The second salt.
    pub second_salt: u32,
    /// The checksum of all frames up to this one.
    pub sum: (u32, u32),
}

/// Returns the number that four bytes from `at` on are, the highest first.
#[tactic(auto, unfolding(sqlite_wal::specs::Format::be32))]
pub fn number_at(log: &[u8], at: usize) -> u32
    requires { at + 4 ≤ length log.now }
    ensures { result ≡ be32 log.now at }
{
    log[at] as u32 * 0x100_0000
        + log[at + 1] as u32 * 0x1_0000
        + log[at + 2] as u32 * 0x100
        + log[at + 3] as u32
}

/// Whether the head begins with a magic number and ends with its own checksum.
pub(crate) fn is_signed(log: &[u8]) -> bool
    requires { 32 ≤ length log.now }
    ensures { result ≡ is_signed log.now }
{
    let magic = number_at(log, 0);
    let sum = checksum_of(magic == BIG, (0, 0), &log[..24]);
    magic / 2 == BIG / 2 && sum.0 == number_at(log, 24) && sum.1 == number_at(log, 28)
}

/// What the head says.
pub(crate) fn read_header(log: &[u8]) -> Header
    requires { 32 ≤ length log.now }
    ensures { result ≡ header_of log.now }
{
    Header {
        big: number_at(log, 0) == BIG,
        page_size: number_at(log, 8),
        salt: number_at(log, 16),
        second_salt: number_at(log, 20),
    }
}

impl Header {
    /// How many whole frames the log has.
    pub(crate) fn count(&self, log: &[u8]) -> usize
        ensures { result ≡ frame_count self.now log.now }
    {
        log.len().saturating_sub(HEAD_SIZE) / (FRAME_HEAD_SIZE + self.page_size as usize)
    }

    /// Where frame `i` begins, from 0.
    pub(crate) fn place(&self, log: &[u8], i: usize) -> usize
        requires { i < frame_count self.now log.now }
        ensures at { result ≡ frame_at self.now i }
        ensures whole { result + 24 + self.now.page_size ≤ length log.now }
    {
        HEAD_SIZE + i * (FRAME_HEAD_SIZE + self.page_size as usize)
    }

    /// The numbers at the head of frame `i`, from 0.
    #[tactic(auto, unfolding(crate::specs::Frames::frame_of))]
    pub(crate) fn frame(&self, log: &[u8], i: usize) -> Frame
        requires { i < frame_count self.now log.now }
        ensures { result ≡ frame_of self.now log.now i }
    {
        let at = self.place(log, i);
        Frame {
            page: number_at(log, at),
            size: number_at(log, at + 4),
            salt: number_at(log, at + 8),
            second_salt: number_at(log, at + 12),
            sum: (number_at(log, at + 16), number_at(log, at + 20)),
        }
    }

    /// Whether frame `i` is whole and has the salts.
    #[tactic(auto, unfolding(crate::specs::Frames::carries))]
    pub(crate) fn carries(&self, log: &[u8], i: usize) -> bool
        ensures { result ≡ carries self.now log.now i }
    {
        if i >= self.count(log) {
            return false;
        }
        let frame = self.frame(log, i);
        frame.salt == self.salt && frame.second_salt == self.second_salt
    }

    /// The checksum that frame `i` continues.
    #[tactic(auto, unfolding(crate::specs::Frames::sum_before))]
    fn sum_before(&self, log: &[u8], i: usize) -> (u32, u32)
        requires { i < frame_count self.now log.now }
        ensures { result ≡ sum_before self.now log.now i }
    {
        if i == 0 {
            (number_at(log, 24), number_at(log, 28))
        } else {
            self.frame(log, i - 1).sum
        }
    }

    /// The checksum after frame `i`, over its page number, its size and its page.
    #[tactic(auto, unfolding(crate::specs::Frames::sum_after))]
    fn sum_after(&self, log: &[u8], i: usize) -> (u32, u32)
        requires { i < frame_count self.now log.now }
        ensures { result ≡ sum_after self.now log.now i }
    {
        let at = self.place(log, i);
        let page = at + FRAME_HEAD_SIZE;
        let numbers = checksum_of(self.big, self.sum_before(log, i), &log[at..at + 8]);
        checksum_of(
            self.big,
            numbers,
            &log[page..page + self.page_size as usize],
        )
    }

    /// Whether frame `i` has the salts, the number of a page, and the checksum that follows from the frame before it.
    #[tactic(auto, unfolding(crate::specs::Frames::checks, crate::specs::Frames::carries))]
    pub(crate) fn checks(&self, log: &[u8], i: usize) -> bool
        ensures { result ≡ checks self.now log.now i }
    {
        if !self.carries(log, i) {
            return false;
        }
        let frame = self.frame(log, i);
        let sum = self.sum_after(log, i);
        frame.page != 0 && sum.0 == frame.sum.0 && sum.1 == frame.sum.1
    }

    /// Whether frame `i` has the salts and ends a transaction.
    #[tactic(auto, unfolding(crate::specs::Frames::commits, crate::specs::Frames::carries))]
    pub(crate) fn commits(&self, log: &[u8], i: usize) -> bool
        ensures { result ≡ commits self.now log.now i }
    {
        self.carries(log, i) && self.frame(log, i).size != 0
    }

    /// How many frames from `first` on end a transaction, up to the first that does not have the salts.
    #[tactic(auto, unfolding(crate::specs::Frames::commits_from))]
    pub(crate) fn commits_from(&self, log: &[u8], first: usize) -> usize
        ensures value { result ≡ commits_from self.now log.now first (frame_count self.now log.now - first) }
        ensures few { result ≤ frame_count self.now log.now - first }
    {
        let mut ended = 0;
        for i in first..self.count(log) {
            if !self.carries(log, i) {
                return ended;
            }
            if self.commits(log, i) {
                ended += 1;
            }
        }
        ended
    }

    /// How many frames from `first` on end a transaction, whatever lies between them.
    #[tactic(auto, unfolding(crate::specs::Frames::ends_in))]
    pub(crate) fn ends_from(&self, log: &[u8], first: usize) -> usize
        ensures value { result ≡ ends_in self.now log.now first (frame_count self.now log.now - first) }
        ensures few { result ≤ frame_count self.now log.now - first }
    {
        let mut ended = 0;
        for i in first..self.count(log) {
            if self.commits(log, i) {
                ended += 1;
            }
        }
        ended
    }

    /// Where the transaction of frame `i` begins.
    #[tactic(auto, unfolding(crate::specs::Frames::start_of))]
    pub(crate) fn start_of(&self, log: &[u8], i: usize) -> usize
        ensures value { result ≡ start_of self.now log.now i }
        ensures before { result ≤ i }
    {
        let mut start = 0;
        for j in 0..i {
            if self.commits(log, j) {
                start = j + 1;
            }
        }
        start
    }

    /// Whether frame `i` begins a counted transaction.
    #[tactic(auto, unfolding(crate::specs::Frames::begins, crate::specs::Frames::carries))]
    fn begins(&self, log: &[u8], i: usize) -> bool
        ensures { result ≡ begins self.now log.now i }
    {
        self.carries(log, i) && self.frame(log, i).page == COUNT_PAGE
    }

    /// Whether a frame from `first` on begins a counted transaction.
    #[tactic(auto, unfolding(crate::specs::Frames::begins_in))]
    pub(crate) fn begins_from(&self, log: &[u8], first: usize) -> bool
        ensures { result ≡ begins_in self.now log.now first (frame_count self.now log.now - first) }
    {
        for i in first..self.count(log) {
            if self.begins(log, i) {
                return true;
            }
        }
        false
    }
}
