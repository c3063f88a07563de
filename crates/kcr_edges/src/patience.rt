//! A reader and a writer of a socket that share one patience.
ghost use Rattle.std.specs.Prelude.{◌≡◌, ◌*◌, ℕ, Bool, None, true, false, if◌then◌else◌};
ghost use Rattle.std.specs.Io.{ReadsAtMost, WritesAtMost, KnownBytes.ReadConsumes, KnownBytes.WriteAppends};
ghost use Rattle.kcr_edges.specs.Waits.{AwaitsByte, OffersBytes};

use crate::socket::Socket;
use std::cell::Cell;
use std::io::{self, ErrorKind, Read, Write};

/// For how many milliseconds a connection may keep silent within a message, and be waited for until it has taken the
/// answers to what it last sent.
const TIMEOUT: u64 = 30_000;

/// How long a connection is waited for, and what it was waited for already. All times are in milliseconds.
#[derive(Drop)]
pub struct Patience {
    /// For how long it may be silent between two messages.
    idle: u64,
    /// For how long it may last in all.
    longest: u64,
    /// Whether the next byte begins a message: nothing was read yet, or answers were written since.
    is_between: Cell<bool>,
    /// For how long it was waited since the last byte was read, until answers were taken.
    waited: Cell<u64>,
}

impl Patience {
    /// Nothing was read or written yet. `idle` is for how many seconds a connection may be silent between two messages,
    /// and `longest` for how many it may last in all.
    pub fn new(idle: u32, longest: u32) -> Patience
        ensures idle { result.idle ≡ idle * 1000 }
        ensures longest { result.longest ≡ longest * 1000 }
    {
        Patience {
            idle: idle as u64 * 1000,
            longest: longest as u64 * 1000,
            is_between: Cell::new(true),
            waited: Cell::new(0),
        }
    }

    /// For how long the next byte is waited for, between two messages or within one.
    fn timeout(&self, is_between: bool) -> u64
        ensures { result ≡ if is_between then self.now.idle else 30000 }
    {
        if is_between { self.idle } else { TIMEOUT }
    }
}

/// A connection to be read from.
#[derive(Drop)]
pub struct TimedReader<'a, S> {
    socket: S,
    patience: &'a Patience,
}

impl<'a, S> TimedReader<'a, S> {
    /// The connection, which is waited for with this patience.
    pub fn new(socket: S, patience: &'a Patience) -> TimedReader<'a, S>
        ensures socket { result.socket ≡ socket }
        ensures patience { result.patience.now ≡ patience.now }
    {
        TimedReader { socket, patience }
    }
}

impl<S: Socket> TimedReader<'_, S> {
    /// Reads some bytes, before a message or within one. Errors: those of the socket; `TimedOut` if the connection has
    /// lasted for its longest time.
    fn read_at(&mut self, is_between: bool, buf: &mut [u8]) -> io::Result<usize>
        ensures bound { ReadsAtMost result buf.new }
        ensures patience { self.new.patience.now ≡ self.old.patience.now }
        ensures between { is_between ≡ true → AwaitsByte self.old.patience.now.longest self.old.patience.now.idle
            (S.asked self.old.socket) (S.asked self.new.socket) }
        ensures within { is_between ≡ false → AwaitsByte self.old.patience.now.longest 30000
            (S.asked self.old.socket) (S.asked self.new.socket) }
    {
        let passed = self.socket.passed()?;
        let longest = self.patience.longest;
        if passed >= longest {
            return Err(ErrorKind::TimedOut.into());
        }
        let most = self.patience.timeout(is_between);
        self.socket.set_read_timeout(most.min(longest - passed))?;
        self.socket.receive(buf)
    }
}

impl<S: Socket> Read for TimedReader<'_, S> {
    fn read(&mut self, buf: &mut [u8]) -> io::Result<usize>
        ensures bound { ReadsAtMost result buf.new }
        ensures bytes { ReadConsumes None None result buf.new }

        // No clause tells what the cell said, which is whether a message has begun.
        ensures waits { (is_between : Bool) × AwaitsByte self.old.patience.now.longest
            (if is_between then self.old.patience.now.idle else 30000)
            (S.asked self.old.socket) (S.asked self.new.socket) }
    {
        let is_between = self.patience.is_between.get();
        let count = self.read_at(is_between, buf)?;
        self.patience.is_between.set(false);
        self.patience.waited.set(0);
        Ok(count)
    }
}

/// A connection to be written to.
#[derive(Drop)]
pub struct TimedWriter<'a, S> {
    socket: S,
    patience: &'a Patience,
}

impl<'a, S> TimedWriter<'a, S> {
    /// The connection, which is waited for with this patience.
    pub fn new(socket: S, patience: &'a Patience) -> TimedWriter<'a, S>
        ensures socket { result.socket ≡ socket }
        ensures patience { result.patience.now ≡ patience.now }
    {
        TimedWriter { socket, patience }
    }
}

impl<S: Socket> TimedWriter<'_, S> {
    /// Writes some of the bytes, `waited` milliseconds after the last byte was read. Errors: those of
    /// the socket; `TimedOut` if no time is left.
    fn write_after(&mut self, waited: u64, buf: &[u8]) -> io::Result<usize>
        ensures bound { WritesAtMost result buf.now }
        ensures waits { OffersBytes waited (S.asked self.old.socket) (S.asked self.new.socket) }
    {
        if waited >= TIMEOUT {
            return Err(ErrorKind::TimedOut.into());
        }
        self.socket.set_write_timeout(TIMEOUT - waited)?;
        self.socket.send(buf)
    }
}

impl<S: Socket> Write for TimedWriter<'_, S> {
    fn write(&mut self, buf: &[u8]) -> io::Result<usize>
        ensures bound { WritesAtMost result buf.now }
        ensures bytes { WriteAppends None None result buf.now }

        // No clause tells what the cell said, which is for how long it was waited before.
        ensures waits { (waited : ℕ) × OffersBytes waited (S.asked self.old.socket) (S.asked self.new.socket) }
    {
        let waited = self.patience.waited.get();
        let began = self.socket.passed()?;
        let count = self.write_after(waited, buf)?;
        let took = self.socket.passed()?.saturating_sub(began);
        self.patience.waited.set(waited.saturating_add(took));
        self.patience.is_between.set(!buf.ends_with(CONTINUE));
        Ok(count)
    }

    fn flush(&mut self) -> io::Result<()> {
        Ok(())
    }
}

/// The bytes that ask a client to send the body.
const CONTINUE: &[u8] = b"HTTP/1.1 100 Continue\r\n\r\n";
