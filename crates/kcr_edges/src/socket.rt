//! The socket of a connection, as the system has it.
ghost use Rattle.std.specs.Prelude.{◌≡◌, Option, None, IfOk};
ghost use Rattle.std.specs.Io.{ReadsAtMost, WritesAtMost};
ghost use Rattle.kcr_edges.specs.Asked.{Asked, Becomes, told_time, set_timeout, waited};

use std::io::{self, Read, Write};
use std::net::TcpStream;
use std::time::{Duration, Instant};

/// A socket with a clock. Each method is one call of the system.
pub trait Socket {
    // What was asked of it, if that is known: of a socket of the system it is not.
    ghost asked: { Self → Option Asked } = { λ _. None };

    /// Returns how many milliseconds have passed since the connection was accepted.
    fn passed(&mut self) -> io::Result<u64>
        ensures { Becomes (told_time result) (asked self.old) (asked self.new) };

    /// Bounds how many milliseconds a read waits for a byte.
    fn set_read_timeout(&mut self, millis: u64) -> io::Result<()>
        ensures { Becomes (set_timeout millis result) (asked self.old) (asked self.new) };

    /// Bounds how many milliseconds a write waits until bytes are taken.
    fn set_write_timeout(&mut self, millis: u64) -> io::Result<()>
        ensures { Becomes (set_timeout millis result) (asked self.old) (asked self.new) };

    /// Reads some bytes.
    fn receive(&mut self, buf: &mut [u8]) -> io::Result<usize>
        ensures bound { ReadsAtMost result buf.new }
        ensures waits { Becomes waited (asked self.old) (asked self.new) };

    /// Writes some of the bytes.
    fn send(&mut self, buf: &[u8]) -> io::Result<usize>
        ensures bound { WritesAtMost result buf.now }
        ensures waits { Becomes waited (asked self.old) (asked self.new) };
}

/// A connection of the system.
#[derive(Clone, Copy)]
pub struct Accepted<'a> {
    rt: &'a HostRuntime,
    stream: &'a TcpStream,
    since: Instant,
}

impl<'a> Accepted<'a> {
    /// The connection, which was accepted just now. Errors: those of the clock.
    pub fn new(rt: &'a HostRuntime, stream: &'a TcpStream) -> io::Result<Accepted<'a>>
        ensures { IfOk result (λ accepted. accepted.stream.now ≡ stream.now) }
    {
        Ok(Accepted {
            rt,
            stream,
            since: Instant::now(rt)?,
        })
    }
}

impl Socket for Accepted<'_> {
    fn passed(&mut self) -> io::Result<u64> {
        let passed = self.since.elapsed(self.rt)?;
        Ok(passed.as_millis().min(u64::MAX as u128) as u64)
    }

    fn set_read_timeout(&mut self, millis: u64) -> io::Result<()> {
        self.stream
            .set_read_timeout(Some(Duration::from_millis(millis)))
    }

    fn set_write_timeout(&mut self, millis: u64) -> io::Result<()> {
        self.stream
            .set_write_timeout(Some(Duration::from_millis(millis)))
    }

    fn receive(&mut self, buf: &mut [u8]) -> io::Result<usize> {
        let mut stream = self.stream;
        stream.read(buf)
    }

    fn send(&mut self, buf: &[u8]) -> io::Result<usize> {
        let mut stream = self.stream;
        stream.write(buf)
    }
}
