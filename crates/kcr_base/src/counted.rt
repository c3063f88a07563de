//! A reader or a writer whose calls are counted, for clauses alone.
ghost use Rattle.std.specs.Prelude.{◌≡◌, ◌+◌, length};
ghost use Rattle.std.specs.Io.{ReadsAtMost, WritesAtMost, KnownBytes.ReadConsumes, KnownBytes.WriteAppends, KnownBytes.Keeps};

use crate::tally::Tally;
use std::io;
use std::io::{Read, Write};

/// A reader or a writer, and how many of its calls failed and how many of its reads gave a byte. It passes each call
/// on, and the counts take no bytes at run time. Only `read`, `write` and `flush` tell the counts in their clauses,
/// and not the methods of the traits that call them.
#[derive(Drop)]
pub struct Counted<T> {
    inner: T,
    failed: Tally,
    nonempty_reads: Tally,
}

impl<T> Counted<T> {
    ghost use Rattle.kcr_base.specs.Counted.{inner_of, failures_of, nonempty_reads_of};

    /// The reader or writer, with no calls counted.
    pub fn new(inner: T) -> Counted<T>
        ensures inner { inner_of result ≡ inner }
        ensures failed { failures_of result ≡ 0 }
        ensures given { nonempty_reads_of result ≡ 0 }
    {
        Counted {
            inner,
            failed: Tally::new(),
            nonempty_reads: Tally::new(),
        }
    }

    /// The reader or writer itself.
    pub fn into_inner(self) -> T
        ensures { result ≡ inner_of self }
    {
        let Counted {
            inner,
            failed: _,
            nonempty_reads: _,
        } = self;
        inner
    }
}

impl<R: Read> Read for Counted<R> {
    ghost use Rattle.kcr_base.specs.Counted.{inner_of, failures_of, nonempty_reads_of};
    ghost use Rattle.kcr_base.specs.Counts.{failure_count, nonempty_read_count};

    ghost remaining = { λ c. R.remaining c.inner };

    fn read(&mut self, buf: &mut [u8]) -> io::Result<usize>
        ensures bound { ReadsAtMost result buf.new }
        ensures bytes { ReadConsumes (R.remaining (inner_of self.old))
            (R.remaining (inner_of self.new)) result buf.new }
        ensures failed { failures_of self.new ≡ failures_of self.old + failure_count result }
        ensures given { nonempty_reads_of self.new ≡ nonempty_reads_of self.old + nonempty_read_count result }
    {
        let result = self.inner.read(buf);
        match &result {
            Ok(0) => {}
            Ok(_) => self.nonempty_reads = Tally::after(&self.nonempty_reads),
            Err(_) => self.failed = Tally::after(&self.failed),
        }
        result
    }
}

impl<W: Write> Write for Counted<W> {
    ghost use Rattle.kcr_base.specs.Counted.{inner_of, failures_of, nonempty_reads_of};
    ghost use Rattle.kcr_base.specs.Counts.{write_failure_count, failure_count};

    ghost contents = { λ c. W.contents c.inner };

    // A write that takes none of the bytes of a piece counts as failed.
    fn write(&mut self, buf: &[u8]) -> io::Result<usize>
        ensures bound { WritesAtMost result buf.now }
        ensures bytes { WriteAppends (W.contents (inner_of self.old)) (W.contents (inner_of self.new)) result buf.now }
        ensures failed { failures_of self.new ≡ failures_of self.old + write_failure_count (length buf.now) result }
        ensures given { nonempty_reads_of self.new ≡ nonempty_reads_of self.old }
    {
        let result = self.inner.write(buf);
        match &result {
            Ok(0) => {
                if !buf.is_empty() {
                    self.failed = Tally::after(&self.failed);
                }
            }
            Ok(_) => {}
            Err(_) => self.failed = Tally::after(&self.failed),
        }
        result
    }

    fn flush(&mut self) -> io::Result<()>
        ensures bytes { Keeps (W.contents (inner_of self.old)) (W.contents (inner_of self.new)) }
        ensures failed { failures_of self.new ≡ failures_of self.old + failure_count result }
        ensures given { nonempty_reads_of self.new ≡ nonempty_reads_of self.old }
    {
        let result = self.inner.flush();
        if result.is_err() {
            self.failed = Tally::after(&self.failed);
        }
        result
    }
}
