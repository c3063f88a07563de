//! A writer that passes answers on only while the files of the register are there.
ghost use Rattle.std.specs.Prelude.{◌≡◌, Bool, List, Option, None, true, false, IsErr};
ghost use Rattle.std.specs.Io.{WritesAtMost, KnownBytes.WriteAppends};
ghost use Rattle.kcr_edges.specs.Looks.{HasLooked, LooksOnce};

use std::io::{self, ErrorKind, Write};

/// The files of an open register.
pub trait Files {
    // What each look found, the last first, if that is known: of the files of the system it is not.
    ghost looks: { Self → Option (List Bool) } = { λ _. None };

    /// Looks at the files, and returns `true` if all are there as the register left them.
    fn are_there(&mut self) -> bool
        ensures { HasLooked (looks self.old) (looks self.new) result };
}

/// A writer that passes answers on only while the register's files are there. So no command is answered as accepted
/// that went into a file that is gone.
#[derive(Drop)]
pub struct Watched<W, L> {
    writer: W,
    files: Option<L>,
    is_lost: bool,
}

impl<W, L> Watched<W, L> {
    /// The writer of the answers. A register in memory has no files to watch.
    pub fn new(writer: W, files: Option<L>) -> Watched<W, L>
        ensures writer { result.writer ≡ writer }
        ensures files { result.files ≡ files }
        ensures whole { result.is_lost ≡ false }
    {
        Watched {
            writer,
            files,
            is_lost: false,
        }
    }
}

impl<W: Write, L: Files> Write for Watched<W, L> {
    ghost contents = { λ w. W.contents w.writer };

    fn write(&mut self, buf: &[u8]) -> io::Result<usize>
        ensures bound { WritesAtMost result buf.now }
        ensures bytes { WriteAppends (W.contents self.old.writer) (W.contents self.new.writer) result buf.now }

        // Before each write the files are looked at. Once they are lost, nothing is written.
        ensures looked { self.old.is_lost ≡ false → LooksOnce L.looks self.old.files self.new.files self.new.is_lost }
        ensures lost { self.new.is_lost ≡ true → IsErr result × (self.new.writer ≡ self.old.writer) }
        ensures stays { self.old.is_lost ≡ true → self.new.is_lost ≡ true }
    {
        if !self.is_lost {
            if let Some(files) = &mut self.files {
                self.is_lost = !files.are_there();
            }
        }
        if self.is_lost {
            return Err(ErrorKind::NotFound.into());
        }
        self.writer.write(buf)
    }

    fn flush(&mut self) -> io::Result<()> {
        self.writer.flush()
    }
}
