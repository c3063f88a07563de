//! A page: bytes in memory, up to a limit.
ghost use Rattle.std.specs.Prelude.{◌≡◌, [], Some};

use std::alloc::Global;
use std::io::{self, ErrorKind, Write};

/// The most bytes of a page.
const PAGE_SIZE: usize = 1_048_576;

/// Bytes in memory. A write beyond the limit takes none of its bytes, and the page is full from then on.
#[derive(Drop)]
pub(crate) struct Page {
    text: Vec<u8>,
    /// How many writes were taken.
    writes: u32,
    is_full: bool,
}

impl Page {
    ghost use Rattle.kcr_desk.specs.Pages.{text_of};

    /// A page without a byte.
    pub(crate) fn new(alloc: Global) -> Page
        ensures { text_of result ≡ [] }
    {
        Page {
            text: Vec::new(alloc),
            writes: 0,
            is_full: false,
        }
    }

    /// Its bytes.
    pub(crate) fn into_text(self) -> Vec<u8>
        ensures { result.items ≡ text_of self }
    {
        self.text
    }

    /// Whether a write did not fit.
    pub(crate) fn is_full(&self) -> bool {
        self.is_full
    }

    /// How many writes were taken.
    pub(crate) fn writes(&self) -> u32 {
        self.writes
    }
}

impl Write for Page {
    ghost contents = { λ page. Some page.text.items };

    fn write(&mut self, buf: &[u8]) -> io::Result<usize> {
        if PAGE_SIZE.saturating_sub(self.text.len()) < buf.len() {
            self.is_full = true;
            return Err(ErrorKind::StorageFull.into());
        }
        let outcome = self.text.write(buf);
        if outcome.is_ok() {
            self.writes = self.writes.saturating_add(1);
        }
        outcome
    }

    fn flush(&mut self) -> io::Result<()> {
        Ok(())
    }
}
