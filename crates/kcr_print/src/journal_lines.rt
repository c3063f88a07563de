//! The lines of the journal.

use crate::print_lines::PrintLines;
use kcr_base::Refusal;
use kcr_journal::JournalLine;
use std::alloc::Global;

impl PrintLines for JournalLine {
    ghost lines = { λ line. line };

    fn print_lines(&self, _alloc: Global, out: &mut Vec<u8>) -> Result<(), Refusal> {
        Ok(out.extend_from_slice(self.as_bytes())?)
    }
}
