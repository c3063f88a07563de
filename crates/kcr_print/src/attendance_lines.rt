//! The rows of an attendance.

ghost use Rattle.kcr_print.specs.Lines.{header_line, named_line};

use crate::line::push_row;
use crate::print_lines::PrintLines;
use kcr_base::{Moment, Refusal};
use kcr_history::StayWithName;
use std::alloc::Global;

/// The header, a row of its own.
#[derive(Clone, Copy)]
pub(crate) struct Header;

impl PrintLines for Header {
    ghost lines = { λ _. header_line };

    fn print_lines(&self, alloc: Global, out: &mut Vec<u8>) -> Result<(), Refusal> {
        push_row(alloc, out, &[b"who", b"name", b"in", b"out"])
    }
}

impl PrintLines for StayWithName {
    ghost lines = { named_line };

    fn print_lines(&self, alloc: Global, out: &mut Vec<u8>) -> Result<(), Refusal> {
        let stay = &self.stay;
        let since = stay.since.text();
        let until = stay.until.map(Moment::text);
        push_row(
            alloc,
            out,
            &[
                stay.who.as_str().as_bytes(),
                self.name.as_str().as_bytes(),
                &since,
                match &until {
                    Some(until) => until,
                    None => b"",
                },
            ],
        )
    }
}
