//! The bytes of a stream that were read and are no whole message yet.
ghost use Rattle.std.specs.Prelude.{◌≡◌, ℕ, ◌+◌, drop, ◌<◌, ◌≤◌, ◌++◌, List, [], true, false, length, vec_len, OnOk, IfOk};
ghost use Rattle.std.specs.Io.KnownBytes.{IsAtEnd};
ghost use Rattle.kcr_base.specs.Counted.{inner_of};
ghost use Rattle.kcr_desk.specs.{Output.Enqueues, Streams.streams, Streams.writing, declared.input_buffer.TheConstants.MAX_READS};

use crate::fault::DeskFault;
use crate::head::{Framing, HeadParse, is_blank_rest, is_head_method, parse_head};
use crate::output::flush;
use crate::output_buffer::OutputBuffer;
use httparse::spans::RequestSpans;
use kcr_base::{Counted, Refusal};
use std::alloc::Global;
use std::io::{Read, Write};

/// How many reads are made at most for one stream.
pub const MAX_READS: u32 = 1_000_000;

/// What stands at the front of a stream.
#[derive(Clone, Copy)]
pub(crate) enum NextHead {
    Whole(RequestSpans, Framing),
    /// A faulty item, and whether its method is HEAD.
    Refused(Refusal, bool),
    Quiet,
}

/// The bytes that were read and not taken yet, and how many reads gave a byte. Those that were taken stay where they
/// are until more is read: so of the many messages that one read may give none is moved.
#[derive(Drop)]
pub(crate) struct InputBuffer {
    bytes: Vec<u8>,
    /// Where those begin that were not taken.
    start: usize,
    pub reads: u32,
    ghost bounded: { reads ≤ MAX_READS },
    ghost within: { start ≤ vec_len bytes },
}

impl InputBuffer {
    ghost use Rattle.kcr_desk.specs.{NextHead.IsNextHead, Input.TakesIn, Input.unread};

    /// Nothing yet.
    pub fn new(alloc: Global) -> InputBuffer
        ensures held { unread result ≡ [] }
        ensures reads { result.reads ≡ 0 }
    {
        InputBuffer {
            bytes: Vec::new(alloc),
            start: 0,
            reads: 0,
        }
    }

    /// The bytes that were read and not taken yet.
    pub fn unread(&self) -> &[u8]
        ensures { result.now ≡ unread self.now }
    {
        &self.bytes[self.start..]
    }

    /// Moves these bytes to the front, where those lie that were taken, if any.
    fn compact(&mut self)
        ensures held { unread self.new ≡ unread self.old }
        ensures start { self.new.start ≡ 0 }
        ensures reads { self.new.reads ≡ self.old.reads }
    {
        if self.start > 0 {
            let left = self.bytes.len() - self.start;
            self.bytes.copy_within(self.start.., 0);
            self.bytes.truncate(left);
            self.start = 0;
        }
    }

    /// Writes what waits and then reads once, so that nobody who waits for an answer is asked for more. It answers
    /// whether there was a byte.
    #[tactic(auto, using(crate::proofs::WaitingLemmas::front_of_whole))]
    pub fn fill<R: Read, W: Write>(
        &mut self,
        reader: &mut Counted<R>,
        writer: &mut Counted<W>,
        queue: &mut OutputBuffer,
    ) -> Result<bool, DeskFault>
        ensures sent { OnOk result (queue.new.items ≡ []) }
        ensures takes { TakesIn (streams R.remaining W.contents reader.old reader.new writer.old writer.new)
            self.old self.new result }
        ensures grown { IfOk result (λ more. more ≡ true → (self.new.reads ≡ self.old.reads + 1)
            × ((bytes : List ℕ) × (unread self.new ≡ unread self.old ++ bytes) × (length bytes ≤ 4096))) }
        ensures ended { IfOk result (λ more. more ≡ false → (self.new.reads ≡ self.old.reads)
            × (unread self.new ≡ unread self.old) × IsAtEnd (R.remaining (inner_of reader.new))) }
        ensures gathered { Enqueues result (writing W.contents writer.old writer.new) queue.old.items queue.new.items }
    {
        flush(writer, queue)?;
        if self.reads == MAX_READS {
            return Err(DeskFault::Read);
        }
        prove!(queue.is_empty());
        let mut chunk = [0u8; 4096];
        let count = match reader.read(&mut chunk) {
            Ok(count) => count,
            Err(_) => return Err(DeskFault::Read),
        };
        if count == 0 {
            return Ok(false);
        }
        self.reads += 1;
        self.compact();
        self.bytes.extend_from_slice(&chunk[..count])?;
        Ok(true)
    }

    /// Reads until the bytes begin with a whole head, or with none whatever follows.
    pub fn read_head<R: Read, W: Write>(
        &mut self,
        reader: &mut Counted<R>,
        writer: &mut Counted<W>,
        queue: &mut OutputBuffer,
    ) -> Result<NextHead, DeskFault>
        ensures takes { TakesIn (streams R.remaining W.contents reader.old reader.new writer.old writer.new)
            self.old self.new result }
        ensures found { IfOk result (IsNextHead (R.remaining (inner_of reader.new)) (unread self.new)) }
        ensures gathered { Enqueues result (writing W.contents writer.old writer.new) queue.old.items queue.new.items }
    {
        'head: loop {
            match parse_head(self.unread()) {
                HeadParse::Whole(spans, Ok(plan)) => return Ok(NextHead::Whole(spans, plan)),
                HeadParse::Whole(spans, Err(refusal)) => {
                    let head_only = is_head_method(spans.method.of(self.unread()));
                    return Ok(NextHead::Refused(refusal, head_only));
                }
                HeadParse::Nothing => return Ok(NextHead::Refused(Refusal::Head, false)),
                HeadParse::More => {}
            }
            if !self.fill(reader, writer, queue)? {
                if is_blank_rest(self.unread()) {
                    return Ok(NextHead::Quiet);
                }
                return Ok(NextHead::Refused(Refusal::Head, false));
            }
        }
    }

    /// Reads until there are `count` bytes. Returns `false` if the input ends before.
    pub fn read_body<R: Read, W: Write>(
        &mut self,
        reader: &mut Counted<R>,
        writer: &mut Counted<W>,
        queue: &mut OutputBuffer,
        end: usize,
    ) -> Result<bool, DeskFault>
        ensures takes { TakesIn (streams R.remaining W.contents reader.old reader.new writer.old writer.new)
            self.old self.new result }
        ensures grown { OnOk result ((bytes : List ℕ) × (unread self.new ≡ unread self.old ++ bytes)) }
        ensures enough { IfOk result (λ enough. enough ≡ true → end ≤ length (unread self.new)) }
        ensures ended { IfOk result (λ enough. enough ≡ false → (length (unread self.new) < end)
            × IsAtEnd (R.remaining (inner_of reader.new))) }
        ensures gathered { Enqueues result (writing W.contents writer.old writer.new) queue.old.items queue.new.items }
    {
        'body: while self.unread().len() < end {
            if !self.fill(reader, writer, queue)? {
                return Ok(false);
            }
        }
        Ok(true)
    }

    /// Takes the bytes before `end`.
    pub fn consume(&mut self, end: usize)
        requires { end ≤ length (unread self.old) }
        ensures held { unread self.new ≡ drop end (unread self.old) }
        ensures len { length (unread self.new) + end ≡ length (unread self.old) }
        ensures reads { self.new.reads ≡ self.old.reads }
    {
        self.start += end;
    }
}
