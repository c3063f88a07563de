//! Answers wait in a page and go out together: before more is read, at the end, and if the page is full.
ghost use Rattle.std.specs.Prelude.{◌≡◌, ◌≤◌, ◌+◌, ◌++◌, [], OnOk};
ghost use Rattle.arrayvec.specs.ArrayVec.{array_vec_len};
ghost use Rattle.kcr_desk.specs.{Output.Puts, Output.Queues, Streams.writing};

use crate::fault::DeskFault;
use crate::output_buffer::{OUTPUT_BUFFER_SIZE, OutputBuffer, add};
use kcr_base::Counted;
use std::io::Write;

/// Writes the whole piece. After a fault a prefix of it was written.
fn put<W: Write>(writer: &mut Counted<W>, piece: &[u8]) -> Result<(), DeskFault>
    ensures { Puts (writing W.contents writer.old writer.new) piece.now result }
{
    kcr_print::write_whole(writer, piece)?;
    Ok(())
}

/// Writes all that waits, in one write if the writer takes it whole, and makes none if nothing waits.
pub(crate) fn flush<W: Write>(
    writer: &mut Counted<W>,
    queue: &mut OutputBuffer,
) -> Result<(), DeskFault>
    ensures written { Puts (writing W.contents writer.old writer.new) queue.old.items result }
    ensures sent { OnOk result (queue.new.items ≡ []) }
{
    put(writer, queue.as_slice())?;
    queue.clear();
    Ok(())
}

/// Makes room in the page for this many bytes: if there is none, the buffered answers are written.
pub(crate) fn reserve<W: Write>(
    writer: &mut Counted<W>,
    queue: &mut OutputBuffer,
    length: usize,
) -> Result<(), DeskFault>
    requires { length ≤ OUTPUT_BUFFER_SIZE }
    ensures queued { Queues (writing W.contents writer.old writer.new) queue.old.items queue.new.items result }
    ensures room { OnOk result (array_vec_len queue.new + length ≤ OUTPUT_BUFFER_SIZE) }
{
    if length > OUTPUT_BUFFER_SIZE - queue.len() {
        flush(writer, queue)?;
    }
    Ok(())
}

/// Has a piece wait behind what waits. One that is longer than the page is written by itself, behind what waited.
#[tactic(auto, using(kcr_print::proofs::WrittenLemmas::front_longer))]
pub(crate) fn enqueue<W: Write>(
    writer: &mut Counted<W>,
    queue: &mut OutputBuffer,
    piece: &[u8],
) -> Result<(), DeskFault>
    ensures { Queues (writing W.contents writer.old writer.new) (queue.old.items ++ piece.now) queue.new.items result }
{
    if piece.len() > OUTPUT_BUFFER_SIZE {
        flush(writer, queue)?;
        return put(writer, piece);
    }
    reserve(writer, queue, piece.len())?;
    add(queue, piece);
    Ok(())
}
