//! The desk over a register.
ghost use Rattle.std.specs.Prelude.{◌+◌, ◌≤◌, IfErr};
ghost use Rattle.kcr_store.specs.{Calls.Leads, Calls.RowsLead, Register.IsConsistent};
ghost use Rattle.sqlite.specs.{Held.state, State.HasCleanDisk};
ghost use Rattle.kcr_base.specs.Counted.{nonempty_reads_of};
ghost use Rattle.kcr_desk.specs.{Answers.IsAnswer, Answers.IsAnswerByRows, Answers.IsReply, Connections.Ends, Streams.BreaksStream, Streams.streams};

use crate::fault::DeskFault;
use crate::stream::{Served, serve_stream};
use kcr_base::Counted;
use kcr_store::Register;
use sqlite::Alter;
use std::alloc::Global;
use std::io::{Read, Write};

/// Answers a stream of messages by a register, until the stream ends or a message closes it. Answers may go out
/// together; each is written before another read is made.
///
/// Refusals are answers. `Read` comes if a read failed or 1,000,000 reads gave a byte, `Write` if a write failed,
/// `Memory` if the bytes of a message found no room. What was written then is a prefix of the answers, the
/// register stands after the commands that it took, and another stream may be served.
pub fn serve<R: Read, W: Write, S: Alter>(
    alloc: Global,
    reader: &mut Counted<R>,
    writer: &mut Counted<W>,
    register: &mut Register<S>,
) -> Result<Served, DeskFault>
    // The bytes written are exactly the answers of the messages of the input, by a run of the machine. After a fault
    // they are a prefix of those, and the register stands after the commands that it took.
    ensures answered { Leads S.Store register.old register.new (λ s after.
        Ends IsAnswer (streams R.remaining W.contents reader.old reader.new writer.old writer.new) s after result) }

    // Whatever rows the register showed, whoever wrote them: the bytes are the answers of a run over these rows. They
    // decide each command, and each question is shown what they show.
    ensures by_rows { RowsLead S.Store register.old register.new (λ t after.
        Ends IsAnswerByRows (streams R.remaining W.contents reader.old reader.new writer.old writer.new) t after result) }

    // Whatever the database held and whatever its disk does, each message gets one answer, in their order, and it is a
    // reply to it. After a fault a prefix of such replies was written.
    ensures replied { Ends IsReply (streams R.remaining W.contents reader.old reader.new writer.old writer.new)
        register.old.is_broken register.new.is_broken result }

    // The register is outside of a transaction. A disk that is clean at the end was so at the beginning.
    ensures kept { IsConsistent S.Store register.new }
    ensures clean { HasCleanDisk (state S.Store register.new.conn) → HasCleanDisk (state S.Store register.old.conn) }

    // The fault is `Read` only if a read failed or 1,000,000 reads gave a byte, and `Write` only if a write failed.
    ensures cause { IfErr result (BreaksStream
        (streams R.remaining W.contents reader.old reader.new writer.old writer.new)) }
    ensures bound { nonempty_reads_of reader.new ≤ nonempty_reads_of reader.old + 1000000 }
{
    let result = serve_stream(alloc, reader, writer, register);
    // Any use of a register tells that it is whole, also of one that no message reached.
    let _ = register.is_broken();
    result
}
