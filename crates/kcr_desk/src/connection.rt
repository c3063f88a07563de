//! One connection.
ghost use Rattle.std.specs.Prelude.{◌≡◌, ◌+◌, ◌≤◌, IfErr};
ghost use Rattle.kcr_store.specs.{Calls.Leads as Moves, Calls.RowsLead, Register.IsConsistent};
ghost use Rattle.kcr_base.specs.Counted.{nonempty_reads_of};
ghost use Rattle.kcr_desk.specs.Answers.{IsAnswer, IsAnswerByRows, IsReply};
ghost use Rattle.kcr_desk.specs.{Connections.Connects, Connections.Ends, Streams.BreaksStream, Streams.streams};

use crate::desk::serve;
use crate::fault::DeskFault;
use crate::stream::Served;
use kcr_base::Counted;
use kcr_store::Register;
use sqlite::Alter;
use std::alloc::Global;
use std::io::{Read, Write};

/// How a connection ended.
#[derive(Clone, Copy)]
pub struct Ended {
    /// Its stream was answered whole, or a fault ended it. A fault ends this connection only.
    pub stream: Result<Served, DeskFault>,
    /// The register is broken: it would answer 35 to each request of another connection.
    pub is_broken: bool,
}

/// Serves one connection to its end: answers its stream of messages by a register, as `serve` does, and tests whether
/// the register is broken afterwards.
pub fn one<R: Read, W: Write, S: Alter>(
    alloc: Global,
    reader: &mut Counted<R>,
    writer: &mut Counted<W>,
    register: &mut Register<S>,
) -> Ended
    // The bytes written are the answers of the messages of the input, by a run of the machine, or a prefix of them
    // after a fault. The register has the commands of this run and no other.
    ensures answered { Moves S.Store register.old register.new (λ s after.
        Ends IsAnswer (streams R.remaining W.contents reader.old reader.new writer.old writer.new) s after result.stream) }

    // Whatever rows the register showed, they are the answers of a run over these rows, or a prefix of them.
    ensures by_rows { RowsLead S.Store register.old register.new (λ t after.
        Ends IsAnswerByRows (streams R.remaining W.contents reader.old reader.new writer.old writer.new) t after result.stream) }

    // Whatever the database held, each message gets one reply, in their order.
    ensures replied { Ends IsReply (streams R.remaining W.contents reader.old reader.new writer.old writer.new)
        register.old.is_broken register.new.is_broken result.stream }

    // The stream ends by `Read` only if a read failed or 1,000,000 reads gave a byte, and by `Write` only if a write
    // failed.
    ensures cause { IfErr result.stream (BreaksStream
        (streams R.remaining W.contents reader.old reader.new writer.old writer.new)) }
    ensures bound { nonempty_reads_of reader.new ≤ nonempty_reads_of reader.old + 1000000 }
    ensures broken { result.is_broken ≡ register.new.is_broken }
    ensures connects { Connects S.Store register.old register.new 1 }
    ensures kept { IsConsistent S.Store register.new }
{
    let stream = serve(alloc, reader, writer, register);
    Ended {
        stream,
        is_broken: register.is_broken(),
    }
}
