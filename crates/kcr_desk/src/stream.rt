//! Streams of messages.
ghost use Rattle.std.specs.Prelude.{◌≡◌, ◌++◌, ◌+◌, ◌<◌, ◌≤◌, ◌⊎◌, OnErr, IsErrOf, MatchResult};
ghost use Rattle.kcr_base.specs.Counted.{failures_of, nonempty_reads_of};
ghost use Rattle.kcr_desk.specs.{Connections.Ends, Framing.is_head, Texts.ResponseValue, Texts.answer};
ghost use Rattle.kcr_desk.specs.{Input.TakesIn, Input.unread, Output.Queues, Stream.Message};
ghost use Rattle.kcr_desk.specs.{NextHead.IsReady, NextHead.HasFraming, NextItem.EndsItem, NextItem.request_of_buffer};
ghost use Rattle.kcr_desk.specs.Streams.{WritesPart, WritesText, streams, writing};

use crate::fault::DeskFault;
use crate::head::{Framing, is_head_method};
use crate::input_buffer::{InputBuffer, NextHead};
use crate::output::flush;
use crate::output_buffer::OutputBuffer;
use crate::responder::{Request, Responder};
use crate::response::{enqueue_continue, enqueue_refusal, enqueue_response};
use httparse::spans::RequestSpans;
use kcr_base::{Counted, Refusal};
use kcr_wire::RouteTable;
use std::alloc::Global;
use std::io::{Read, Write};

/// A stream that was answered whole: to its end, or to a message or a faulty item that closes it.
#[derive(Clone, Copy)]
pub struct Served {
    /// How many whole messages were answered. One that closes is counted, a faulty item is not.
    pub requests: u64,
}

/// What stands next in a stream.
#[derive(Clone, Copy)]
pub(crate) enum NextItem {
    /// A whole message, which is to be answered.
    Message(RequestSpans, Framing),
    /// The end, which was answered.
    Ended,
}

/// Takes in the body behind the head of a message, or answers that the input ends inside it.
fn read_message<R: Read, W: Write>(
    intake: &mut InputBuffer,
    reader: &mut Counted<R>,
    writer: &mut Counted<W>,
    queue: &mut OutputBuffer,
    spans: RequestSpans,
    plan: Framing,
) -> Result<NextItem, DeskFault>
    requires { HasFraming (unread intake.old) spans plan }
    ensures turn { EndsItem (streams R.remaining W.contents reader.old reader.new writer.old writer.new)
        intake.old intake.new queue.old.items queue.new.items result }
    ensures takes { TakesIn (streams R.remaining W.contents reader.old reader.new writer.old writer.new)
        intake.old intake.new result }
{
    enqueue_continue(writer, queue, plan)?;
    if intake.read_body(reader, writer, queue, spans.len + plan.length)? {
        return Ok(NextItem::Message(spans, plan));
    }
    let head_only = is_head_method(spans.method.of(intake.unread()));
    enqueue_refusal(writer, queue, Refusal::Cut, head_only)?;
    Ok(NextItem::Ended)
}

/// Takes in the next message, or answers the end of the stream.
fn next_item<R: Read, W: Write>(
    intake: &mut InputBuffer,
    reader: &mut Counted<R>,
    writer: &mut Counted<W>,
    queue: &mut OutputBuffer,
) -> Result<NextItem, DeskFault>
    ensures turn { EndsItem (streams R.remaining W.contents reader.old reader.new writer.old writer.new)
        intake.old intake.new queue.old.items queue.new.items result }
    ensures takes { TakesIn (streams R.remaining W.contents reader.old reader.new writer.old writer.new)
        intake.old intake.new result }
{
    match intake.read_head(reader, writer, queue)? {
        NextHead::Quiet => Ok(NextItem::Ended),
        NextHead::Refused(refusal, head_only) => {
            enqueue_refusal(writer, queue, refusal, head_only)?;
            Ok(NextItem::Ended)
        }
        NextHead::Whole(spans, plan) => read_message(intake, reader, writer, queue, spans, plan),
    }
}

/// Has the message at the front answered.
fn answer_front<W: Write, G: Responder>(
    intake: &InputBuffer,
    writer: &mut Counted<W>,
    queue: &mut OutputBuffer,
    responder: &mut G,
    alloc: Global,
    paths: &mut Option<RouteTable>,
    spans: RequestSpans,
    plan: Framing,
) -> Result<(), DeskFault>
    requires { IsReady (unread intake.now) spans plan }
    ensures answered { (reply : ResponseValue)
        × G.step responder.old (request_of_buffer (unread intake.now) spans plan) reply responder.new
        × Queues (writing W.contents writer.old writer.new) (queue.old.items
        ++ answer (is_head (request_of_buffer (unread intake.now) spans plan).method) plan.closes reply)
        queue.new.items result }
{
    let buffer = intake.unread();
    let asked = Request {
        method: spans.method.of(buffer),
        target: spans.path.of(buffer),
        body: &buffer[spans.len..spans.len + plan.length],
    };
    let reply = responder.respond(alloc, paths, &asked);
    let head_only = is_head_method(asked.method);
    enqueue_response(writer, queue, &reply, head_only, plan.closes)
}

/// Writes what waits at the end of a stream.
fn finish<W: Write>(
    writer: &mut Counted<W>,
    queue: &mut OutputBuffer,
    requests: u64,
) -> Result<Served, DeskFault>
    ensures ended { MatchResult result
        (λ served. (served.requests ≡ requests) × WritesText (writing W.contents writer.old writer.new) queue.old.items)
        (λ _. WritesPart (writing W.contents writer.old writer.new) queue.old.items) }
    ensures fault { OnErr result ((result ≡ Err DeskFault.Write) × (failures_of writer.old < failures_of writer.new)) }
{
    flush(writer, queue)?;
    Ok(Served { requests })
}

/// Answers a stream of messages, until it ends, or a message or a faulty item closes it. Answers wait for one another
/// as long as the bytes that were read have the next message whole.
pub(crate) fn serve_stream<R: Read, W: Write, G: Responder>(
    alloc: Global,
    reader: &mut Counted<R>,
    writer: &mut Counted<W>,
    responder: &mut G,
) -> Result<Served, DeskFault>
    // The bytes written are those that the messages of the bytes read ask for, by a run of the machine. After a fault
    // they are a prefix of those, and the register stands after the commands that it took.
    ensures served { Ends G.step (streams R.remaining W.contents reader.old reader.new writer.old writer.new)
        responder.old responder.new result }
    ensures read_fault { IsErrOf result DeskFault.Read
        → (failures_of reader.old < failures_of reader.new) ⊎ (nonempty_reads_of reader.new ≡ nonempty_reads_of reader.old + 1000000) }
    ensures write_fault { IsErrOf result DeskFault.Write → failures_of writer.old < failures_of writer.new }
    ensures bound { nonempty_reads_of reader.new ≤ nonempty_reads_of reader.old + 1000000 }
{
    let mut intake = InputBuffer::new(alloc);
    let mut queue = OutputBuffer::new();
    let mut paths = None;
    let mut requests = 0;
    'messages: loop {
        match next_item(&mut intake, reader, writer, &mut queue)? {
            NextItem::Ended => return finish(writer, &mut queue, requests),
            NextItem::Message(spans, plan) => {
                answer_front(
                    &intake, writer, &mut queue, responder, alloc, &mut paths, spans, plan,
                )?;
                requests += 1;
                if plan.closes {
                    return finish(writer, &mut queue, requests);
                }
                intake.consume(spans.len + plan.length);
            }
        }
    }
}
