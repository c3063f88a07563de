//! Replies, and the bytes of an answer.
ghost use Rattle.std.specs.Prelude.{◌≡◌, ◌≤◌, ◌+◌, ◌++◌, length, codes, false, true};
ghost use Rattle.std.specs.Fmt.{decimal};
ghost use Rattle.arrayvec.specs.ArrayVec.{array_vec_len};
ghost use Rattle.kcr_base.specs.Refusal.{status_of};
ghost use Rattle.kcr_history.specs.Refusals.{carries};
ghost use Rattle.kcr_desk.specs.Texts.{phrase_of, kind_text, line, field, allow_line, close_text, head_text};
ghost use Rattle.kcr_desk.specs.Texts.{shown_text, answer, continue_text, fault_response};
ghost use Rattle.kcr_desk.specs.Responses.{body_bytes, response_value};
ghost use Rattle.kcr_desk.specs.{Output.Queues, Streams.writing, declared.response.MediaType.TheVariants.Json};

use crate::fault::DeskFault;
use crate::head::Framing;
use crate::output::{enqueue, reserve};
use crate::output_buffer::{OUTPUT_BUFFER_SIZE, OutputBuffer, add};
use http::StatusCode;
use itoa::Buffer;
use kcr_base::{Counted, Refusal, Text};
use kcr_history::{FixedText, fixed_text};
use kcr_wire::Allow;
use std::io::Write;

/// What a body is: JSON, a plain text or a table of comma separated values, both in UTF-8.
#[derive(Clone, Copy)]
pub enum MediaType {
    Json,
    Text,
    Csv,
}

/// What the head of an answer tells of the reply: its status, what its body is, and for 405 the methods that the path
/// answers.
#[derive(Clone, Copy)]
pub struct Heading {
    pub status: StatusCode,
    pub kind: MediaType,
    pub allow: Option<Allow>,
}

/// The body of a reply.
#[derive(Drop)]
pub enum Body {
    /// A text that was made in memory.
    Made(Text),
    /// A report that was printed into memory.
    Printed(Vec<u8>),
    /// The text of a refusal, which takes no memory.
    Fixed(FixedText),
}

impl Body {
    /// Its bytes.
    fn bytes(&self) -> &[u8]
        ensures { result.now ≡ body_bytes self.now }
    {
        match self {
            Body::Made(text) => text.as_bytes(),
            Body::Printed(bytes) => bytes.as_slice(),
            Body::Fixed(text) => text.as_bytes(),
        }
    }
}

/// What a message is told.
#[derive(Drop)]
pub struct Response {
    pub heading: Heading,
    pub body: Body,
}

/// The phrase of a status, as the `http` crate has it, and nothing if it has none.
#[tactic(auto, unfolding(crate::specs::Texts::phrase_of))]
fn phrase(status: StatusCode) -> &'static str
    ensures { result.now ≡ phrase_of status }
{
    status.canonical_reason().unwrap_or("")
}

/// The media type of a body.
fn media_type_text(kind: MediaType) -> &'static str
    ensures text { result.now ≡ kind_text kind }
    ensures short { length result.now ≤ 25 }
{
    match kind {
        MediaType::Json => "application/json",
        MediaType::Text => "text/plain; charset=utf-8",
        MediaType::Csv => "text/csv; charset=utf-8",
    }
}

/// Adds the status line.
#[tactic(auto, using(crate::proofs::PhraseLemmas::phrase_short))]
fn add_status(page: &mut OutputBuffer, status: StatusCode)
    requires { array_vec_len page.old + 48 ≤ OUTPUT_BUFFER_SIZE }
    ensures items { page.new.items ≡ page.old.items
        ++ line (codes "HTTP/1.1 " ++ decimal status ++ codes " " ++ phrase_of status) }
    ensures len { array_vec_len page.new ≤ array_vec_len page.old + 48 }
{
    add(page, b"HTTP/1.1 ");
    add(page, Buffer::new().format(status.as_u16()).as_bytes());
    add(page, b" ");
    add(page, phrase(status).as_bytes());
    add(page, b"\r\n");
}

/// Adds the line `name: value`.
fn add_field(page: &mut OutputBuffer, name: &str, value: &str)
    requires { array_vec_len page.old + length name.now + length value.now + 4 ≤ OUTPUT_BUFFER_SIZE }
    ensures items { page.new.items ≡ page.old.items ++ field name.now value.now }
    ensures len { array_vec_len page.new ≡ array_vec_len page.old + length name.now + length value.now + 4 }
{
    add(page, name.as_bytes());
    add(page, b": ");
    add(page, value.as_bytes());
    add(page, b"\r\n");
}

/// Adds the `allow` line of a 405.
fn add_allow(page: &mut OutputBuffer, allow: Option<Allow>)
    requires { array_vec_len page.old + 24 ≤ OUTPUT_BUFFER_SIZE }
    ensures items { page.new.items ≡ page.old.items ++ allow_line allow }
    ensures len { array_vec_len page.new ≤ array_vec_len page.old + 24 }
{
    if let Some(allow) = allow {
        add_field(page, "allow", allow.text());
    }
}

/// Adds the line that says that nothing more is answered.
fn add_close(page: &mut OutputBuffer, closes: bool)
    requires { array_vec_len page.old + 19 ≤ OUTPUT_BUFFER_SIZE }
    ensures items { page.new.items ≡ page.old.items ++ close_text closes }
    ensures len { array_vec_len page.new ≤ array_vec_len page.old + 19 }
{
    if closes {
        add_field(page, "connection", "close");
    }
}

/// The most bytes of the head of an answer.
const MAX_RESPONSE_HEAD: usize = 256;

/// Adds the head of an answer whose body has this many bytes.
#[tactic(auto, unfolding(crate::specs::Texts::head_text))]
fn add_head(page: &mut OutputBuffer, heading: Heading, length: usize, closes: bool)
    requires { array_vec_len page.old + MAX_RESPONSE_HEAD ≤ OUTPUT_BUFFER_SIZE }
    ensures { page.new.items ≡ page.old.items ++ head_text closes heading length }
{
    add_status(page, heading.status);
    add_field(page, "content-type", media_type_text(heading.kind));
    add_field(page, "content-length", Buffer::new().format(length));
    add_allow(page, heading.allow);
    add_close(page, closes);
    add(page, b"\r\n");
}

/// The status of a refusal.
fn refusal_status(refusal: &Refusal) -> StatusCode
    ensures { result ≡ status_of refusal.now }
{
    match StatusCode::from_u16(refusal.status()) {
        Ok(status) => status,
        Err(_) => unreachable!(),
    }
}

/// What the head of a refusal's answer tells.
pub(crate) fn refusal_heading(refusal: &Refusal, allow: Option<Allow>) -> Heading
    ensures { result ≡ record { status = status_of refusal.now; kind = Json; allow = allow } }
{
    Heading {
        status: refusal_status(refusal),
        kind: MediaType::Json,
        allow,
    }
}

/// What is written of a body: nothing of it in the answer to a HEAD.
fn sent_body(head_only: bool, body: &[u8]) -> &[u8]
    ensures { result.now ≡ shown_text head_only body.now }
{
    if head_only { &body[..0] } else { body }
}

/// Has an answer wait, without its body if it is bare. Its head is made in the page itself.
#[tactic(auto, using(kcr_print::proofs::WrittenLemmas::front_longer))]
pub(crate) fn enqueue_response<W: Write>(
    writer: &mut Counted<W>,
    queue: &mut OutputBuffer,
    reply: &Response,
    head_only: bool,
    closes: bool,
) -> Result<(), DeskFault>
    ensures { Queues (writing W.contents writer.old writer.new)
        (queue.old.items ++ answer head_only closes (response_value reply.now)) queue.new.items result }
{
    let body = reply.body.bytes();
    reserve(writer, queue, MAX_RESPONSE_HEAD)?;
    add_head(queue, reply.heading, body.len(), closes);
    enqueue(writer, queue, sent_body(head_only, body))
}

/// Has the answer to a faulty item wait, whose refusal carries nothing. The stream is closed after it.
pub(crate) fn enqueue_refusal<W: Write>(
    writer: &mut Counted<W>,
    queue: &mut OutputBuffer,
    refusal: Refusal,
    head_only: bool,
) -> Result<(), DeskFault>
    requires { carries refusal ≡ false }
    ensures { Queues (writing W.contents writer.old writer.new)
        (queue.old.items ++ answer head_only true (fault_response refusal)) queue.new.items result }
{
    let Some(text) = fixed_text(&refusal) else {
        unreachable!()
    };
    let reply = Response {
        heading: refusal_heading(&refusal, None),
        body: Body::Fixed(text),
    };
    enqueue_response(writer, queue, &reply, head_only, true)
}

/// `100 Continue`, if a head waits for it, and nothing elsewhere.
fn continue_lines(plan: Framing) -> &'static [u8]
    ensures { result.now ≡ continue_text plan }
{
    if plan.expects_continue {
        b"HTTP/1.1 100 Continue\r\n\r\n"
    } else {
        b""
    }
}

/// Has `100 Continue` wait if a head waits for it.
pub(crate) fn enqueue_continue<W: Write>(
    writer: &mut Counted<W>,
    queue: &mut OutputBuffer,
    plan: Framing,
) -> Result<(), DeskFault>
    ensures { Queues (writing W.contents writer.old writer.new)
        (queue.old.items ++ continue_text plan) queue.new.items result }
{
    enqueue(writer, queue, continue_lines(plan))
}
