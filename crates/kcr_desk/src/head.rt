//! Heads: whether bytes begin with one, and what its fields ask for (RFC 9112 and RFC 9110, in the part that
//! `specs/Stream` and `specs/Plans` state).
ghost use Rattle.std.specs.Prelude.{◌≡◌, ◌≤◌, ◌↔◌, true, false, length, take, map, All, IfErr, IfOk, IsTrue, codes, not, min, if◌then◌else◌};
ghost use Rattle.httparse.specs.Spans.{header_bytes, IsHeaderWithin};
ghost use Rattle.std.specs.Str.Parse.{digits_value};
ghost use Rattle.kcr_history.specs.Refusals.{carries};
ghost use Rattle.kcr_desk.specs.{Members.some_has_member, BlankRest.blank_from, Stream.IsBlankRest, Heads.IsHeadParse};
ghost use Rattle.kcr_desk.specs.Framing.{planned, is_head, is_named, is_number, values_of, IsNamed, is_hosted, length_in, bounded_length, is_empty};

use crate::members::has_member;
use httparse::Status;
use httparse::spans::{EMPTY_HEADER_SPAN, HeaderSpan, RequestSpans, Span, parse_request};
use kcr_base::Refusal;

/// What a head asks for.
#[derive(Clone, Copy)]
pub struct Framing {
    /// The body's length in bytes (RFC 9112, section 6.2), at most 131,072.
    pub length: usize,
    /// Nothing more is answered after this message: it is HTTP/1.0, or Connection has the member `close` (RFC 9112,
    /// section 9.6).
    pub closes: bool,
    /// `100 Continue` goes out before the body is read (RFC 9110, section 10.1.1).
    pub expects_continue: bool,
}

/// The values of the fields of one name.
#[derive(Clone, Copy)]
pub(crate) enum FieldValues {
    Absent,
    One(Span),
    Many,
}

/// Whether a field has this name, in any case.
fn is_named(buf: &[u8], header: HeaderSpan, name: &[u8]) -> bool
    requires { IsHeaderWithin (length buf.now) header }
    ensures { result ≡ is_named name.now (header_bytes buf.now header) }
{
    header.name.of(buf).eq_ignore_ascii_case(name)
}

/// The values of the fields of this name.
fn field_values(buf: &[u8], headers: &[HeaderSpan], name: &[u8]) -> FieldValues
    requires { All (IsHeaderWithin (length buf.now)) headers.now }
    ensures { IsNamed buf.now (values_of name.now (map (header_bytes buf.now) headers.now)) result }
{
    let mut found = FieldValues::Absent;
    for header in headers {
        if is_named(buf, *header, name) {
            match found {
                FieldValues::Absent => found = FieldValues::One(header.value),
                _ => return FieldValues::Many,
            }
        }
    }
    found
}

/// The number that digits write, up to a bound, and nothing if they are none.
fn number(digits: &[u8]) -> Option<usize>
    ensures { result ≡ if is_number digits.now then Some (min (digits_value 10 digits.now) 131073) else None }
{
    if digits.is_empty() {
        return None;
    }
    let mut number = 0usize;
    for digit in digits {
        if !digit.is_ascii_digit() {
            return None;
        }
        number = (number * 10 + (*digit - b'0') as usize).min(MAX_BODY + 1);
    }
    Some(number)
}

/// Whether the Host fields are as many as the version wants: one in HTTP/1.1, at most one in HTTP/1.0 (RFC 9112,
/// section 3.2).
fn has_host(version: u8, buf: &[u8], headers: &[HeaderSpan]) -> bool
    requires { All (IsHeaderWithin (length buf.now)) headers.now }
    ensures { result ≡ is_hosted version (values_of (codes "host") (map (header_bytes buf.now) headers.now)) }
{
    match field_values(buf, headers, b"host") {
        FieldValues::Absent => version == 0,
        FieldValues::One(_) => true,
        FieldValues::Many => false,
    }
}

/// The body's length, up to a bound, and nothing if it is not stated in one number.
fn body_length(buf: &[u8], headers: &[HeaderSpan]) -> Option<usize>
    requires { All (IsHeaderWithin (length buf.now)) headers.now }
    ensures { result ≡ bounded_length
        (length_in (values_of (codes "content-length") (map (header_bytes buf.now) headers.now))) }
{
    match field_values(buf, headers, b"content-length") {
        FieldValues::Absent => Some(0),
        FieldValues::One(span) => number(span.of(buf)),
        FieldValues::Many => None,
    }
}

/// Whether a coding is named.
fn has_coding(buf: &[u8], headers: &[HeaderSpan]) -> bool
    requires { All (IsHeaderWithin (length buf.now)) headers.now }
    ensures { result ≡ not (is_empty (values_of (codes "transfer-encoding") (map (header_bytes buf.now) headers.now))) }
{
    match field_values(buf, headers, b"transfer-encoding") {
        FieldValues::Absent => false,
        FieldValues::One(_) | FieldValues::Many => true,
    }
}

/// Whether a field of this name has this member.
fn some_has_member(buf: &[u8], headers: &[HeaderSpan], name: &[u8], text: &[u8]) -> bool
    requires { All (IsHeaderWithin (length buf.now)) headers.now }
    ensures { result ≡ some_has_member text.now (values_of name.now (map (header_bytes buf.now) headers.now)) }
{
    for header in headers {
        if is_named(buf, *header, name) && has_member(header.value.of(buf), text) {
            return true;
        }
    }
    false
}

/// What the fields ask for, or the refusal of the first test that fails: Host, Content-Length, Transfer-Encoding, and
/// a body that is too long.
#[tactic(auto, using(crate::proofs::PlanLemmas::planned_bounded))]
pub(crate) fn read_framing(
    version: u8,
    buf: &[u8],
    headers: &[HeaderSpan],
) -> Result<Framing, Refusal>
    requires { All (IsHeaderWithin (length buf.now)) headers.now }
    ensures value { result ≡ planned version (map (header_bytes buf.now) headers.now) }
    ensures short { IfOk result (λ plan. plan.length ≤ MAX_BODY) }
    ensures plain { IfErr result (λ refusal. carries refusal ≡ false) }
{
    if !has_host(version, buf, headers) {
        return Err(Refusal::Host);
    }
    let Some(length) = body_length(buf, headers) else {
        return Err(Refusal::Length);
    };
    if has_coding(buf, headers) {
        return Err(Refusal::Coding);
    }
    if length > MAX_BODY {
        return Err(Refusal::Large);
    }
    let closing = some_has_member(buf, headers, b"connection", b"close");
    let expecting = some_has_member(buf, headers, b"expect", b"100-continue");
    Ok(Framing {
        length,
        closes: (version == 0) | closing,
        expects_continue: (version == 1) & (length > 0) & expecting,
    })
}

/// The most bytes of a body.
pub const MAX_BODY: usize = 131_072;

/// The most bytes of a head, and of a rest of empty lines.
pub const MAX_HEAD: usize = 8192;

/// What the bytes at the front of a stream are.
#[derive(Clone, Copy)]
pub(crate) enum HeadParse {
    /// A whole head, and what it asks for or the refusal of its first test that fails.
    Whole(RequestSpans, Result<Framing, Refusal>),
    /// No whole head.
    More,
    /// No whole head, whatever follows.
    Nothing,
}

/// Whether the method is HEAD, to which an answer has no body.
#[tactic(auto, unfolding(crate::specs::Framing::is_head))]
pub(crate) fn is_head_method(method: &[u8]) -> bool
    ensures { result ≡ is_head method.now }
{
    method == b"HEAD".as_slice()
}

/// Whether the bytes are whole empty lines.
fn is_blank(bytes: &[u8]) -> bool
    ensures { result ≡ blank_from false bytes.now }
{
    let mut after_cr = false;
    for byte in bytes {
        if *byte == b'\n' {
            after_cr = false;
        } else if *byte == b'\r' && !after_cr {
            after_cr = true;
        } else {
            return false;
        }
    }
    !after_cr
}

/// Whether this is a rest that gets no answer.
pub(crate) fn is_blank_rest(bytes: &[u8]) -> bool
    ensures { IsTrue result ↔ IsBlankRest bytes.now }
{
    bytes.len() <= MAX_HEAD && is_blank(bytes)
}

/// The bytes that a head may have.
fn head_window(buf: &[u8]) -> &[u8]
    ensures { result.now ≡ take MAX_HEAD buf.now }
{
    if buf.len() < MAX_HEAD {
        buf
    } else {
        &buf[..MAX_HEAD]
    }
}

/// What the bytes at the front of a stream are. It does not depend on what follows them.
pub(crate) fn parse_head(buf: &[u8]) -> HeadParse
    ensures { IsHeadParse buf.now result }
{
    let front = head_window(buf);
    let mut headers = [EMPTY_HEADER_SPAN; 64];
    match parse_request(front, &mut headers) {
        Ok(Status::Complete(spans)) => {
            HeadParse::Whole(
                spans,
                read_framing(spans.version, front, &headers[..spans.headers]),
            )
        }
        Err(_) => HeadParse::Nothing,
        Ok(Status::Partial) => {
            if is_blank_rest(buf) || buf.len() < MAX_HEAD {
                HeadParse::More
            } else {
                HeadParse::Nothing
            }
        }
    }
}
