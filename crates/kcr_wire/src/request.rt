//! A command's whole request.
ghost use Rattle.std.specs.Prelude.{◌≡◌, IfOk, string_bytes};
ghost use Rattle.kcr_wire.specs.Requests.{head_text, request_text};

use crate::body_text::write_body;
use itoa::Buffer;
use kcr_history::{Command, path_text};
use std::alloc::{AllocError, Global};

/// The request line and the fields, to the empty line.
fn with_head(alloc: Global, path: &str, size: usize) -> Result<String, AllocError>
    ensures { IfOk result (λ text. string_bytes text ≡ head_text path.now size) }
{
    let mut number = Buffer::new();
    let mut text = String::from_str(alloc, "POST ")?;
    text.push_str(path)?;
    text.push_str(" HTTP/1.1\r\nHost: l\r\nContent-Length: ")?;
    text.push_str(number.format(size))?;
    text.push_str("\r\n\r\n")?;
    Ok(text)
}

/// The request that a command is, as a client sends it over HTTP/1.1: its head with the fields `Host` and
/// `Content-Length`, and its body. The error is out of memory.
#[tactic(auto, unfolding(crate::specs::Requests::request_text))]
pub fn write_request(alloc: Global, command: &Command) -> Result<String, AllocError>
    ensures { IfOk result (λ text. string_bytes text ≡ request_text command.now) }
{
    let body = write_body(alloc, command)?;
    let path = path_text(alloc, &command.act)?;
    let mut text = with_head(alloc, path.as_str(), body.len())?;
    text.push_str(body.as_str())?;
    Ok(text)
}
