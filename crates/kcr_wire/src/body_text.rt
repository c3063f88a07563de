//! The body of a command's request.
ghost use Rattle.std.specs.Prelude.{◌≡◌, ◌++◌, IfOk, codes, string_bytes};
ghost use Rattle.serde_json.specs.{Data.string, Written.compact_text};
ghost use Rattle.kcr_wire.specs.Bodies.{body_text};

use crate::body_members::{BodyText, text_value};
use kcr_history::{Command, tell};
use std::alloc::{AllocError, Global};

/// The front of a body: an object's bracket, and the key.
fn with_key(alloc: Global, key: &str) -> Result<String, AllocError>
    ensures { IfOk result (λ text.
        string_bytes text ≡ codes "{\"key\":" ++ compact_text (string key.now)) }
{
    let key = text_value(alloc, key)?.to_string(alloc)?;
    ["{\"key\":", key.as_str()].concat(alloc)
}

/// The body of a command's request: a JSON object without blanks, with the key and then the members of its act, in the
/// order in which the API lists them, as `{"key":"p-1","who":"AA","name":"Ann Abel"}`. The error is out of memory.
pub fn write_body(alloc: Global, command: &Command) -> Result<String, AllocError>
    ensures { IfOk result (λ text. string_bytes text ≡ body_text command.now) }
{
    let text = with_key(alloc, command.key.as_str())?;
    let mut body = BodyText { alloc, text };
    tell(&command.act, &mut body)?;
    body.text.push_str("}")?;
    Ok(body.text)
}
