//! The texts of commands.
ghost use Rattle.std.specs.Prelude.{◌≡◌, ◌++◌, IfOk, OnOk, string_bytes};
ghost use Rattle.kcr_history.specs.Texts;

use crate::comma_lists::push_codes;
use crate::commands::Act;
use crate::paths::path_text;
use crate::telling::{Teller, tell};
use itoa::Buffer;
use kcr_base::lists::{DistinctList, ListElement};
use kcr_base::{Member, Text};
use std::alloc::{AllocError, Global};

/// A text in which each member's value is on a line of its own.
#[derive(Drop)]
struct Lines {
    text: String,
}

impl Lines {
    /// Writes a value on a line of its own.
    fn push(&mut self, value: &str) -> Result<(), AllocError>
        ensures { OnOk result (string_bytes self.new.text ≡ string_bytes self.old.text ++ Texts.line value.now) }
    {
        self.text.push_str("\n")?;
        self.text.push_str(value)
    }
}

impl Teller for Lines {
    ghost use Rattle.std.specs.Prelude.{ℕ, List, string_bytes};
    ghost use Rattle.kcr_history.specs.Texts.{with_line};

    ghost Seen = { List ℕ };

    ghost seen = { λ s. string_bytes s.text };

    ghost adds = { with_line };

    fn text(&mut self, _name: Member, value: &str) -> Result<(), AllocError> {
        self.push(value)
    }

    fn number(&mut self, _name: Member, value: u32) -> Result<(), AllocError> {
        let mut digits = Buffer::new();
        self.push(digits.format(value))
    }

    fn truth(&mut self, _name: Member, value: bool) -> Result<(), AllocError> {
        self.push(if value { "true" } else { "false" })
    }

    fn list<T: ListElement>(
        &mut self,
        _name: Member,
        value: &DistinctList<T>,
    ) -> Result<(), AllocError> {
        self.text.push_str("\n")?;
        push_codes(&mut self.text, value.as_slice())
    }
}

/// The text by which two commands under one key are compared: the path of the command's request, then the value of
/// each member of its body but the key, in their order, each on a line of its own. Two commands are the same if
/// their texts are equal. The error is out of memory.
pub fn command_text(alloc: Global, act: &Act) -> Result<Text, AllocError>
    ensures { IfOk result (λ text. text ≡ Texts.command_text act.now) }
{
    let mut lines = Lines {
        text: path_text(alloc, act)?,
    };
    tell(act, &mut lines)?;
    Ok(Text::from_string(lines.text))
}
