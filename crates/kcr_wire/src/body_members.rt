//! The members of a body, one after another. Each stands behind another, so a comma comes before it.
ghost use Rattle.std.specs.Prelude.{◌≡◌, ◌++◌, IfOk, OnOk, false, map, string_bytes};
ghost use Rattle.serde_json.specs.{Data.string, Data.array, Written.has_float, View.view, View.items_of};
ghost use Rattle.kcr_base.specs.Refusal.{member_text};
ghost use Rattle.kcr_wire.specs.Bodies.{next_member};

use kcr_base::Member;
use kcr_base::lists::{DistinctList, ListElement};
use kcr_history::Teller;
use serde_json::{Value, json};
use std::alloc::{AllocError, Global};

/// The text of a body so far.
#[derive(Drop)]
pub(crate) struct BodyText {
    /// Where the JSON of each value is made.
    pub(crate) alloc: Global,
    /// An object without its last bracket.
    pub(crate) text: String,
}

impl BodyText {
    /// Writes a member: a comma, its name, a colon and its value.
    fn push(&mut self, name: Member, value: &Value) -> Result<(), AllocError>
        requires { has_float (view value.now) ≡ false }
        ensures { OnOk result (string_bytes self.new.text
            ≡ string_bytes self.old.text ++ next_member (member_text name) (view value.now)) }
    {
        let written = value.to_string(self.alloc)?;
        let member = [",\"", name.text(), "\":", written.as_str()].concat(self.alloc)?;
        self.text.push_str(member.as_str())?;
        Ok(())
    }
}

/// A text, as JSON.
pub(crate) fn text_value(alloc: Global, text: &str) -> Result<Value, AllocError>
    ensures { IfOk result (λ v. view v ≡ string text.now) }
{
    json!(in alloc; text)
}

/// Codes, each as JSON.
fn code_values<T: ListElement>(alloc: Global, codes: &[T]) -> Result<Vec<Value>, AllocError>
    ensures { IfOk result (λ v. map view v.items ≡ map string (T.texts codes.now)) }
{
    let mut values = Vec::new(alloc);
    for code in codes {
        values.push(text_value(alloc, code.code())?)?;
    }
    Ok(values)
}

/// Values, as a JSON array.
fn array_value(alloc: Global, values: Vec<Value>) -> Result<Value, AllocError>
    ensures { IfOk result (λ v. view v ≡ array (items_of (map view values.items))) }
{
    json!(in alloc; values)
}

impl Teller for BodyText {
    ghost use Rattle.std.specs.Prelude.{ℕ, List, ◌++◌, string_bytes};
    ghost use Rattle.kcr_base.specs.Refusal.{member_text};
    ghost use Rattle.kcr_wire.specs.Bodies.{json_of, next_member};

    ghost Seen = { List ℕ };

    ghost seen = { λ s. string_bytes s.text };

    ghost adds = { λ text m. text ++ next_member (member_text m.0) (json_of m.1) };

    fn text(&mut self, name: Member, value: &str) -> Result<(), AllocError> {
        let value = text_value(self.alloc, value)?;
        self.push(name, &value)
    }

    fn number(&mut self, name: Member, value: u32) -> Result<(), AllocError> {
        let value = json!(in self.alloc; value)?;
        self.push(name, &value)
    }

    fn truth(&mut self, name: Member, value: bool) -> Result<(), AllocError> {
        let value = json!(in self.alloc; value)?;
        self.push(name, &value)
    }

    fn list<T: ListElement>(
        &mut self,
        name: Member,
        value: &DistinctList<T>,
    ) -> Result<(), AllocError> {
        let values = code_values(self.alloc, value.as_slice())?;
        let value = array_value(self.alloc, values)?;
        self.push(name, &value)
    }
}
