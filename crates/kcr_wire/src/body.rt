//! The body of a request as JSON, and its members.
ghost use Rattle.std.specs.Prelude.{◌≡◌, ◌≢◌, None, Some, option_map, option_and_then, IfOk, IfErr};
ghost use Rattle.serde_json.specs.{Find.as_str, Find.as_array, View.view, View.items_view};
ghost use Rattle.kcr_forms.specs.{Forms.listed_of, Reading.formed, OrMemory.OrMemory};
ghost use Rattle.kcr_wire.specs.Members.{json_of, text_at, whole_at, truth_at, each_in, body};

use kcr_base::lists::{DistinctList, ListElement};
use kcr_base::number::{Number, Numbered};
use kcr_base::{Member, Refusal, Written};
use kcr_forms::forms::{listed, number_to};
use kcr_forms::{Members, required};
use serde_json::Value;
use std::alloc::{AllocError, Global};

// A body as JSON.
pub(crate) fn read_body(alloc: Global, body: &[u8]) -> Result<Value, Refusal>
    ensures ok { IfOk result (λ v. json_of body.now ≡ Some (view v)) }
    ensures err { IfErr result (λ e. e ≢ Refusal.Memory → (e ≡ Refusal.Json) × (json_of body.now ≡ None)) }
{
    match Value::from_slice(alloc, body) {
        Ok(value) => Ok(value),
        Err(error) => {
            if error.is_memory() {
                Err(Refusal::Memory)
            } else {
                Err(Refusal::Json)
            }
        }
    }
}

// The text of a member.
fn text_of<'v>(body: &'v Value, name: Member) -> Option<&'v str>
    ensures { option_map (λ s. s.now) result ≡ text_at name (view body.now) }
{
    body.get(name.text())?.as_str()
}

// The whole number of a member, without sign, fraction or exponent.
fn whole_of(body: &Value, name: Member) -> Option<u64>
    ensures { result ≡ whole_at name (view body.now) }
{
    body.get(name.text())?.as_u64()
}

// The truth value of a member.
fn truth_of(body: &Value, name: Member) -> Option<bool>
    ensures { result ≡ truth_at name (view body.now) }
{
    body.get(name.text())?.as_bool()
}

// The value that a member gives by its text, or the refusal that names the member.
pub(crate) fn text_member<T: Written + Drop>(
    alloc: Global,
    body: &Value,
    name: Member,
) -> Result<T, Refusal>
    ensures { OrMemory result (formed name (option_and_then T.form (text_at name (view body.now)))) }
{
    let value = match text_of(body, name) {
        Some(text) => T::from_text(alloc, text.as_bytes())?,
        None => None,
    };
    required(value, name)
}

// The value that a JSON text gives.
fn text_value<T: Written + Drop>(alloc: Global, value: &Value) -> Result<Option<T>, AllocError>
    ensures { IfOk result (λ told. told ≡ option_and_then T.form (as_str (view value.now))) }
{
    match value.as_str() {
        Some(text) => T::from_text(alloc, text.as_bytes()),
        None => Ok(None),
    }
}

// The values that an array gives, if each of its items gives one.
fn each_in<T: Written + Drop>(alloc: Global, items: &[Value]) -> Result<Option<Vec<T>>, AllocError>
    ensures { IfOk result (λ o. option_map (λ v. v.items) o ≡ each_in T.form (items_view items.now)) }
{
    let mut list = Vec::new(alloc);
    for item in items {
        let Some(value) = text_value(alloc, item)? else {
            return Ok(None);
        };
        list.push(value)?;
    }
    Ok(Some(list))
}

// The values that a value lists.
fn listed_in<T: ListElement + Drop>(
    alloc: Global,
    value: &Value,
) -> Result<Option<DistinctList<T>>, AllocError>
    ensures { IfOk result (λ o. o ≡ option_and_then (listed_of T.MAX_LEN T.texts)
        (option_and_then (each_in T.form) (as_array (view value.now)))) }
{
    let Some(items) = value.as_array() else {
        return Ok(None);
    };
    let Some(list) = each_in(alloc, items)? else {
        return Ok(None);
    };
    Ok(listed(list))
}

/// A body, by its members.
#[derive(Drop)]
pub(crate) struct Body<'v> {
    pub(crate) value: &'v Value,
}

impl<'v> Members for Body<'v> {
    ghost use Rattle.serde_json.specs.Data.{Data};

    ghost Given = { Data };

    ghost given = { λ s. view s.value.now };

    ghost reading = { body };

    fn word<T: Written + Drop>(&mut self, alloc: Global, name: Member) -> Result<T, Refusal> {
        text_member(alloc, self.value, name)
    }

    fn last<T: Written + Drop>(&mut self, alloc: Global, name: Member) -> Result<T, Refusal> {
        text_member(alloc, self.value, name)
    }

    fn number<K: Numbered>(&mut self, name: Member) -> Result<Number<K>, Refusal> {
        let number = match whole_of(self.value, name) {
            Some(number) => number_to(number),
            None => None,
        };
        required(number, name)
    }

    fn truth(&mut self, name: Member) -> Result<bool, Refusal> {
        required(truth_of(self.value, name), name)
    }

    fn list<T: ListElement + Drop>(
        &mut self,
        alloc: Global,
        name: Member,
    ) -> Result<DistinctList<T>, Refusal> {
        let list = match self.value.get(name.text()) {
            Some(value) => listed_in(alloc, value)?,
            None => None,
        };
        required(list, name)
    }
}
