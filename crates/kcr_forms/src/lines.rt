//! The members of a command as the lines of its stored text.
#![tactic(auto, using(kcr_base::proofs::ValueLemmas::value_readings))]

ghost use Rattle.std.specs.Prelude.{◌≡◌};
ghost use Rattle.kcr_forms.specs.{Forms.number_of, Forms.truth_of, Lines.lines, Posts.posted_act, OrMemory.OrMemory};

use crate::act::act_at;
use crate::lists::read_list;
use crate::members::{Members, required};
use crate::post::Post;
use crate::split::split_at_byte;
use kcr_base::lists::{DistinctList, ListElement};
use kcr_base::number::{Number, Numbered};
use kcr_base::{Member, Refusal, Written};
use kcr_history::Act;
use std::alloc::Global;

/// The lines of a stored text behind its path.
#[derive(Drop)]
struct Lines<'t> {
    text: &'t [u8],
}

/// The number of its kind with this decimal text.
fn read_number<K: Numbered>(text: &[u8]) -> Option<Number<K>>
    ensures { result ≡ number_of K.limit text.now }
{
    Number::read(text)
}

/// The truth value with this text.
#[tactic(auto, unfolding(crate::specs::Forms::truth_of))]
fn read_truth(text: &[u8]) -> Option<bool>
    ensures { result ≡ truth_of text.now }
{
    match text {
        b"true" => Some(true),
        b"false" => Some(false),
        _ => None,
    }
}

impl<'t> Members for Lines<'t> {
    ghost use Rattle.std.specs.Prelude.{ℕ, List};

    ghost Given = { List ℕ };

    ghost given = { λ s. s.text.now };

    ghost reading = { lines };

    fn word<T: Written + Drop>(&mut self, alloc: Global, name: Member) -> Result<T, Refusal> {
        let Some((line, rest)) = split_at_byte(b'\n', self.text) else {
            return Err(Refusal::Form { member: name });
        };
        self.text = rest;
        let value = T::from_text(alloc, line)?;
        required(value, name)
    }

    fn last<T: Written + Drop>(&mut self, alloc: Global, name: Member) -> Result<T, Refusal> {
        let value = T::from_text(alloc, self.text)?;
        required(value, name)
    }

    fn number<K: Numbered>(&mut self, name: Member) -> Result<Number<K>, Refusal> {
        let Some((line, rest)) = split_at_byte(b'\n', self.text) else {
            return Err(Refusal::Form { member: name });
        };
        self.text = rest;
        required(read_number(line), name)
    }

    fn truth(&mut self, name: Member) -> Result<bool, Refusal> {
        let Some((line, rest)) = split_at_byte(b'\n', self.text) else {
            return Err(Refusal::Form { member: name });
        };
        self.text = rest;
        required(read_truth(line), name)
    }

    fn list<T: ListElement + Drop>(
        &mut self,
        alloc: Global,
        name: Member,
    ) -> Result<DistinctList<T>, Refusal> {
        let Some((line, rest)) = split_at_byte(b'\n', self.text) else {
            return Err(Refusal::Form { member: name });
        };
        self.text = rest;
        let value = read_list(alloc, line)?;
        required(value, name)
    }
}

/// The act that is posted to a path with the members on these lines, as `act_at` has it.
pub fn act_of_lines(alloc: Global, post: Post, text: &[u8]) -> Result<Act, Refusal>
    ensures { OrMemory result (posted_act lines post text.now) }
{
    act_at(alloc, post, &mut Lines { text })
}
