//! Acts, by the texts that tell them.
ghost use Rattle.std.specs.Prelude.{◌≡◌, IfOk, IfSome, Some};
ghost use Rattle.kcr_history.specs.{Texts.command_text, declared.commands.Act.Act};
ghost use Rattle.kcr_forms.specs.Acts.{IsAct};
ghost use Rattle.kcr_wire.specs.ActTexts.{told_at, act_told, act_of};
ghost use Rattle.kcr_base.specs.Same.{same_text};

use crate::endpoint::{Endpoint, RouteTable};
use kcr_base::{Refusal, same_text};
use kcr_forms::{act_of_lines, split_at_byte};
use kcr_history::{Act, command_text};
use std::alloc::{AllocError, Global};

// The act of these lines, if the path takes commands.
fn told_at(alloc: Global, endpoint: Endpoint, text: &[u8]) -> Result<Option<Act>, AllocError>
    ensures { IfOk result (λ act. act ≡ told_at text.now endpoint) }
{
    let Endpoint::Post(post) = endpoint else {
        return Ok(None);
    };
    match act_of_lines(alloc, post, text) {
        Ok(act) => Ok(Some(act)),
        Err(Refusal::Memory) => Err(AllocError),
        Err(_) => Ok(None),
    }
}

// Whether this is the act's text.
fn is_told(alloc: Global, act: &Act, text: &[u8]) -> Result<bool, AllocError>
    ensures { IfOk result (λ is. is ≡ same_text (command_text act.now) text.now) }
{
    let again = command_text(alloc, act)?;
    Ok(same_text(again.as_bytes(), text))
}

impl RouteTable {
    // The act that a text tells, if its path and its lines do.
    #[tactic(auto, unfolding(crate::specs::ActTexts::act_told))]
    fn act_told(&self, alloc: Global, text: &[u8]) -> Result<Option<Act>, AllocError>
        ensures { IfOk result (λ act. act ≡ act_told text.now) }
    {
        let Some((target, lines)) = split_at_byte(b'\n', text) else {
            return Ok(None);
        };
        match self.resolve(target) {
            Ok(endpoint) => told_at(alloc, endpoint, lines),
            Err(_) => Ok(None),
        }
    }

    // The act that a text tells, if the text is its own.
    #[tactic(auto, unfolding(crate::specs::ActTexts::act_of))]
    fn act_of_text(&self, alloc: Global, text: &[u8]) -> Result<Option<Act>, AllocError>
        ensures { IfOk result (λ act. act ≡ act_of text.now) }
    {
        let Some(act) = self.act_told(alloc, text)? else {
            return Ok(None);
        };
        if is_told(alloc, &act, text)? {
            Ok(Some(act))
        } else {
            Ok(None)
        }
    }

    /// The act whose text this is, or `None` if it is the text of none. The error is out of memory.
    pub fn read_act(&self, alloc: Global, text: &[u8]) -> Result<Option<Act>, AllocError>
        ensures act { IfOk result (λ found. found ≡ act_of text.now) }
        ensures found { IfOk result (λ found. IfSome found (λ act. command_text act ≡ text.now)) }
        ensures only { IfOk result (λ found. (act : Act) → IsAct act → command_text act ≡ text.now → found ≡ Some act) }
    {
        self.act_of_text(alloc, text)
    }
}
