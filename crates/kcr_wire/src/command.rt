//! Commands, read off the target and the body of a POST.
ghost use Rattle.std.specs.Prelude.{◌≡◌, IfErr, IfOk};
ghost use Rattle.serde_json.specs.View.{view};
ghost use Rattle.kcr_forms.specs.{Acts.IsAct, OrMemory.OrMemory};
ghost use Rattle.kcr_wire.specs.Commands.{command_of, posted, posted_command};
ghost use Rattle.kcr_wire.specs.Endpoints.{allow_of, if_method, refusal_alone};

use crate::body::{Body, read_body, text_member};
use crate::endpoint::{Endpoint, RouteTable};
use crate::unread::Unread;
use kcr_base::{Member, Refusal};
use kcr_forms::{Post, act_at};
use kcr_history::Command;
use serde_json::Value;
use std::alloc::Global;

// The command of a path: its key, which is read before all other members, and its act.
fn posted_command(alloc: Global, post: Post, body: &Value) -> Result<Command, Refusal>
    ensures { OrMemory result (posted_command post (view body.now)) }
{
    let key = text_member(alloc, body, Member::Key)?;
    let act = act_at(alloc, post, &mut Body { value: body })?;
    Ok(Command { key, act })
}

// The command of a body that is posted to a path. A path that takes no POST is refused.
fn posted(alloc: Global, endpoint: Endpoint, body: &[u8]) -> Result<Command, Refusal>
    ensures { OrMemory result (posted endpoint body.now) }
{
    let Endpoint::Post(post) = endpoint else {
        return Err(Refusal::Method);
    };
    posted_command(alloc, post, &read_body(alloc, body)?)
}

impl RouteTable {
    /// The command that a POST is, or the first of the refusals that hold: `Path`, `Method` (the path
    /// is known and takes no POST), `Json`, `Form` with the first member that is missing or not of its
    /// form. `Memory` may come in the place of any answer. `target` is the whole target of the request
    /// line; its query is cut off. Members that the command does not name are ignored, and of a member
    /// given twice the last one counts. The parts of the command are values of their types.
    #[tactic(auto, unfolding(crate::specs::Commands::command_of, crate::specs::Endpoints::allow_of))]
    pub fn read_command(&self, alloc: Global, target: &[u8], body: &[u8]) -> Result<Command, Unread>
        ensures command { OrMemory (refusal_alone result) (command_of target.now body.now) }
        ensures values { IfOk result (λ command. IsAct command.act) }
        ensures allow { IfErr result (λ e. e.allow ≡ if_method e.refusal (allow_of target.now)) }
    {
        match self.resolve(target) {
            Ok(endpoint) => {
                let allow = endpoint.allow();
                match posted(alloc, endpoint, body) {
                    Ok(command) => Ok(command),
                    Err(refusal) => Err(Unread::new(refusal, allow)),
                }
            }
            Err(refusal) => Err(refusal.into()),
        }
    }
}
