//! Inquiries, read off the target of a GET or a HEAD.
ghost use Rattle.std.specs.Prelude.{◌≡◌, IfErr};
ghost use Rattle.kcr_wire.specs.{Endpoints.allow_of, Endpoints.if_method, Endpoints.refusal_alone, Questions.inquiry_of, Questions.question_of};

use crate::after::After;
use crate::endpoint::{Endpoint, RouteTable};
use crate::unread::Unread;
use kcr_base::{CeremonyNumber, Refusal};
use kcr_forms::{CollectionPath, Post};
use kcr_history::Question;

/// What a GET or HEAD asks for: a question, whose answer is a value, or a report, whose answer is a
/// text.
#[derive(Clone, Copy)]
pub enum Inquiry {
    /// A question about the register.
    Question(Question),
    /// The annotated script of the ceremony.
    Script(CeremonyNumber),
    /// The attendance of the ceremony.
    Attendance(CeremonyNumber),
    /// Custody.
    Custody,
    /// The accepted commands behind those that the client has, as requests.
    Commands(After),
}

// What a path is asked for, or the refusal of a path that takes commands alone.
fn inquiry_of(endpoint: Endpoint) -> Result<Inquiry, Refusal>
    ensures { result ≡ inquiry_of endpoint }
{
    match endpoint {
        Endpoint::Ask(inquiry) => Ok(inquiry),
        Endpoint::Post(Post::Collection(CollectionPath::People)) => Ok(Inquiry::Question(
            Question::People,
        )),
        Endpoint::Post(_) => Err(Refusal::Method),
    }
}

impl RouteTable {
    /// The inquiry that a GET or a HEAD is, or the first of the refusals that hold: `Path`, `Method` (the path is known
    /// and takes commands alone). It takes no memory. `target` is the whole target of the request line; its query is cut
    /// off.
    #[tactic(auto, unfolding(crate::specs::Questions::question_of, crate::specs::Endpoints::allow_of))]
    pub fn read_question(&self, target: &[u8]) -> Result<Inquiry, Unread>
        ensures question { refusal_alone result ≡ question_of target.now }
        ensures allow { IfErr result (λ e. e.allow ≡ if_method e.refusal (allow_of target.now)) }
    {
        match self.resolve(target) {
            Ok(endpoint) => {
                let allow = endpoint.allow();
                match inquiry_of(endpoint) {
                    Ok(inquiry) => Ok(inquiry),
                    Err(refusal) => Err(Unread::new(refusal, allow)),
                }
            }
            Err(refusal) => Err(refusal.into()),
        }
    }
}
