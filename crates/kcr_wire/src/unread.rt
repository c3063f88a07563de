//! Requests that are neither a command nor an inquiry.
ghost use Rattle.std.specs.Prelude.{◌≡◌, Some};
ghost use Rattle.kcr_wire.specs.Endpoints.{if_method};

use crate::allow::Allow;
use kcr_base::Refusal;

/// Why a request is neither a command nor an inquiry.
#[derive(Clone, Copy)]
pub struct Unread {
    /// The refusal.
    pub refusal: Refusal,
    /// The methods that the path takes, if the refusal is `Method`.
    pub allow: Option<Allow>,
}

impl Unread {
    // A refusal of a request for a path that takes these methods.
    pub(crate) fn new(refusal: Refusal, allow: Allow) -> Unread
        ensures refusal { result.refusal ≡ refusal }
        ensures allow { result.allow ≡ if_method refusal (Some allow) }
    {
        let allow = match refusal {
            Refusal::Method => Some(allow),
            _ => None,
        };
        Unread { refusal, allow }
    }
}

impl From<Refusal> for Unread {
    ghost use Rattle.std.specs.Prelude.{◌≡◌, None};

    ghost from_gives = { λ refusal unread. unread ≡ record { refusal = refusal; allow = None } };

    fn from(refusal: Refusal) -> Unread {
        Unread {
            refusal,
            allow: None,
        }
    }
}
