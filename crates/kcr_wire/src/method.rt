//! Methods of requests.
ghost use Rattle.std.specs.Prelude.{◌≡◌};
ghost use Rattle.kcr_wire.specs.{Endpoints.allow_of, Endpoints.if_method, Methods.method_of, Methods.refused_of};

use crate::endpoint::RouteTable;
use crate::unread::Unread;
use kcr_base::Refusal;

/// A method, as far as the register tells them apart: `GET` and `HEAD` ask for something, `POST` gives a command, and no
/// path takes any other token (RFC 9110 section 9.1: they are case-sensitive).
#[derive(Clone, Copy)]
pub enum Method {
    Ask,
    Post,
    Other,
}

impl Method {
    /// The method that a token names.
    #[tactic(auto, unfolding(crate::specs::Methods::method_of))]
    pub fn of(token: &[u8]) -> Method
        ensures { result ≡ method_of token.now }
    {
        if token == b"POST".as_slice() {
            Method::Post
        } else if token == b"GET".as_slice() || token == b"HEAD".as_slice() {
            Method::Ask
        } else {
            Method::Other
        }
    }
}

impl RouteTable {
    /// The refusal of a request whose method no path takes: `Path`, or `Method` if the path is known. It takes no
    /// memory.
    #[tactic(auto, unfolding(crate::specs::Methods::refused_of, crate::specs::Endpoints::allow_of))]
    pub fn refuse_method(&self, target: &[u8]) -> Unread
        ensures refusal { result.refusal ≡ refused_of target.now }
        ensures allow { result.allow ≡ if_method result.refusal (allow_of target.now) }
    {
        match self.resolve(target) {
            Ok(endpoint) => Unread::new(Refusal::Method, endpoint.allow()),
            Err(refusal) => Unread {
                refusal,
                allow: None,
            },
        }
    }
}
