//! What a request's target asks for.
#![tactic(auto, unfolding(kcr_base::specs::Forms::ceremony_of, kcr_base::specs::Forms::step_of, kcr_base::specs::Forms::number_of))]

ghost use Rattle.std.specs.Prelude.{◌≡◌, ◌==◌, ◌<◌, length, position, option_map, IfErr, IfSome};
ghost use Rattle.matchit.specs.Params.{AllText};
ghost use Rattle.kcr_wire.specs.Endpoints.{path_of, ascii_in, parts_of, post_at, inquiry_at, endpoint_of, target_of, allow_of_endpoint};

use crate::allow::Allow;
use crate::path_part::in_path;
use crate::question::Inquiry;
use crate::route::{AskRoute, PostRoute, Route, router};
use kcr_base::Refusal;
use kcr_forms::{CollectionPath, Post};
use kcr_history::Question;
use matchit::{Params, Router};
use std::alloc::Global;
use std::marker::Model;
use std::str;

/// A path with its parts in braces read: one that takes a command, or one that is only asked. `/people` takes both.
#[derive(Clone, Copy)]
pub enum Endpoint {
    Post(Post),
    Ask(Inquiry),
}

// The place of the first question mark.
fn query_at(target: &[u8]) -> Option<usize>
    ensures place { result ≡ position (λ b. b == 63) target.now }
    ensures within { IfSome result (λ i. i < length target.now) }
{
    target.iter().position(|b| *b == b'?')
}

// The path of a target: what stands before the first question mark, or all of it.
fn path_of(target: &[u8]) -> &[u8]
    ensures { result.now ≡ path_of target.now }
{
    match query_at(target) {
        Some(i) => &target[..i],
        None => target,
    }
}

// The text that bytes are, if they are ASCII.
fn ascii_in(bytes: &[u8]) -> Option<&str>
    ensures { option_map (λ text. text.now) result ≡ ascii_in bytes.now }
{
    match str::from_utf8(bytes) {
        Ok(text) if text.is_ascii() => Some(text),
        _ => None,
    }
}

// The path of this route with its parts read, if they have their forms.
fn read_post(route: PostRoute, parts: &Params<'_, '_>) -> Option<Post>
    requires { AllText (parts_of parts.now) }
    ensures { result ≡ post_at route (parts_of parts.now) }
{
    let post = match route {
        PostRoute::Collection(path) => Post::Collection(path),
        PostRoute::Person(path) => Post::Person(in_path(parts, "who")?, path),
        PostRoute::Place(path) => Post::Place(in_path(parts, "place")?, path),
        PostRoute::Ceremony(path) => Post::Ceremony(in_path(parts, "ceremony")?, path),
        PostRoute::Signature => Post::Signature(
            in_path(parts, "ceremony")?,
            in_path(parts, "step")?,
        ),
        PostRoute::Safe => Post::Safe(in_path(parts, "ceremony")?, in_path(parts, "safe")?),
        PostRoute::Bag(path) => Post::Bag(
            in_path(parts, "ceremony")?,
            in_path(parts, "serial")?,
            path,
        ),
    };
    Some(post)
}

// What a path of this route asks for, if its parts have their forms.
fn read_inquiry(route: AskRoute, parts: &Params<'_, '_>) -> Option<Inquiry>
    requires { AllText (parts_of parts.now) }
    ensures { result ≡ inquiry_at route (parts_of parts.now) }
{
    let inquiry = match route {
        AskRoute::CustodiansOn => Inquiry::Question(Question::Custodians(in_path(parts, "day")?)),
        AskRoute::BagShown => Inquiry::Question(Question::Bag(in_path(parts, "serial")?)),
        AskRoute::Room => Inquiry::Question(Question::Room(
            in_path(parts, "ceremony")?,
            in_path(parts, "at")?,
        )),
        AskRoute::Script => Inquiry::Script(in_path(parts, "ceremony")?),
        AskRoute::Attendance => Inquiry::Attendance(in_path(parts, "ceremony")?),
        AskRoute::Custody => Inquiry::Custody,
        AskRoute::Commands => Inquiry::Commands(in_path(parts, "after")?),
    };
    Some(inquiry)
}

// A path of this route with its parts read, if they have their forms.
fn read_parts(route: Route, parts: &Params<'_, '_>) -> Option<Endpoint>
    requires { AllText (parts_of parts.now) }
    ensures { result ≡ endpoint_of route (parts_of parts.now) }
{
    match route {
        Route::Post(route) => Some(Endpoint::Post(read_post(route, parts)?)),
        Route::Ask(route) => Some(Endpoint::Ask(read_inquiry(route, parts)?)),
    }
}

/// The paths of the register. Whoever answers a stream makes it once, since making it takes memory,
/// and looking a path up takes none.
#[derive(Drop)]
pub struct RouteTable {
    router: Router<Route>,
}

impl Model for RouteTable {
    ghost use Rattle.std.specs.Prelude.{◌≡◌};
    ghost use Rattle.kcr_wire.specs.Routes.{table};

    ghost Value = { Unit {0} };

    ghost view = { λ _. tt };

    ghost invariant = { λ p. p.router ≡ table };
}

impl RouteTable {
    /// The paths, or the refusal when out of memory.
    pub fn new(alloc: Global) -> Result<RouteTable, Refusal>
        ensures { IfErr result (λ e. e ≡ Refusal.Memory) }
    {
        let router = router(alloc)?;
        Ok(RouteTable { router })
    }

    /// What a target asks for, or the refusal of a path that the register has not: no route is found
    /// for it, or a part in braces is not of its form. A target that is not ASCII has no route.
    #[tactic(auto, unfolding(crate::specs::Endpoints::target_of))]
    pub fn resolve(&self, target: &[u8]) -> Result<Endpoint, Refusal>
        ensures { result ≡ target_of target.now }
    {
        let Some(path) = ascii_in(path_of(target)) else {
            return Err(Refusal::Path);
        };
        match self.router.at(path) {
            Ok(found) => match read_parts(*found.value, &found.params) {
                Some(endpoint) => Ok(endpoint),
                None => Err(Refusal::Path),
            },
            Err(_) => Err(Refusal::Path),
        }
    }
}

impl Endpoint {
    // The methods that the path takes.
    pub(crate) fn allow(&self) -> Allow
        ensures { result ≡ allow_of_endpoint self.now }
    {
        match self {
            Endpoint::Post(Post::Collection(CollectionPath::People)) => Allow::GetHeadPost,
            Endpoint::Post(_) => Allow::Post,
            Endpoint::Ask(_) => Allow::GetHead,
        }
    }
}
