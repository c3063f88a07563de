//! The routes of the register, and the router over them.
ghost use Rattle.std.specs.Prelude.{◌≡◌, [], true, IfOk, OnOk};
ghost use Rattle.kcr_wire.specs.Routes.{rows_of, table, add, add_all, can_add, can_add_all};

use self::AskRoute::{Attendance, BagShown, Commands, CustodiansOn, Custody, Room, Script};
use self::PostRoute::{Bag, Ceremony, Collection, Person, Place, Safe, Signature};
use self::Route::{Ask, Post};
use kcr_forms::BagPath::{self, Cut, Put, Seal, Take};
use kcr_forms::CeremonyPath::{self, Closing, Exceptions, Opening, Sheet};
use kcr_forms::CollectionPath::{self, Boxes, Ceremonies, Custodians, Items, People};
use kcr_forms::PersonPath::{self, Roles, Withdrawals};
use kcr_forms::PlacePath::{self, Release, Replacement};
use matchit::{InsertError, Router};
use std::alloc::{AllocError, Global};

/// A kind of path, with its parts in braces left out: one that takes a command, or one that is only asked.
#[derive(Clone, Copy)]
pub enum Route {
    Post(PostRoute),
    Ask(AskRoute),
}

/// A kind of path that takes a command.
#[derive(Clone, Copy)]
pub enum PostRoute {
    Collection(CollectionPath),
    Person(PersonPath),
    Place(PlacePath),
    Ceremony(CeremonyPath),
    Signature,
    Safe,
    Bag(BagPath),
}

/// A kind of path that is only asked.
#[derive(Clone, Copy)]
pub enum AskRoute {
    CustodiansOn,
    BagShown,
    Room,
    Script,
    Attendance,
    Custody,
    Commands,
}

/// Every route as `matchit` reads it, with a name for each part in braces, in the order in which the router takes them.
pub const ROUTES: [(&str, Route); 26] = [
    ("/people", Post(Collection(People))),
    ("/people/{who}/roles", Post(Person(Roles))),
    ("/people/{who}/withdrawals", Post(Person(Withdrawals))),
    ("/custodians", Post(Collection(Custodians))),
    ("/custodians/{place}/replacement", Post(Place(Replacement))),
    ("/custodians/{place}/release", Post(Place(Release))),
    ("/boxes", Post(Collection(Boxes))),
    ("/items", Post(Collection(Items))),
    ("/ceremonies", Post(Collection(Ceremonies))),
    ("/ceremonies/{ceremony}/opening", Post(Ceremony(Opening))),
    ("/ceremonies/{ceremony}/closing", Post(Ceremony(Closing))),
    ("/ceremonies/{ceremony}/sheet", Post(Ceremony(Sheet))),
    (
        "/ceremonies/{ceremony}/steps/{step}/signature",
        Post(Signature),
    ),
    (
        "/ceremonies/{ceremony}/exceptions",
        Post(Ceremony(Exceptions)),
    ),
    ("/ceremonies/{ceremony}/safes/{safe}", Post(Safe)),
    ("/ceremonies/{ceremony}/bags/{serial}/seal", Post(Bag(Seal))),
    ("/ceremonies/{ceremony}/bags/{serial}/take", Post(Bag(Take))),
    ("/ceremonies/{ceremony}/bags/{serial}/put", Post(Bag(Put))),
    ("/ceremonies/{ceremony}/bags/{serial}/cut", Post(Bag(Cut))),
    ("/custodians/{day}", Ask(CustodiansOn)),
    ("/bags/{serial}", Ask(BagShown)),
    ("/ceremonies/{ceremony}/room/{at}", Ask(Room)),
    ("/ceremonies/{ceremony}/script", Ask(Script)),
    ("/ceremonies/{ceremony}/attendance.csv", Ask(Attendance)),
    ("/custody", Ask(Custody)),
    ("/commands/{after}", Ask(Commands)),
];

// Takes one more route, which reads and which no route held conflicts with, so that only memory can be wanting.
fn add(router: &mut Router<Route>, pattern: &str, route: Route) -> Result<(), AllocError>
    requires { can_add router.old (pattern.now, route) ≡ true }
    ensures { OnOk result (router.new ≡ add router.old (pattern.now, route)) }
{
    match router.insert(pattern, route) {
        Ok(()) => Ok(()),
        Err(error) => {
            let is_memory = matches!(error, InsertError::OutOfMemory);
            prove!(is_memory);
            Err(AllocError)
        }
    }
}

// A router over these routes.
fn router_of(alloc: Global, routes: &[(&str, Route)]) -> Result<Router<Route>, AllocError>
    requires { can_add_all [] (rows_of routes.now) ≡ true }
    ensures { IfOk result (λ r. r ≡ add_all [] (rows_of routes.now)) }
{
    let mut router = Router::new(alloc);
    for (pattern, route) in routes {
        add(&mut router, pattern, *route)?;
    }
    Ok(router)
}

// The router over all routes.
pub(crate) fn router(alloc: Global) -> Result<Router<Route>, AllocError>
    ensures { IfOk result (λ r. r ≡ table) }
{
    router_of(alloc, &ROUTES)
}
