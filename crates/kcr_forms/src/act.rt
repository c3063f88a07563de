//! The act that a path and its members are.
ghost use Rattle.std.specs.Prelude.{◌∷◌, []};
ghost use Rattle.kcr_forms.specs.{OrMemory.OrMemory, Shapes.at, Shapes.done, Posts.posted_act, Posts.act_by};
ghost use Rattle.kcr_forms.specs.declared.post.CollectionPath.TheVariants.{Custodians, Boxes, Ceremonies};
ghost use Rattle.kcr_forms.specs.declared.post.Post.TheVariants as Posts;

use crate::members::Members;
use crate::post::{BagPath, CeremonyPath, CollectionPath, PersonPath, PlacePath, Post};
use kcr_base::{CeremonyNumber, Initials, Member, Place, Refusal, Serial};
use kcr_custody::SafeNumber;
use kcr_history::{Act, Deed};
use std::alloc::Global;

/// What is done in a ceremony, at the moment that is the last member.
fn act_of_deed<M: Members>(
    alloc: Global,
    ceremony: CeremonyNumber,
    deed: Deed,
    given: &mut M,
) -> Result<Act, Refusal>
    ensures { OrMemory result (act_by M.reading (at ∷ []) (done ceremony deed) (M.given given.old)) }
{
    Ok(Act::Ceremony {
        ceremony,
        deed,
        at: given.last(alloc, Member::At)?,
    })
}

fn appointment<M: Members>(alloc: Global, given: &mut M) -> Result<Act, Refusal>
    ensures { OrMemory result (posted_act M.reading (Posts.Collection Custodians) (M.given given.old)) }
{
    Ok(Act::Appoint {
        place: given.word(alloc, Member::Place)?,
        who: given.word(alloc, Member::Who)?,
        day: given.last(alloc, Member::Day)?,
    })
}

fn new_box<M: Members>(alloc: Global, given: &mut M) -> Result<Act, Refusal>
    ensures { OrMemory result (posted_act M.reading (Posts.Collection Boxes) (M.given given.old)) }
{
    Ok(Act::AddBox {
        facility: given.word(alloc, Member::Facility)?,
        number: given.number(Member::Box)?,
        place: given.last(alloc, Member::Place)?,
    })
}

fn plan<M: Members>(alloc: Global, given: &mut M) -> Result<Act, Refusal>
    ensures { OrMemory result (posted_act M.reading (Posts.Collection Ceremonies) (M.given given.old)) }
{
    Ok(Act::Plan {
        number: given.number(Member::Number)?,
        facility: given.word(alloc, Member::Facility)?,
        day: given.word(alloc, Member::Day)?,
        script: given.last(alloc, Member::Script)?,
    })
}

fn act_of_collection<M: Members>(
    alloc: Global,
    path: CollectionPath,
    given: &mut M,
) -> Result<Act, Refusal>
    ensures { OrMemory result (posted_act M.reading (Posts.Collection path) (M.given given.old)) }
{
    match path {
        CollectionPath::People => Ok(Act::Enter {
            who: given.word(alloc, Member::Who)?,
            name: given.last(alloc, Member::Name)?,
        }),
        CollectionPath::Custodians => appointment(alloc, given),
        CollectionPath::Boxes => new_box(alloc, given),
        CollectionPath::Items => {
            let ceremony = given.number(Member::Ceremony)?;
            let item = given.word(alloc, Member::Item)?;
            act_of_deed(alloc, ceremony, Deed::AddItem { item }, given)
        }
        CollectionPath::Ceremonies => plan(alloc, given),
    }
}

fn act_of_person<M: Members>(
    alloc: Global,
    who: Initials,
    path: PersonPath,
    given: &mut M,
) -> Result<Act, Refusal>
    ensures { OrMemory result (posted_act M.reading (Posts.Person who path) (M.given given.old)) }
{
    match path {
        PersonPath::Roles => Ok(Act::Train {
            who,
            role: given.word(alloc, Member::Role)?,
            since: given.word(alloc, Member::From)?,
            until: given.last(alloc, Member::Until)?,
        }),
        PersonPath::Withdrawals => Ok(Act::Withdraw {
            who,
            role: given.word(alloc, Member::Role)?,
            day: given.last(alloc, Member::Day)?,
        }),
    }
}

fn act_of_place<M: Members>(
    alloc: Global,
    place: Place,
    path: PlacePath,
    given: &mut M,
) -> Result<Act, Refusal>
    ensures { OrMemory result (posted_act M.reading (Posts.Place place path) (M.given given.old)) }
{
    match path {
        PlacePath::Replacement => Ok(Act::Replace {
            place,
            who: given.word(alloc, Member::Who)?,
            day: given.last(alloc, Member::Day)?,
        }),
        PlacePath::Release => Ok(Act::Release {
            place,
            day: given.last(alloc, Member::Day)?,
        }),
    }
}

fn act_of_ceremony<M: Members>(
    alloc: Global,
    ceremony: CeremonyNumber,
    path: CeremonyPath,
    given: &mut M,
) -> Result<Act, Refusal>
    ensures { OrMemory result (posted_act M.reading (Posts.Ceremony ceremony path) (M.given given.old)) }
{
    let deed = match path {
        CeremonyPath::Opening => Deed::Open,
        CeremonyPath::Closing => Deed::Close,
        CeremonyPath::Sheet => Deed::RecordSheet {
            way: given.word(alloc, Member::Way)?,
            who: given.list(alloc, Member::Who)?,
        },
        CeremonyPath::Exceptions => Deed::RecordException {
            text: given.word(alloc, Member::Text)?,
            pass: given.truth(Member::Pass)?,
        },
    };
    act_of_deed(alloc, ceremony, deed, given)
}

fn act_of_safe<M: Members>(
    alloc: Global,
    ceremony: CeremonyNumber,
    safe: SafeNumber,
    given: &mut M,
) -> Result<Act, Refusal>
    ensures { OrMemory result (posted_act M.reading (Posts.Safe ceremony safe) (M.given given.old)) }
{
    let deed = Deed::SetSafe {
        safe,
        is_open: given.truth(Member::Open)?,
        by: given.word(alloc, Member::By)?,
    };
    act_of_deed(alloc, ceremony, deed, given)
}

fn act_of_bag<M: Members>(
    alloc: Global,
    ceremony: CeremonyNumber,
    serial: Serial,
    path: BagPath,
    given: &mut M,
) -> Result<Act, Refusal>
    ensures { OrMemory result (posted_act M.reading (Posts.Bag ceremony serial path) (M.given given.old)) }
{
    let deed = match path {
        BagPath::Seal => Deed::Seal {
            serial,
            items: given.list(alloc, Member::Items)?,
        },
        BagPath::Take => Deed::Take { serial },
        BagPath::Put => Deed::Put {
            serial,
            to: given.word(alloc, Member::To)?,
        },
        BagPath::Cut => Deed::Cut { serial },
    };
    act_of_deed(alloc, ceremony, deed, given)
}

/// The act that is posted to a path with these members, or the refusal of the first member that is missing or not of its
/// form. `Memory` may come in the place of any answer.
pub fn act_at<M: Members>(alloc: Global, post: Post, given: &mut M) -> Result<Act, Refusal>
    ensures { OrMemory result (posted_act M.reading post (M.given given.old)) }
{
    match post {
        Post::Collection(path) => act_of_collection(alloc, path, given),
        Post::Person(who, path) => act_of_person(alloc, who, path, given),
        Post::Place(place, path) => act_of_place(alloc, place, path, given),
        Post::Ceremony(ceremony, path) => act_of_ceremony(alloc, ceremony, path, given),
        Post::Signature(ceremony, step) => act_of_deed(alloc, ceremony, Deed::Sign { step }, given),
        Post::Safe(ceremony, safe) => act_of_safe(alloc, ceremony, safe, given),
        Post::Bag(ceremony, serial, path) => act_of_bag(alloc, ceremony, serial, path, given),
    }
}
