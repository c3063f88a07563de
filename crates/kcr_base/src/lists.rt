//! The people and the items that a command names: lists in the order in which they are given, of which none is named
//! twice.
ghost use Rattle.std.specs.Prelude.{◌≡◌, ℕ, List, map, SomeIff};
ghost use Rattle.std.proofs.{Common.rules, Common.sym, lemmas.List.map-id};
ghost use Rattle.kcr_base.specs.Lists;
ghost use Rattle.kcr_base.specs.{Lists.IsListed, Same.same_text};

use crate::initials::Initials;
use crate::serial::ItemCode;
use crate::written::Written;
use std::marker::Model;

/// People in an order: 1 to 32, none of them twice.
pub type People = DistinctList<Initials>;

/// Items in an order: 1 to 64, none of them twice.
pub type Items = DistinctList<ItemCode>;

/// What a command names in a list, each by its text.
pub trait ListElement: Written + Copy + PartialEq {
    /// The texts of several.
    ghost texts: { List Self → List (List ℕ) };

    /// The greatest number of them in a list.
    ghost MAX_LEN: { ℕ };

    /// The greatest number of them in a list.
    const MAX_LEN: usize;

    /// Its text.
    fn code(&self) -> &str
        ensures { result.now ≡ Self.Written.text self.now };

    // Several have the text of each.
    ghost each: { (all : List Self) → texts all ≡ map Self.Written.text all };

    // They are equal if their texts are.
    ghost same: { (one other : Self) → Self.PartialEq.eq one other ≡ same_text (Self.Written.text one) (Self.Written.text other) };
}

impl ListElement for Initials {
    ghost texts = { λ people. people };

    ghost MAX_LEN = { 32 };

    const MAX_LEN: usize = 32;

    fn code(&self) -> &str {
        self.as_str()
    }

    ghost each = { λ people. sym (map-id people) };

    ghost same = { Prim.search rules };
}

impl ListElement for ItemCode {
    ghost texts = { λ items. items };

    ghost MAX_LEN = { 64 };

    const MAX_LEN: usize = 64;

    fn code(&self) -> &str {
        self.as_str()
    }

    ghost each = { λ items. sym (map-id items) };

    ghost same = { Prim.search rules };
}

/// What a command names, in an order: at least one, at most as many as may be in a list, none of them twice.
#[derive(Drop)]
pub struct DistinctList<T: ListElement> {
    list: Vec<T>,
}

impl<T: ListElement> Model for DistinctList<T> {
    ghost use Rattle.std.specs.Prelude.{List};
    ghost use Rattle.kcr_base.specs.Lists.{IsListed};

    ghost Value = { List T };

    ghost view = { λ s. s.list.items };

    ghost invariant = { λ s. IsListed T.MAX_LEN (T.texts s.list.items) };
}

impl<T: ListElement> DistinctList<T> {
    /// These in their order, or `None` if they are none or too many, or one of them comes twice.
    pub fn new(list: Vec<T>) -> Option<Self>
        ensures { SomeIff result (IsListed T.MAX_LEN (T.texts list.items)) list.items }
    {
        if list.is_empty() || list.len() > T::MAX_LEN || !are_apart(&list) {
            return None;
        }
        Some(DistinctList { list })
    }

    /// Those in the list, in their order.
    pub fn as_slice(&self) -> &[T]
        ensures value { result.now ≡ self.now }
        ensures form { IsListed T.MAX_LEN (T.texts self.now) }
    {
        self.list.as_slice()
    }
}

/// Whether this one is among those.
pub fn is_among<T: ListElement>(those: &[T], one: T) -> bool
    ensures { result ≡ Lists.is_among (T.texts those.now) (T.text one) }
{
    those.contains(&one)
}

/// Whether each of them comes once.
fn are_apart<T: ListElement>(list: &[T]) -> bool
    ensures { result ≡ Lists.are_apart (T.texts list.now) }
{
    for (index, one) in list.iter().enumerate() {
        if is_among(&list[index + 1..], *one) {
            return false;
        }
    }
    true
}
