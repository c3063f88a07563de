//! Lists of people and of items of any length, as values of their own: contracts see the list alone.
ghost use Rattle.std.specs.Prelude.{◌≡◌, IfOk};

use kcr_base::{Initials, ItemCode};
use std::alloc::{AllocError, Global};
use std::marker::Model;

/// Initials, in the order in which they were added.
#[derive(Drop)]
pub struct InitialsList {
    list: Vec<Initials>,
}

impl Model for InitialsList {
    ghost use Rattle.std.specs.Prelude.{List, ℕ};

    ghost Value = { List (List ℕ) };

    ghost view = { λ s. s.list.items };
}

impl InitialsList {
    /// These people, in their order.
    pub fn new(list: Vec<Initials>) -> InitialsList
        ensures { result ≡ list.items }
    {
        InitialsList { list }
    }

    /// A copy of these people, in their order. The error is out of memory.
    pub fn copy_of(alloc: Global, people: &[Initials]) -> Result<InitialsList, AllocError>
        ensures { IfOk result (λ list. list ≡ people.now) }
    {
        Ok(InitialsList {
            list: people.to_vec(alloc)?,
        })
    }

    /// The people, in their order.
    pub fn as_slice(&self) -> &[Initials]
        ensures { result.now ≡ self.now }
    {
        self.list.as_slice()
    }

    /// The people, in their order, without taking memory.
    pub fn into_vec(self) -> Vec<Initials>
        ensures { result.items ≡ self }
    {
        self.list
    }
}

impl Clone for InitialsList {
    ghost is_clone = { λ a b. b ≡ a };

    fn clone(&self) -> Result<Self, AllocError> {
        Ok(InitialsList {
            list: self.list.clone()?,
        })
    }
}

/// Items, in the order in which they were added.
#[derive(Drop)]
pub struct ItemList {
    list: Vec<ItemCode>,
}

impl Model for ItemList {
    ghost use Rattle.std.specs.Prelude.{List, ℕ};

    ghost Value = { List (List ℕ) };

    ghost view = { λ s. s.list.items };
}

impl ItemList {
    /// These items, in their order.
    pub fn new(list: Vec<ItemCode>) -> ItemList
        ensures { result ≡ list.items }
    {
        ItemList { list }
    }

    /// A copy of these items, in their order. The error is out of memory.
    pub fn copy_of(alloc: Global, items: &[ItemCode]) -> Result<ItemList, AllocError>
        ensures { IfOk result (λ list. list ≡ items.now) }
    {
        Ok(ItemList {
            list: items.to_vec(alloc)?,
        })
    }

    /// The items, in their order.
    pub fn as_slice(&self) -> &[ItemCode]
        ensures { result.now ≡ self.now }
    {
        self.list.as_slice()
    }

    /// The items, in their order, without taking memory.
    pub fn into_vec(self) -> Vec<ItemCode>
        ensures { result.items ≡ self }
    {
        self.list
    }
}

impl Clone for ItemList {
    ghost is_clone = { λ a b. b ≡ a };

    fn clone(&self) -> Result<Self, AllocError> {
        Ok(ItemList {
            list: self.list.clone()?,
        })
    }
}
