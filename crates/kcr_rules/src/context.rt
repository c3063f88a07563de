//! What an act is decided by, as one value.
use kcr_history::View;
use std::alloc::Global;

/// What an act is decided by: the rows that were read for it, and whether the register takes more commands.
#[derive(Drop)]
pub struct DecisionContext<'a> {
    /// The memory that the rows to put are made in.
    pub alloc: Global,
    /// The rows that the act asks for, in any order.
    pub view: &'a View,
    /// Whether the register takes no more commands.
    pub is_full: bool,
}
