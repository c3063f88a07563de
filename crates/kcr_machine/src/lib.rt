//! How commands are decided: over the rows that a command asks for, which rows to put into the tables and what to
//! reply, or the first reason why it is refused.
//!
//! All 19 kinds are decided; `kcr_rules` decides each by the rows. `decide` is the machine's step over
//! every history that the machine leads to. The register takes this step in parts, so that it reads fewer rows:
//! `decide_repeat` for a key that has a row, `check_early` and `decide_new` for a new one. The proofs here join rows and
//! histories.
#![tactic(auto)]

mod decision;
mod whole;

pub use decision::{check_early, decide_new, decide_repeat};
pub use kcr_audit::audit;
// All rows, as `decide` and `audit` take them. What `kcr_history` calls a view is the part of them in `asked`.
pub use kcr_history::{
    Act, Asks, Change, Command, Deed, Finding, FullView as View, Reply, Selection, Verdict, asks,
    command_text,
};
pub use whole::decide;
