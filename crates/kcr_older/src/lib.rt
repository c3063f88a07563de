//! Registers of older versions, migrated to this version, and what a database is. That the stays follow from the sheet is
//! proved in `proofs/Filling.antt`.
#![tactic(auto)]

mod backfill;
mod kind;
mod migration;
mod missing_tables;
mod number;
mod schemas;

pub use kind::{DatabaseKind, database_kind};
pub use migration::{OldVersion, migrate};
pub use number::version_in;
