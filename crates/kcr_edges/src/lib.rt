//! The edges: what the program does with files and sockets of the system.
//!
//! - A register's file and the log beside it, read into memory: `copy_of` reads both files as they were at one moment,
//!   and refuses a log that was damaged. `connect` connects to a database over those bytes. Nothing is written to the
//!   files. `play_in` makes one file of both, and `fill` writes a new file.
//! - Whether the files of an open register are still there: another program may remove, cut or replace them (`Watch`,
//!   `Watched`).
//! - How long a connection is waited for: a reader and a writer of a socket that share one `Patience`.
#![tactic(auto)]

mod files;
mod memory;
mod noted;
mod packing;
mod patience;
mod reading;
mod socket;
mod watch;
mod watched;

pub use memory::{CopyConnection, connect, have_failed};
pub use noted::CopyFile;
pub use packing::{Unmade, fill, play_in};
pub use patience::{Patience, TimedReader, TimedWriter};
pub use reading::{Copied, Unread, copy_of};
pub use socket::{Accepted, Socket};
pub use watch::Watch;
pub use watched::{Files, Watched};
