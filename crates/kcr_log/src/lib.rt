//! What a write-ahead log is, as bytes: sound so far as it is read, or damaged after it was safe.
//!
//! A log is read up to its first frame that does not check, since a stop can leave a transaction in part. So a wrong
//! byte would cut off in silence all that lies behind it. Here such a log is told from one that a stop left, by how the
//! engine (`sqlite_wal`) writes one:
//!
//! - A transaction over zeros that are safe is written at once. Its first frame counts its bytes. All transactions before
//!   such a frame are safe, so a wrong frame before it was safe too.
//! - Any other transaction is written behind a frame that is shut, and that frame is opened once all of it is safe. So
//!   a wrong frame behind one that is open was safe. A transaction of over 2,000 pages is written in parts, which each
//!   end as a transaction does, and parts of one that was given up stay where they are: behind a frame that is shut, and
//!   behind a counted transaction, such ends tell nothing.
//! - Once the file has all pages of the log, a new head with other salts is written over the old one. The older frames
//!   stay where they are. They have other salts than the head, so they never count. While the head is written, its first
//!   byte is 0: if the frames then hold a page that the file does not have, the head was lost otherwise.
//!
//! That no stop leaves a damaged log is proved in `proofs/Laws.antt`.
//!
//! A log that was seen before may have been begun anew since: `is_begun_anew` tells this from another log.
#![tactic(auto)]

mod begun_anew;
mod frames;
mod judgement;
mod later;
mod pages;

pub use begun_anew::is_begun_anew;
pub use frames::{FRAME_HEAD_SIZE, HEAD_SIZE, number_at};
pub use judgement::{Log, judge};
