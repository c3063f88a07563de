//! The desk of the register of root zone key ceremonies: a stream of HTTP requests in, a stream of answers out.
//!
//! A stream is cut into messages from its front (RFC 9112, in the part that `specs/Stream` states), each message is
//! answered by the register, and the answers go out in the order of the messages.
#![tactic(auto)]

mod answer;
pub mod connection;
pub mod desk;
pub mod fault;
pub mod head;
mod input_buffer;
mod members;
mod output;
mod output_buffer;
mod page;
mod responder;
pub mod response;
pub mod stream;

pub use connection::{Ended, one};
pub use desk::serve;
pub use fault::DeskFault;
pub use stream::Served;
