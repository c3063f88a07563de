//! Requests and answers of the register: the paths that it has, commands and inquiries read off a request's method,
//! target and JSON body, and the JSON of what is answered; acts read again from the texts that the register keeps of
//! them; and commands written as the requests that they came as.
//!
//! A kept text is the path of the command's request, then the members of its body, each on a line of its own. So one
//! table of routes (`RouteTable`) reads the paths of requests and of kept texts.
//!
//! The request of a command has its path, and a body with the key first and then the members in the order in which the
//! API lists them.
#![tactic(auto)]

mod act_reader;
mod after;
pub mod allow;
mod body;
mod body_members;
mod body_text;
pub mod command;
pub mod endpoint;
pub mod method;
mod path_part;
pub mod question;
pub mod request;
pub mod route;
pub mod shown_json;
pub mod unread;

pub use after::After;
pub use allow::Allow;
pub use body_text::write_body;
pub use endpoint::RouteTable;
pub use method::Method;
pub use question::Inquiry;
pub use request::write_request;
pub use shown_json::{write_refusal, write_shown};
pub use unread::Unread;
