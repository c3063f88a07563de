//! What answers messages.
use crate::response::Response;
use kcr_wire::RouteTable;
use std::alloc::Global;
use std::marker::Model;

/// What the register is asked by a message. To clauses it is the `Request` of `specs/Run`.
#[derive(Drop)]
pub(crate) struct Request<'a> {
    pub(crate) method: &'a [u8],
    pub(crate) target: &'a [u8],
    pub(crate) body: &'a [u8],
}

impl<'a> Model for Request<'a> {
    ghost use Rattle.kcr_desk.specs.Run.{Request};

    ghost Value = { Request };

    ghost view = { λ asked. record { method = asked.method.now; target = asked.target.now; body = asked.body.now } };
}

/// What answers messages.
pub(crate) trait Responder {
    ghost use Rattle.kcr_desk.specs.{Run.Request, Texts.ResponseValue, Responses.response_value};

    /// What a message may be told, and what it leaves.
    ghost step: { Self → Request → ResponseValue → Self → Type 0 };

    /// Answers a message. `paths` is the table of routes, made at the first
    /// message that needs it and kept for the stream.
    fn respond(
        &mut self,
        alloc: Global,
        paths: &mut Option<RouteTable>,
        asked: &Request<'_>,
    ) -> Response
        ensures { step self.old asked.now (response_value result) self.new };
}
