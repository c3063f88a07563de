//! What the register is asked by a message, and what the message is told.
ghost use Rattle.std.specs.Prelude.{◌≡◌, ◌⊎◌, ◌<◌, ◌≤◌, false, None, Err, IfSome, IsTrue};
ghost use Rattle.kcr_desk.specs.{declared.answer.TheConstants.MAX_FEED_COMMANDS, Responses.response_value};
ghost use Rattle.kcr_forms.specs.Acts.{IsAct};
ghost use Rattle.kcr_store.specs.{Commands.IsQuestionResult, ShownBy.IsQuestionResultBy};
ghost use Rattle.kcr_wire.specs.declared.method.Method.TheVariants.{Ask, Post};
ghost use Rattle.kcr_history.specs.Refusals.{carries};
ghost use Rattle.kcr_base.specs.declared.refusal.Refusal.TheVariants as Refusals;
ghost use Rattle.kcr_desk.specs.Answers.{Answers, AnswersAs, AnswersCommand, AnswersReading, AnswersInquiry};
ghost use Rattle.kcr_desk.specs.Answers.{IsReported, json_response, refusal_response, shown_response, report_response};
ghost use Rattle.kcr_desk.specs.Answers.{RespondsOrMemory, refusal_of, IsFeed, IsFeedByRows, IsReportedByRows, MayBeFed};
ghost use Rattle.kcr_desk.specs.Answers.{outcome_of, MayBeReported, MayBeShown, MayBeText, IsText};
ghost use Rattle.kcr_print.specs.ByRows.{annotated_by, attendance_by, custody_by};
ghost use Rattle.kcr_desk.specs.declared.response.MediaType.TheVariants as kinds;
ghost use Rattle.kcr_history.specs.Prints as prints;

use crate::page::Page;
use crate::responder::{Request, Responder};
use crate::response::{Body, Heading, MediaType, Response, refusal_heading};
use http::StatusCode;
use kcr_base::{CeremonyNumber, Counted, Refusal, Text, Thing};
use kcr_history::{Command, Question, fixed_text};
use kcr_print::{PrintFault, annotated, attendance_csv, custody, export};
use kcr_store::Register;
use kcr_wire::{After, Allow, Inquiry, Method, RouteTable, Unread, write_refusal, write_shown};
use sqlite::Alter;
use std::alloc::Global;

/// 200 with this JSON text.
fn json_response(text: Text) -> Response
    ensures { response_value result ≡ json_response text }
{
    Response {
        heading: Heading {
            status: StatusCode::OK,
            kind: MediaType::Json,
            allow: None,
        },
        body: Body::Made(text),
    }
}

/// Out of memory, which takes none.
fn memory_response() -> Response
    ensures { response_value result ≡ refusal_response None Refusals.Memory }
{
    let Some(text) = fixed_text(&Refusal::Memory) else {
        unreachable!()
    };
    Response {
        heading: refusal_heading(&Refusal::Memory, None),
        body: Body::Fixed(text),
    }
}

/// A refusal, with the methods of the path if it is for the method. Where it carries something, out of memory may be
/// told in its place.
fn refusal_response(alloc: Global, allow: Option<Allow>, refusal: &Refusal) -> Response
    ensures { (response_value result ≡ refusal_response allow refusal.now)
        ⊎ (IsTrue (carries refusal.now) × (response_value result ≡ refusal_response None Refusals.Memory)) }
{
    let heading = refusal_heading(refusal, allow);
    if let Some(text) = fixed_text(refusal) {
        return Response {
            heading,
            body: Body::Fixed(text),
        };
    }
    match write_refusal(alloc, refusal) {
        Ok(text) => {
            Response {
                heading,
                body: Body::Made(text),
            }
        }
        Err(_) => memory_response(),
    }
}

/// Has the register take a command, and tells its reply.
fn answer_command<S: Alter>(
    alloc: Global,
    register: &mut Register<S>,
    command: &Command,
) -> Response
    requires { IsAct command.now.act }
    ensures { AnswersCommand S.Store register.old (response_value result) register.new command.now }
{
    match register.apply(command) {
        Ok(reply) => json_response(reply.text),
        Err(refusal) => refusal_response(alloc, None, &refusal),
    }
}

/// Asks the register a question, and tells what it shows.
fn answer_question<S: Alter>(
    alloc: Global,
    register: &mut Register<S>,
    question: &Question,
) -> Response
    ensures { AnswersReading S.Store register.old (response_value result) register.new
        shown_response (MayBeShown question.now) (λ A shown. IsQuestionResult A question.now shown)
        (λ t shown. IsQuestionResultBy t.rows question.now shown) }
{
    match register.look(question) {
        Ok(shown) => {
            match write_shown(alloc, &shown) {
                Ok(text) => json_response(text),
                Err(_) => memory_response(),
            }
        }
        Err(refusal) => refusal_response(alloc, None, &refusal),
    }
}

/// Why a report was not printed whole into memory, if a write fails because memory ran out.
fn refusal_of(fault: PrintFault) -> Refusal
    ensures { result ≡ refusal_of fault }
{
    match fault {
        PrintFault::Refused(refusal) => refusal,
        PrintFault::Write => Refusal::Memory,
    }
}

/// Tells a report of this kind that was printed into memory, or why it was not printed whole.
fn report_response(
    alloc: Global,
    kind: MediaType,
    text: Vec<u8>,
    outcome: Result<(), PrintFault>,
) -> Response
    ensures { RespondsOrMemory (report_response kind) (outcome_of outcome text.items) (response_value result) }
{
    match outcome {
        Ok(()) => {
            Response {
                heading: Heading {
                    status: StatusCode::OK,
                    kind,
                    allow: None,
                },
                body: Body::Printed(text),
            }
        }
        Err(fault) => refusal_response(alloc, None, &refusal_of(fault)),
    }
}

/// Prints the annotated script of a ceremony into memory, and tells it.
fn answer_script<S: Alter>(
    alloc: Global,
    register: &mut Register<S>,
    ceremony: CeremonyNumber,
) -> Response
    ensures { AnswersReading S.Store register.old (response_value result) register.new
        (report_response kinds.Text) (MayBeReported ceremony) (IsReported prints.annotated ceremony)
        (λ t. IsReportedByRows annotated_by ceremony t.rows) }
{
    let mut page = Counted::new(Vec::new(alloc));
    let outcome = annotated(alloc, register, ceremony, &mut page);
    let text = page.into_inner();
    report_response(alloc, MediaType::Text, text, outcome)
}

/// Prints the attendance of a ceremony into memory, and tells it.
fn answer_attendance<S: Alter>(
    alloc: Global,
    register: &mut Register<S>,
    ceremony: CeremonyNumber,
) -> Response
    ensures { AnswersReading S.Store register.old (response_value result) register.new
        (report_response kinds.Csv) (MayBeReported ceremony) (IsReported prints.attendance ceremony)
        (λ t. IsReportedByRows attendance_by ceremony t.rows) }
{
    let mut page = Counted::new(Vec::new(alloc));
    let outcome = attendance_csv(alloc, register, ceremony, &mut page);
    let text = page.into_inner();
    report_response(alloc, MediaType::Csv, text, outcome)
}

/// Prints custody into memory, and tells it.
fn answer_custody<S: Alter>(alloc: Global, register: &mut Register<S>) -> Response
    ensures { AnswersReading S.Store register.old (response_value result) register.new
        (report_response kinds.Text) MayBeText (IsText prints.custody) (λ t. IsText custody_by t.rows) }
{
    let mut page = Counted::new(Vec::new(alloc));
    let outcome = custody(alloc, register, &mut page);
    let text = page.into_inner();
    report_response(alloc, MediaType::Text, text, outcome)
}

/// The most commands of one answer.
const MAX_FEED_COMMANDS: u32 = 1_000;

/// Whether the client has more commands than the register, which is not broken.
fn is_ahead<S: Alter>(register: &Register<S>, after: After) -> bool
    ensures ahead { IsTrue result → (register.now.is_broken ≡ false) × (register.now.last_number < after) }
    ensures behind { result ≡ false → register.now.is_broken ≡ false → after ≤ register.now.last_number }
{
    !register.is_broken() && register.last_number() < after.get()
}

/// Tells that no command with this number was accepted.
fn answer_unknown<S: Alter>(alloc: Global, register: &Register<S>, after: After) -> Response
    requires unbroken { register.now.is_broken ≡ false }
    requires few { register.now.last_number < after }
    ensures { AnswersReading S.Store register.now (response_value result) register.now
        (report_response kinds.Text) (MayBeFed after) (IsFeed after) (IsFeedByRows after) }
{
    // Any use of a register tells that it is whole.
    let _ = register.is_broken();
    let thing = Thing::Command(after.get());
    refusal_response(alloc, None, &Refusal::Unknown { thing })
}

/// Writes the requests of this many commands behind those that the client has into memory, and tells them.
fn answer_count<S: Alter>(
    alloc: Global,
    register: &mut Register<S>,
    after: After,
    count: u32,
) -> Response
    requires enough { register.old.is_broken ≡ false → after ≤ register.old.last_number }
    requires some { 0 < count }
    requires most { count ≤ MAX_FEED_COMMANDS }
    ensures { AnswersReading S.Store register.old (response_value result) register.new
        (report_response kinds.Text) (MayBeFed after) (IsFeed after) (IsFeedByRows after) }
{
    let after = after.get();
    let mut page = Counted::new(Vec::new(alloc));
    let outcome = export(alloc, register, after, after + count, &mut page);
    let text = page.into_inner();
    report_response(alloc, MediaType::Text, text, outcome)
}

/// Tells this many commands behind those that the client has, unless it has more than were accepted.
fn answer_some<S: Alter>(
    alloc: Global,
    register: &mut Register<S>,
    after: After,
    count: u32,
) -> Response
    requires some { 0 < count }
    requires most { count ≤ MAX_FEED_COMMANDS }
    ensures { AnswersReading S.Store register.old (response_value result) register.new
        (report_response kinds.Text) (MayBeFed after) (IsFeed after) (IsFeedByRows after) }
{
    if is_ahead(register, after) {
        answer_unknown(alloc, register, after)
    } else {
        answer_count(alloc, register, after, count)
    }
}

/// How many commands a page took, if an export ended because the next one did not fit.
fn fitting(outcome: &Result<(), PrintFault>, page: &Page) -> Option<u32>
    ensures cause { IfSome result (λ _. outcome.now ≡ Err PrintFault.Write) }
    ensures some { IfSome result (λ count. 0 < count) }
    ensures most { IfSome result (λ count. count ≤ MAX_FEED_COMMANDS) }
{
    match outcome {
        Err(PrintFault::Write) => {
            if page.is_full() {
                Some(page.writes().max(1).min(MAX_FEED_COMMANDS))
            } else {
                None
            }
        }
        _ => None,
    }
}

/// Writes the requests of the commands behind those that the client has onto a page, and tells them. If the page is full
/// before all are written, those that fit are told.
fn answer_feed<S: Alter>(alloc: Global, register: &mut Register<S>, after: After) -> Response
    requires enough { register.old.is_broken ≡ false → after ≤ register.old.last_number }
    ensures { AnswersReading S.Store register.old (response_value result) register.new
        (report_response kinds.Text) (MayBeFed after) (IsFeed after) (IsFeedByRows after) }
{
    let first = after.get();
    let mut page = Counted::new(Page::new(alloc));
    let outcome = export(alloc, register, first, first + MAX_FEED_COMMANDS, &mut page);
    let page = page.into_inner();
    match fitting(&outcome, &page) {
        Some(count) => {
            drop(page);
            answer_some(alloc, register, after, count)
        }
        None => {
            let text = page.into_text();
            report_response(alloc, MediaType::Text, text, outcome)
        }
    }
}

/// Tells the commands behind those that the client has, at most 1,000, or as many as fit on a page. A client that has
/// more than were accepted is told that its last one is unknown: it followed another register.
fn answer_commands<S: Alter>(alloc: Global, register: &mut Register<S>, after: After) -> Response
    ensures { AnswersReading S.Store register.old (response_value result) register.new
        (report_response kinds.Text) (MayBeFed after) (IsFeed after) (IsFeedByRows after) }
{
    if is_ahead(register, after) {
        answer_unknown(alloc, register, after)
    } else {
        answer_feed(alloc, register, after)
    }
}

/// Asks the register for what a GET or HEAD asks for, and tells it.
fn answer_get<S: Alter>(alloc: Global, register: &mut Register<S>, inquiry: Inquiry) -> Response
    ensures { AnswersInquiry S.Store register.old (response_value result) register.new inquiry }
{
    match inquiry {
        Inquiry::Question(question) => answer_question(alloc, register, &question),
        Inquiry::Script(ceremony) => answer_script(alloc, register, ceremony),
        Inquiry::Attendance(ceremony) => answer_attendance(alloc, register, ceremony),
        Inquiry::Custody => answer_custody(alloc, register),
        Inquiry::Commands(after) => answer_commands(alloc, register, after),
    }
}

/// The refusal of a message that could not be read.
fn unread_response(alloc: Global, unread: &Unread) -> Response
    ensures { (response_value result ≡ refusal_response unread.now.allow unread.now.refusal)
        ⊎ (IsTrue (carries unread.now.refusal) × (response_value result ≡ refusal_response None Refusals.Memory)) }
{
    refusal_response(alloc, unread.allow, &unread.refusal)
}

/// A POST is a command.
fn answer_post<S: Alter>(
    alloc: Global,
    register: &mut Register<S>,
    paths: &RouteTable,
    asked: &Request<'_>,
) -> Response
    ensures { AnswersAs Post S.Store register.old asked.now (response_value result) register.new }
{
    match paths.read_command(alloc, asked.target, asked.body) {
        Ok(command) => answer_command(alloc, register, &command),
        Err(unread) => unread_response(alloc, &unread),
    }
}

/// A GET or a HEAD asks for something.
fn answer_inquiry<S: Alter>(
    alloc: Global,
    register: &mut Register<S>,
    paths: &RouteTable,
    asked: &Request<'_>,
) -> Response
    ensures { AnswersAs Ask S.Store register.old asked.now (response_value result) register.new }
{
    match paths.read_question(asked.target) {
        Ok(inquiry) => answer_get(alloc, register, inquiry),
        Err(unread) => unread_response(alloc, &unread),
    }
}

impl<S: Alter> Responder for Register<S> {
    ghost step = { Answers S.Store };

    fn respond(
        &mut self,
        alloc: Global,
        paths: &mut Option<RouteTable>,
        asked: &Request<'_>,
    ) -> Response {
        if paths.is_none() {
            *paths = RouteTable::new(alloc).ok();
        }
        let Some(paths) = paths else {
            return memory_response();
        };
        match Method::of(asked.method) {
            Method::Post => answer_post(alloc, self, paths, asked),
            Method::Ask => answer_inquiry(alloc, self, paths, asked),
            Method::Other => unread_response(alloc, &paths.refuse_method(asked.target)),
        }
    }
}
