//! A connection of the operator's: one request.
ghost use Rattle.std.specs.Prelude.{◌≡◌, true, string_bytes, IfSome};
ghost use Rattle.operator.specs.Answers.{refusal, response_of_kind};
ghost use Rattle.operator.specs.Operations.{AnswersUnheard, DoesAsked, IsSent, Operates};
ghost use Rattle.operator.specs.Operations as spec;
ghost use Rattle.server.specs.Http.{Passes};
ghost use Rattle.registry.specs.Execution.{IsUnchanged, ShowsBacklog};
ghost use Rattle.books.specs.Book.{Follows};

use crate::answer::{Kind, Outcome, outcome_of, response};
use crate::figures::{Figures, figures_of};
use crate::hearing::{Heard, Unheard, hear};
use crate::orders::order_at;
use crate::request::Asked;
use accounts::Lines;
use basis::registrar::RegistrarNo;
use books::Book;
use calendar::Moment;
use frames::Clock;
use registry::{Backlog, Registry};
use server::zone_on;
use statements::{Extract, statement};
use std::alloc::Global;
use std::io::{Read, Write};
use streams::{WriteFault, write_whole};

/// How a connection of the operator's ended.
#[derive(Clone, Copy, Debug, PartialEq, Eq)]
pub enum RequestEnd {
    /// Its request was answered.
    Answered,
    /// A beginning of the answer went out, and not the whole.
    Cut,
    /// Nothing was answered.
    Unanswered,
}

/// Serves one request of whoever has these credentials, up to its answer. What it asks for is done, and kept,
/// before its answer goes out. Who doesn't have them is refused, and nothing is done.
pub fn serve_request<R: Read, W: Write, C: Clock, F: Figures, B: Book + Drop>(
    alloc: Global,
    credentials: &[u8],
    figures: &F,
    reader: &mut R,
    writer: &mut W,
    clock: &mut C,
    registry: &mut Registry<B>,
) -> RequestEnd
    ensures served { Operates registry.old.policy credentials.now (R.remaining reader.old)
        (C.moments clock.old) (B.state registry.old.book) (W.contents writer.old)
        (W.contents writer.new) (C.moments clock.new) (B.state registry.new.book) result }
    ensures follows { Follows (B.state registry.old.book) (B.state registry.new.book) }
    ensures policy { registry.new.policy ≡ registry.old.policy }
{
    match hear(alloc, registry.policy(), credentials, reader) {
        Ok(heard) => {
            let Heard { asked, body } = heard;
            answer(alloc, figures, asked, &body, writer, clock, registry)
        }
        Err(why) => answer_unheard(alloc, why, writer),
    }
}

/// Answers where no request was heard.
fn answer_unheard<W: Write>(alloc: Global, why: Unheard, writer: &mut W) -> RequestEnd
    ensures { AnswersUnheard why (W.contents writer.old) (W.contents writer.new) result }
{
    match why {
        Unheard::Headless => refuse(alloc, Outcome::Malformed, writer),
        Unheard::Lost => RequestEnd::Unanswered,
    }
}

/// Does what is asked, and answers.
fn answer<W: Write, C: Clock, F: Figures, B: Book + Drop>(
    alloc: Global,
    figures: &F,
    asked: Asked,
    body: &[u8],
    writer: &mut W,
    clock: &mut C,
    registry: &mut Registry<B>,
) -> RequestEnd
    ensures does { DoesAsked registry.old.policy asked body.now (C.moments clock.old)
        (C.moments clock.new) (B.state registry.old.book) (B.state registry.new.book)
        (W.contents writer.old) (W.contents writer.new) result }
    ensures follows { Follows (B.state registry.old.book) (B.state registry.new.book) }
    ensures policy { registry.new.policy ≡ registry.old.policy }
{
    match asked {
        Asked::Order(_) => answer_order(alloc, body, writer, clock, registry),
        Asked::Zone => answer_zone(alloc, writer, clock, registry),
        Asked::Metrics => answer_metrics(alloc, figures, writer, clock, registry),
        Asked::Statement(extract) => answer_statement(alloc, extract, writer, clock, registry),
        Asked::Refused(why) => refuse(alloc, outcome_of(why), writer),
    }
}

/// Carries out an order at the clock's moment, and answers.
fn answer_order<W: Write, C: Clock, B: Book + Drop>(
    alloc: Global,
    body: &[u8],
    writer: &mut W,
    clock: &mut C,
    registry: &mut Registry<B>,
) -> RequestEnd
    ensures does { spec.DoesOrder registry.old.policy body.now (C.moments clock.old)
        (C.moments clock.new) (B.state registry.old.book) (B.state registry.new.book)
        (W.contents writer.old) (W.contents writer.new) result }
    ensures follows { Follows (B.state registry.old.book) (B.state registry.new.book) }
    ensures policy { registry.new.policy ≡ registry.old.policy }
{
    let moment = clock.moment();
    let ordered = order_at(alloc, registry, moment, body);
    send(alloc, ordered.outcome, Kind::Json, &ordered.text, writer)
}

/// Sends the zone at the clock's moment.
fn answer_zone<W: Write, C: Clock, B: Book + Drop>(
    alloc: Global,
    writer: &mut W,
    clock: &mut C,
    registry: &mut Registry<B>,
) -> RequestEnd
    ensures does { spec.DoesZone registry.old.policy (C.moments clock.old) (C.moments clock.new)
        (B.state registry.old.book) (B.state registry.new.book) (W.contents writer.old)
        (W.contents writer.new) result }
    ensures follows { Follows (B.state registry.old.book) (B.state registry.new.book) }
    ensures policy { registry.new.policy ≡ registry.old.policy }
{
    let moment = clock.moment();
    match zone_at(alloc, registry, moment) {
        Some(text) => send(alloc, Outcome::Done, Kind::Dns, &text, writer),
        None => refuse(alloc, Outcome::Failed, writer),
    }
}

/// The text of the zone at a moment.
fn zone_at<B: Book + Drop>(
    alloc: Global,
    registry: &mut Registry<B>,
    moment: Moment,
) -> Option<Vec<u8>>
    ensures text { IfSome result (λ text. spec.IsZone registry.old.policy moment
        (B.state registry.old.book) (B.state registry.new.book) text.items) }
    ensures passes { Passes registry.old.policy moment (B.state registry.old.book)
        (B.state registry.new.book) }
    ensures policy { registry.new.policy ≡ registry.old.policy }
{
    let mut text = Vec::new(alloc);
    match zone_on(alloc, registry, moment, &mut text) {
        Ok(()) => Some(text),
        Err(_) => None,
    }
}

/// Sends the statement of an account at the clock's moment.
fn answer_statement<W: Write, C: Clock, B: Book + Drop>(
    alloc: Global,
    extract: Extract,
    writer: &mut W,
    clock: &mut C,
    registry: &mut Registry<B>,
) -> RequestEnd
    ensures does { spec.DoesStatement registry.old.policy extract (C.moments clock.old)
        (C.moments clock.new) (B.state registry.old.book) (B.state registry.new.book)
        (W.contents writer.old) (W.contents writer.new) result }
    ensures follows { Follows (B.state registry.old.book) (B.state registry.new.book) }
    ensures policy { registry.new.policy ≡ registry.old.policy }
{
    let moment = clock.moment();
    match statement_at(alloc, registry, moment, extract) {
        Some(text) => send(alloc, Outcome::Done, Kind::Csv, text.as_bytes(), writer),
        None => refuse(alloc, Outcome::Failed, writer),
    }
}

/// The statement of an account at a moment.
fn statement_at<B: Book + Drop>(
    alloc: Global,
    registry: &mut Registry<B>,
    moment: Moment,
    extract: Extract,
) -> Option<String>
    ensures text { IfSome result (λ text. spec.IsStatement registry.old.policy extract moment
        (B.state registry.old.book) (B.state registry.new.book) (string_bytes text)) }
    ensures passes { Passes registry.old.policy moment (B.state registry.old.book)
        (B.state registry.new.book) }
    ensures policy { registry.new.policy ≡ registry.old.policy }
{
    let lines = lines_at(registry, moment, extract.registrar)?;
    statement(alloc, &lines, extract.bounds).ok()
}

/// The lines of an account at a moment.
fn lines_at<B: Book + Drop>(
    registry: &mut Registry<B>,
    moment: Moment,
    registrar: RegistrarNo,
) -> Option<Lines>
    ensures lines { IfSome result (λ lines. (B.state registry.new.book).is_clean ≡ true
        → lines ≡ spec.lines_at registry.old.policy registrar moment (B.state registry.old.book)) }
    ensures passes { Passes registry.old.policy moment (B.state registry.old.book)
        (B.state registry.new.book) }
    ensures policy { registry.new.policy ≡ registry.old.policy }
{
    registry.lines(registrar, moment).ok()
}

/// Sends figures of the program and of the registry at the clock's moment.
fn answer_metrics<W: Write, C: Clock, F: Figures, B: Book + Drop>(
    alloc: Global,
    figures: &F,
    writer: &mut W,
    clock: &mut C,
    registry: &mut Registry<B>,
) -> RequestEnd
    ensures does { spec.DoesMetrics registry.old.policy (C.moments clock.old) (C.moments clock.new)
        (B.state registry.old.book) (B.state registry.new.book) (W.contents writer.old)
        (W.contents writer.new) result }
    ensures follows { Follows (B.state registry.old.book) (B.state registry.new.book) }
    ensures policy { registry.new.policy ≡ registry.old.policy }
{
    let moment = clock.moment();
    match backlog_at(registry, moment) {
        Some(backlog) => send_figures(alloc, figures, backlog, writer),
        None => refuse(alloc, Outcome::Failed, writer),
    }
}

/// Sends figures of the program and of a registry.
fn send_figures<W: Write, F: Figures>(
    alloc: Global,
    figures: &F,
    backlog: Backlog,
    writer: &mut W,
) -> RequestEnd
    ensures { spec.IsFigures backlog (W.contents writer.old) (W.contents writer.new) result }
{
    match figures_of(alloc, figures, backlog) {
        Ok(text) => send(
            alloc,
            Outcome::Done,
            Kind::Prometheus,
            text.as_bytes(),
            writer,
        ),
        Err(_) => refuse(alloc, Outcome::Failed, writer),
    }
}

/// What waits in the registry at a moment.
fn backlog_at<B: Book + Drop>(registry: &mut Registry<B>, moment: Moment) -> Option<Backlog>
    ensures backlog { IfSome result (λ backlog. ShowsBacklog registry.old.policy moment backlog
        (B.state registry.old.book) (B.state registry.new.book)) }
    ensures same { IsUnchanged (B.state registry.old.book) (B.state registry.new.book) }
    ensures follows { Follows (B.state registry.old.book) (B.state registry.new.book) }
    ensures policy { registry.new.policy ≡ registry.old.policy }
{
    registry.backlog(moment).ok()
}

/// Answers that nothing is done.
fn refuse<W: Write>(alloc: Global, outcome: Outcome, writer: &mut W) -> RequestEnd
    ensures { IsSent (refusal outcome) (W.contents writer.old) (W.contents writer.new) result }
{
    send(
        alloc,
        outcome,
        Kind::Plain,
        outcome.status().as_bytes(),
        writer,
    )
}

/// Sends an answer.
fn send<W: Write>(
    alloc: Global,
    outcome: Outcome,
    kind: Kind,
    body: &[u8],
    writer: &mut W,
) -> RequestEnd
    ensures { IsSent (response_of_kind outcome kind body.now) (W.contents writer.old) (W.contents writer.new)
        result }
{
    let Ok(answer) = response(alloc, outcome, kind, body) else {
        return RequestEnd::Unanswered;
    };
    match write_whole(writer, &answer) {
        Ok(()) => RequestEnd::Answered,
        Err(WriteFault) => RequestEnd::Cut,
    }
}
