//! A session over a service.
ghost use Rattle.std.specs.Prelude.{◌≡◌, IfErr, IfOk, IfSome, MatchResult, None, Some};
ghost use Rattle.prt_published.specs.Line.{Begins, line_state};
ghost use Rattle.prt_listing.specs.QueryText.{query_text};
ghost use Rattle.prt_refusals.specs.declared.on_refusal.OnRefusal.TheVariants.{GoOn};
ghost use Rattle.prt_serve.specs.Requests.{service_may, service_turn};
ghost use Rattle.prt_serve.specs.Serving.{Serves};
ghost use Rattle.prt_session.specs.Run.{RunIs};

use crate::connection::Pipeline;
use crate::context::{ServiceContext, Serving};
use crate::gate::Gated;
use prt_command::{Query, Request};
use prt_listing::query_text;
use prt_service::Looker;
use prt_session::{Executor, Form, OnRefusal, Refusal, Reply, ScriptEnd, Text, run_session};
use prt_version::Version;
use std::alloc::Global;
use std::io::{Read, Write};
use std::net::SocketAddr;

/// A looker that executes the requests of a session as the service's guest.
#[derive(Drop)]
struct Visit<'l, 'v, C: Serving> {
    looker: &'l mut Looker,
    context: ServiceContext<'v, C>,
    /// What the ends of the connection report, if they do. Behind a reference, since the prover loses a looker beside an
    /// enum that holds one.
    pipeline: &'v Option<&'v Pipeline>,
}

/// Has the looker hold the published version, unless it holds one already: that was fetched after the line that is executed
/// had come. What it holds is all that it knows.
///
/// # Errors
///
/// Those of `Looker::refresh`; it stays offline, and may know more.
fn go_online<C: Serving>(
    context: &ServiceContext<'_, C>,
    looker: &mut Looker,
) -> Result<(), Refusal>
    requires held { IfSome looker.old.held (λ line. line ≡ looker.old.known) }
    requires of { (looker.old.known.book ≡ C.Brand.book) × (looker.old.known.base ≡ C.Brand.base) }
    ensures known { Begins looker.old.known looker.new.known }
    ensures held { MatchResult result (λ _. looker.new.held ≡ Some looker.new.known) (λ _. looker.new.held ≡ None) }
    ensures reason { IfErr result (λ reason. reason ≡ Refusal.NotFetched) }
{
    if looker.is_online() {
        return Ok(());
    }
    looker.refresh(context.rt, context.service)
}

/// Has the looker hold nothing. What it knows stays.
fn go_offline<C: Serving>(context: &ServiceContext<'_, C>, looker: &mut Looker)
    requires { (looker.old.known.book ≡ C.Brand.book) × (looker.old.known.base ≡ C.Brand.base) }
    ensures known { looker.new.known ≡ looker.old.known }
    ensures held { looker.new.held ≡ None }
{
    if looker.is_online() {
        looker.rest(context.rt, context.service);
    }
}

/// Checks whether the next line is executed before anything waits for the client, the writing of this answer included. That
/// line came before the version that answered was fetched.
fn goes_on_after(pipeline: Option<&Pipeline>, answered: &Result<Text, Refusal>) -> bool {
    match (pipeline, answered) {
        (Some(pipeline), Ok(text)) => pipeline.goes_on_after(text.as_slice().len()),
        _ => false,
    }
}

/// Builds the lines that answer a query from a version.
///
/// # Errors
///
/// `NoMemory` if memory is refused.
fn answer_from(alloc: Global, version: &Version, query: &Query) -> Result<Text, Refusal>
    ensures text { IfOk result (λ text. text ≡ query_text version.now query.now) }
    ensures reason { IfErr result (λ reason. reason ≡ Refusal.NoMemory) }
{
    let mut text = Vec::new(alloc);
    query_text(&mut text, version, query)?;
    Ok(Text::new(text))
}

/// Answers a query from the version that a looker holds. An answer on a packet is made while it is held, and the looker
/// stays online for the next line if nothing waits before that. It goes offline before it makes a listing, which may take
/// long.
fn answer<C: Serving>(
    context: &ServiceContext<'_, C>,
    pipeline: Option<&Pipeline>,
    looker: &mut Looker,
    query: &Query,
) -> Result<Text, Refusal>
    requires held { looker.old.held ≡ Some looker.old.known }
    requires of { (looker.old.known.book ≡ C.Brand.book) × (looker.old.known.base ≡ C.Brand.base) }
    ensures text { IfOk result (λ text. text ≡ query_text (line_state looker.old.known) query.now) }
    ensures reason { IfErr result (λ reason. reason ≡ Refusal.NoMemory) }
    ensures known { looker.new.known ≡ looker.old.known }
    ensures held { IfSome looker.new.held (λ line. line ≡ looker.new.known) }
{
    if let Query::Get(_) = query {
        let answered = answer_from(context.alloc, looker.version(), query);
        if !goes_on_after(pipeline, &answered) {
            go_offline(context, looker);
        }
        answered
    } else {
        let version = looker.keep(context.rt, context.service);
        answer_from(context.alloc, &version, query)
    }
}

/// The looker submits each command and learns its receipt, and looks again for a
/// query, unless it is online still. From one line to the next it stays online only if nothing waits for the client between
/// them, so a client that doesn't read its replies holds back no version. It is offline while a command is submitted.
impl<'l, 'v, C: Serving> Executor for Visit<'l, 'v, C> {
    ghost use Rattle.std.specs.Prelude.{◌≡◌, IfSome};
    ghost use Rattle.prt_published.specs.Line.{Line};
    ghost use Rattle.prt_serve.specs.Requests.{Event, service_may, service_turn};
    ghost use Rattle.prt_serve.specs.Growing.{Grows, grows_over_all};
    ghost use Rattle.prt_session.specs.Preorder.{at_part};

    ghost Desk = { Line };

    ghost Mishap = { Event };

    ghost turn = { service_turn };

    ghost may = { service_may };

    ghost stands = { λ visit line. line ≡ visit.looker.now.known };

    ghost keeps = { λ old new. (new.looker.ghost_name ≡ old.looker.ghost_name) × Grows old.looker.now new.looker.now };

    ghost keeps_over_all = { at_part (λ visit. visit.looker.ghost_name) (λ visit. visit.looker.now) grows_over_all };

    ghost fits = { λ visit.
        (visit.looker.now.known.book ≡ C.Brand.book) × (visit.looker.now.known.base ≡ C.Brand.base)
        × IfSome visit.looker.now.held (λ line. line ≡ visit.looker.now.known) };

    fn execute(&mut self, request: &Request) -> Reply {
        match request {
            Request::Command(command) => {
                go_offline(&self.context, self.looker);
                match self.context.service.submit(self.context.rt, command) {
                    Ok(receipt) => {
                        let number = receipt.number();
                        self.looker.learn(receipt);
                        Reply::Accepted(number)
                    }
                    Err(reason) => Reply::Refused(reason),
                }
            }
            Request::Query(query) => {
                if let Err(reason) = go_online(&self.context, self.looker) {
                    return Reply::Refused(reason);
                }
                match answer(&self.context, *self.pipeline, self.looker, query) {
                    Ok(text) => Reply::Answered(text),
                    Err(reason) => Reply::Refused(reason),
                }
            }
        }
    }

    fn pass(&mut self) {
        go_offline(&self.context, self.looker);
    }
}

/// Runs the session of a looker that is offline: executes each line and replies to it before the next is read.
fn run_visit<C: Serving, R: Read, W: Write>(
    context: &ServiceContext<'_, C>,
    looker: &mut Looker,
    pipeline: Option<&Pipeline>,
    gated: &mut Gated<'_, C::Gate>,
    reader: &mut R,
    writer: &mut W,
) -> ScriptEnd
    requires of { (looker.old.known.book ≡ C.Brand.book) × (looker.old.known.base ≡ C.Brand.base) }
    requires offline { looker.old.held ≡ None }
    ensures of { (looker.new.known.book ≡ C.Brand.book) × (looker.new.known.base ≡ C.Brand.base) }
    ensures run { RunIs service_turn service_may GoOn looker.old.known looker.new.known (R.remaining reader.old) (R.remaining reader.new)
        (W.contents writer.old) (W.contents writer.new) result }
{
    let mut visit = Visit {
        looker: &mut *looker,
        context: *context,
        pipeline: &pipeline,
    };
    run_session(
        &mut visit,
        reader,
        writer,
        Form::Plain,
        OnRefusal::GoOn,
        gated,
    )
}

/// Serves one session: executes each line and replies to it before the next is read, and goes on after a refused line.
///
/// A query is answered from a version that was fetched after its line had come, and that has what the looker knew; after an
/// accepted command it learns the receipt. It is online only while nothing waits for the client, and offline at the end.
/// Only an answer takes memory of the context's `alloc` beside the command's own; if there is none, its query alone is refused. The session
/// ends as `run_session` says; what the gate does beside waiting is no part of it.
///
/// `pipeline` is what the two ends report, if they do. Without it each query is answered from a version of its own.
pub fn serve_session<C: Serving, R: Read, W: Write>(
    context: &ServiceContext<'_, C>,
    looker: &mut Looker,
    session: u64,
    client: SocketAddr,
    pipeline: Option<&Pipeline>,
    reader: &mut R,
    writer: &mut W,
) -> ScriptEnd
    requires { (looker.old.known.book ≡ C.Brand.book) × (looker.old.known.base ≡ C.Brand.base) }
    ensures of { (looker.new.known.book ≡ C.Brand.book) × (looker.new.known.base ≡ C.Brand.base) }
    ensures offline { (looker.new.held ≡ None) × (looker.new.announced ≡ None) }
    ensures served { Serves looker.old.known looker.new.known (R.remaining reader.old) (R.remaining reader.new)
        (W.contents writer.old) (W.contents writer.new) result }
{
    looker.rest(context.rt, context.service);
    let mut gated = Gated {
        gate: context.gate,
        session,
        client,
    };
    let end = run_visit(context, looker, pipeline, &mut gated, reader, writer);
    looker.rest(context.rt, context.service);
    end
}
