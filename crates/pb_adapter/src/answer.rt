//! What is answered to a request.

ghost use Rattle.std.specs.Prelude.{◌≡◌, ◌+◌, ◌<◌, ◌^◌, ◌∷◌, [], ℕ, List, IfOk, OnOk, codes};
ghost use Rattle.serde_json.specs.Data.{null};
ghost use Rattle.serde_json.specs.View.{view};
ghost use Rattle.pb_debug.specs.Value.{moved_to};
ghost use Rattle.pb_adapter_requests.specs.Breakpoints.{asked_lines as asked_by, asks_events as events_asked, breakpoints_data, is_of_text as of_text};
ghost use Rattle.pb_adapter_requests.specs.Requests.{request_view, text_of as text_asked};
ghost use Rattle.pb_adapter_requests.specs.Responses.{done_data, event_data, refused_data, told_by};
ghost use Rattle.pb_adapter.specs.Answers.{Answers, AnswersKind, Client as AnyClient, Evaluates, Says, StepsOn, evaluated_data, event_if_moved, with_lines};
ghost use Rattle.pb_adapter.specs.Moves.{stop_at, stopped_data, stop_view};

use crate::arms::{scopes_at, stack, threads};
use crate::continues::continue_on;
use crate::evaluate::{answer_lines, evaluated};
use crate::moves::{START, Stop, last_breakpoint, last_line, next_line, stopped};
use crate::tries::try_arm;
use crate::variables::variables;
use pb_adapter_requests::{
    Counting, Kind, Reply, Request, alone, answered, asked_lines, asks_events, breakpoints_body,
    done, event, is_of_text, kind_of, number_of, place_of, refused, text_of, with_event,
};
use pb_adapter_values::capabilities;
use pb_base::NoMemory;
use pb_debug::Debugger;
use serde_json::Value;
use std::alloc::Global;
use std::marker::Model;

/// What a client has set, and the path under which the text is shown to it.
#[derive(Drop)]
pub struct Client {
    /// The lines to stop at.
    pub lines: Vec<u32>,
    /// Whether to stop at events.
    pub events: bool,
    pub path: String,
    /// From which numbers it counts.
    pub counting: Counting,
}

impl Model for Client {
    ghost use Rattle.pb_adapter.specs.Answers.{Client};

    ghost Value = { Client };

    ghost view = { λ c. record { lines = c.lines.items; events = c.events; path = c.path.bytes.items; counting = c.counting } };
}

/// Returns the reply that a request is carried out, with what it asks for.
fn show(alloc: Global, seq: u64, request: Request<'_>, body: Value) -> Result<Reply, NoMemory>
    ensures { IfOk result (λ reply. told_by reply ≡ done_data seq (request_view request.entry) (view body) ∷ []) }
{
    Ok(answered(alloc, seq, request, body)?)
}

/// Returns the reply that a request is refused.
fn refuse(alloc: Global, seq: u64, request: Request<'_>, message: &str) -> Result<Reply, NoMemory>
    ensures { IfOk result (λ reply. told_by reply ≡ refused_data seq (request_view request.entry) message.now ∷ []) }
{
    Ok(refused(alloc, seq, request, message)?)
}

/// Returns the stop at a position.
fn stop_here(position: u32, reason: &'static str) -> Stop
    ensures { stop_view result ≡ stop_at position reason.now }
{
    Stop { position, reason }
}

/// Moves the run, and says so.
fn go(
    alloc: Global,
    seq: u64,
    debugger: &mut Debugger<'_>,
    request: Request<'_>,
    stop: Stop,
) -> Result<Reply, NoMemory>
    requires few { seq < 2 ^ 63 }
    ensures moved { IfOk result (λ _. debugger.new ≡ moved_to debugger.old stop.position) }
    ensures told { IfOk result (λ reply. told_by reply ≡ done_data seq (request_view request.entry) null
        ∷ stopped_data (seq + 1) debugger.new stop.reason.now ∷ []) }
{
    match debugger.to(stop.position) {
        Ok(()) => {
            let response = done(alloc, seq, request, Value::Null)?;
            let event = stopped(alloc, seq + 1, debugger, stop.reason)?;
            Ok(with_event(response, event))
        }
        Err(_) => Err(NoMemory),
    }
}

/// Says that the run is over.
fn end_run(alloc: Global, seq: u64, request: Request<'_>) -> Result<Reply, NoMemory>
    requires few { seq < 2 ^ 63 }
    ensures told { IfOk result (λ reply. told_by reply ≡ done_data seq (request_view request.entry) null
        ∷ event_data (seq + 1) (codes "terminated") null ∷ []) }
{
    let response = done(alloc, seq, request, Value::Null)?;
    let event = event(alloc, seq + 1, "terminated", Value::Null)?;
    Ok(with_event(response, event))
}

/// Returns the reply to an expression: what a session answers to it, and an event if the run has moved.
fn tell_evaluated(
    alloc: Global,
    seq: u64,
    debugger: &mut Debugger<'_>,
    request: Request<'_>,
    words: &str,
) -> Result<Reply, NoMemory>
    requires few { seq < 2 ^ 63 }
    ensures { IfOk result (λ reply. (text : List ℕ)
        × Says debugger.old words.now text debugger.new
        × (told_by reply ≡ evaluated_data seq (request_view request.entry) text
        ∷ event_if_moved (seq + 1) debugger.old debugger.new)) }
{
    let position = debugger.position();
    let said = answer_lines(alloc, debugger, words)?;
    let response = evaluated(alloc, seq, request, said.as_slice())?;
    if debugger.position() == position {
        return Ok(alone(response));
    }
    let event = stopped(alloc, seq + 1, debugger, "goto")?;
    Ok(with_event(response, event))
}

/// Answers an expression.
fn answer_evaluate(
    alloc: Global,
    seq: u64,
    debugger: &mut Debugger<'_>,
    request: Request<'_>,
) -> Result<Reply, NoMemory>
    requires few { seq < 2 ^ 63 }
    ensures { IfOk result (λ reply. (c : AnyClient) → Evaluates debugger.old c seq (request_view request.entry)
        (text_asked (codes "expression") (request_view request.entry)) (told_by reply) debugger.new c) }
{
    match text_of(request, "expression") {
        Some(words) => tell_evaluated(alloc, seq, debugger, request, words),
        None => refuse(alloc, seq, request, "there is no expression"),
    }
}

/// Moves the run to where an arm is at another line; where the picks end, by a pick of the arm.
fn step_on(
    alloc: Global,
    seq: u64,
    debugger: &mut Debugger<'_>,
    request: Request<'_>,
) -> Result<Reply, NoMemory>
    requires few { seq < 2 ^ 63 }
    ensures { IfOk result (λ reply. (c : AnyClient)
        → StepsOn debugger.old c seq (request_view request.entry) (told_by reply) debugger.new c) }
{
    let thread = number_of(request, "threadId");
    if debugger.position() == debugger.len() {
        return try_arm(alloc, seq, debugger, request, thread);
    }
    let stop = next_line(debugger, place_of(thread))?;
    go(alloc, seq, debugger, request, stop)
}

/// Sets the lines to stop at, if they are of the text that is launched.
fn set_breakpoints(
    alloc: Global,
    seq: u64,
    debugger: &Debugger<'_>,
    client: &mut Client,
    request: Request<'_>,
) -> Result<Reply, NoMemory>
    ensures told { IfOk result (λ reply. told_by reply ≡ done_data seq (request_view request.entry)
        (breakpoints_data (of_text client.old.path (request_view request.entry)) client.old.counting debugger.now.labels
        (asked_by client.old.counting (request_view request.entry))) ∷ []) }
    ensures set { OnOk result (client.new ≡ with_lines (of_text client.old.path (request_view request.entry)) client.old
        (asked_by client.old.counting (request_view request.entry))) }
{
    let counting = client.counting;
    let own = is_of_text(request, client.path.as_str());
    let lines = asked_lines(alloc, counting, request)?;
    let body = breakpoints_body(alloc, own, counting, debugger.labels(), &lines)?;
    let reply = answered(alloc, seq, request, body)?;
    if own {
        client.lines = lines;
    }
    Ok(reply)
}

/// Sets whether to stop at events.
fn set_events(
    alloc: Global,
    seq: u64,
    client: &mut Client,
    request: Request<'_>,
) -> Result<Reply, NoMemory>
    ensures told { IfOk result (λ reply. told_by reply ≡ done_data seq (request_view request.entry) null ∷ []) }
    ensures set { OnOk result (client.new ≡ record client.old { events = events_asked (request_view request.entry) }) }
{
    let reply = answered(alloc, seq, request, Value::Null)?;
    client.events = asks_events(request);
    Ok(reply)
}

/// Answers a request of a kind.
fn answer_kind(
    alloc: Global,
    seq: u64,
    debugger: &mut Debugger<'_>,
    client: &mut Client,
    request: Request<'_>,
    kind: Kind,
) -> Result<Reply, NoMemory>
    requires few { seq < 2 ^ 63 }
    ensures { IfOk result (λ reply. AnswersKind kind debugger.old client.old seq (request_view request.entry)
        (told_by reply) debugger.new client.new) }
{
    let at = place_of(number_of(request, "threadId"));
    let here = debugger.position();
    match kind {
        Kind::Initialize => show(alloc, seq, request, capabilities(alloc)?),
        Kind::Launch => refuse(alloc, seq, request, "a text is launched already"),
        Kind::SetBreakpoints => set_breakpoints(alloc, seq, debugger, client, request),
        Kind::SetEvents => set_events(alloc, seq, client, request),
        Kind::Disconnect => show(alloc, seq, request, Value::Null),
        Kind::Terminate => end_run(alloc, seq, request),
        Kind::Threads => show(alloc, seq, request, threads(alloc, debugger)?),
        Kind::StackTrace => show(
            alloc,
            seq,
            request,
            stack(alloc, debugger, client.path.as_str(), client.counting, at)?,
        ),
        Kind::Scopes => {
            let of = place_of(number_of(request, "frameId"));
            show(alloc, seq, request, scopes_at(alloc, debugger, of)?)
        }
        Kind::Variables => {
            let reference = number_of(request, "variablesReference");
            show(alloc, seq, request, variables(alloc, debugger, reference)?)
        }
        Kind::Evaluate => answer_evaluate(alloc, seq, debugger, request),
        Kind::Unknown => refuse(alloc, seq, request, "this request is not known"),
        Kind::Continue => continue_on(alloc, seq, debugger, request, &client.lines, client.events),
        Kind::ReverseContinue => {
            let stop = last_breakpoint(debugger, &client.lines)?;
            go(alloc, seq, debugger, request, stop)
        }
        Kind::Step => step_on(alloc, seq, debugger, request),
        Kind::StepBack => {
            let stop = last_line(debugger, at)?;
            go(alloc, seq, debugger, request, stop)
        }
        Kind::Restart => go(alloc, seq, debugger, request, START),
        Kind::Pause => go(alloc, seq, debugger, request, stop_here(here, "pause")),
        Kind::ConfigurationDone => go(alloc, seq, debugger, request, stop_here(here, "entry")),
    }
}

/// Answers a request, by a response and maybe an event, numbered from `seq` on.
pub fn answer_request(
    alloc: Global,
    seq: u64,
    debugger: &mut Debugger<'_>,
    client: &mut Client,
    request: Request<'_>,
) -> Result<Reply, NoMemory>
    requires few { seq < 2 ^ 63 }
    ensures { IfOk result (λ reply. Answers debugger.old client.old seq (request_view request.entry)
        (told_by reply) debugger.new client.new) }
{
    answer_kind(
        alloc,
        seq,
        debugger,
        client,
        request,
        kind_of(request.command),
    )
}
