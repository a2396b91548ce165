//! The lines and the events at which a client wants the run to stop.

ghost use Rattle.std.specs.Prelude.{◌≡◌, ◌++◌, IfOk, OnOk, codes, map, option_map};
ghost use Rattle.std.specs.List.{list_any};
ghost use Rattle.serde_json.specs.View.{view};
ghost use Rattle.pb_code.specs.View.{labels_view};
ghost use Rattle.pb_adapter_requests.specs.Breakpoints as spec;
ghost use Rattle.pb_adapter_requests.specs.Requests.{request_view};
ghost use Rattle.pb_adapter_requests.specs.Responses.{listed};

use crate::counting::{Counting, named_line};
use crate::request::{Request, argument, list_of, number_at, text_at};
use pb_base::NoMemory;
use pb_base::limits::MAX_LINE;
use pb_code::{Labels, ProcessLabels};
use serde_json::{Value, json};
use std::alloc::{AllocError, Global};

/// Returns the line that a breakpoint asks for, counted from 1; 0 if it asks for none.
fn line_in(counting: Counting, value: &Value) -> u32
    ensures { result ≡ spec.line_in counting (view value.now) }
{
    match number_at(value, "line") {
        Some(line) => {
            if line <= u64::from(MAX_LINE) {
                named_line(counting, line as u32)
            } else {
                0
            }
        }
        None => 0,
    }
}

/// Returns the lines that a list of breakpoints asks for.
fn lines_in(alloc: Global, counting: Counting, list: &[Value]) -> Result<Vec<u32>, NoMemory>
    ensures { IfOk result (λ lines. lines.items ≡ spec.lines_in counting (map view list.now)) }
{
    let mut lines = Vec::new(alloc);
    for i in 0..list.len() {
        lines.push(line_in(counting, &list[i]))?;
    }
    Ok(lines)
}

/// Returns the lines that a request asks for, counted from 1.
#[tactic(auto, using(crate::proofs::BreakpointLemmas::datas_of))]
pub fn asked_lines(
    alloc: Global,
    counting: Counting,
    request: Request<'_>,
) -> Result<Vec<u32>, NoMemory>
    ensures { IfOk result (λ lines. lines.items ≡ spec.asked_lines counting (request_view request.entry)) }
{
    match list_of(request, "breakpoints") {
        Some(list) => lines_in(alloc, counting, list),
        None => Ok(Vec::new(alloc)),
    }
}

/// Returns the path of the text of which a request is.
fn source_path<'v>(request: Request<'v>) -> Option<&'v str>
    ensures { option_map (λ t. t.now) result ≡ spec.source_path (request_view request.entry) }
{
    match argument(request, "source") {
        Some(source) => text_at(source, "path"),
        None => None,
    }
}

/// Returns whether a request is of the text with this path; one that names no path is.
pub fn is_of_text(request: Request<'_>, path: &str) -> bool
    ensures { result ≡ spec.is_of_text path.now (request_view request.entry) }
{
    match source_path(request) {
        Some(named) => named.as_bytes() == path.as_bytes(),
        None => true,
    }
}

/// Returns whether an item of a list asks to stop at events.
fn is_events(value: &Value) -> bool
    ensures { result ≡ spec.is_events (view value.now) }
{
    match value.as_str() {
        Some(text) => text.as_bytes() == b"events".as_slice(),
        None => false,
    }
}

/// Returns whether one of these asks to stop at events.
fn any_events(list: &[Value]) -> bool
    ensures { result ≡ list_any (λ v. spec.is_events (view v)) list.now }
{
    list.iter().any(|value| is_events(value))
}

/// Returns whether a request asks to stop at events.
#[tactic(auto, using(crate::proofs::BreakpointLemmas::datas_of, crate::proofs::BreakpointLemmas::any_viewed))]
pub fn asks_events(request: Request<'_>) -> bool
    ensures { result ≡ spec.asks_events (request_view request.entry) }
{
    match list_of(request, "filters") {
        Some(list) => any_events(list),
        None => false,
    }
}

/// Returns whether this is the line.
fn is_line(n: u32, line: Option<u32>) -> bool
    ensures { result ≡ spec.is_line n line }
{
    match line {
        Some(line) => line == n,
        None => false,
    }
}

/// Returns whether one of these is the line.
fn is_among(n: u32, lines: &[Option<u32>]) -> bool
    ensures { result ≡ list_any (spec.is_line n) lines.now }
{
    lines.iter().any(|line| is_line(n, *line))
}

/// Returns whether a place of a process has this line.
fn has_line_in(process: &ProcessLabels, n: u32) -> bool
    ensures { result ≡ list_any (spec.is_line n) process.now.lines.items }
{
    is_among(n, &process.lines)
}

/// Returns whether a place of one of these processes has this line.
fn is_line_of(processes: &[ProcessLabels], n: u32) -> bool
    ensures { result ≡ list_any (λ process. list_any (spec.is_line n) process.lines.items) processes.now }
{
    processes.iter().any(|process| has_line_in(process, n))
}

/// Returns whether a place of the code has this line.
#[tactic(auto, using(crate::proofs::BreakpointLemmas::any_labels))]
fn has_line(labels: &Labels, n: u32) -> bool
    ensures { result ≡ spec.has_line (labels_view labels.now) n }
{
    is_line_of(&labels.processes, n)
}

/// Returns a line of the text that is launched, and whether the run can stop there.
fn breakpoint(alloc: Global, verified: bool, line: u32) -> Result<Value, AllocError>
    ensures { IfOk result (λ v. view v ≡ spec.breakpoint_data verified line) }
{
    json!(in alloc; {"verified": verified, "line": line})
}

/// Returns a line of another text, at which the run cannot stop, and why.
fn elsewhere(alloc: Global, line: u32) -> Result<Value, AllocError>
    ensures { IfOk result (λ v. view v ≡ spec.elsewhere_data line) }
{
    json!(in alloc; {
        "verified": false,
        "line": line,
        "message": "this is not the text that is launched"
    })
}

/// Returns what is answered of a line of the text that is launched, or of another one.
fn answered_line(
    alloc: Global,
    own: bool,
    counting: Counting,
    labels: &Labels,
    line: u32,
) -> Result<Value, AllocError>
    ensures { IfOk result (λ v. view v ≡ spec.answered_line own counting (labels_view labels.now) line) }
{
    let shown = counting.shown_line(line);
    if own {
        breakpoint(alloc, has_line(labels, line), shown)
    } else {
        elsewhere(alloc, shown)
    }
}

/// Returns a list of breakpoints.
fn listed_all(alloc: Global, list: Vec<Value>) -> Result<Value, AllocError>
    ensures { IfOk result (λ v. view v ≡ listed (codes "breakpoints") (map view list.items)) }
{
    json!(in alloc; {"breakpoints": list})
}

/// Returns what is answered of each of these lines: as the client counts them, and whether the run can stop there. At
/// those of another text than the one that is launched it cannot.
pub fn breakpoints_body(
    alloc: Global,
    own: bool,
    counting: Counting,
    labels: &Labels,
    lines: &[u32],
) -> Result<Value, NoMemory>
    ensures { IfOk result (λ v. view v ≡ spec.breakpoints_data own counting (labels_view labels.now) lines.now) }
{
    let mut list = Vec::new(alloc);
    for i in 0..lines.len() {
        let item = answered_line(alloc, own, counting, labels, lines[i])?;
        list.push(item)?;
    }
    Ok(listed_all(alloc, list)?)
}
