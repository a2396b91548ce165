//! What is told of the adapter, of moves and of sessions.

ghost use Rattle.std.specs.Prelude.{◌≡◌, IfOk};
ghost use Rattle.serde_json.specs.View.{view};
ghost use Rattle.pb_adapter_values.specs.Values as spec;
ghost use Rattle.pb_adapter_values.specs.Values.{capabilities_data, result_data};

use pb_base::NoMemory;
use serde_json::{Value, json};
use std::alloc::{AllocError, Global};

/// Returns what the adapter can do.
pub fn capabilities(alloc: Global) -> Result<Value, AllocError>
    ensures { IfOk result (λ v. view v ≡ capabilities_data) }
{
    json!(in alloc; {
        "exceptionBreakpointFilters": [{"filter": "events", "label": "Events"}],
        "supportsConfigurationDoneRequest": true,
        "supportsRestartRequest": true,
        "supportsStepBack": true,
        "supportsTerminateRequest": true
    })
}

/// Returns what the event that the run stands at a position says.
pub fn stopped_body(
    alloc: Global,
    position: u32,
    reason: &str,
    thread: u64,
) -> Result<Value, NoMemory>
    ensures { IfOk result (λ v. view v ≡ spec.body_at position reason.now thread) }
{
    let shown = format!(in alloc; "position {position}")?;
    Ok(
        json!(in alloc; {"reason": reason, "description": shown, "threadId": thread, "allThreadsStopped": true})?,
    )
}

/// Returns the same with a text, as a value.
fn saying_value(
    alloc: Global,
    shown: &str,
    reason: &str,
    thread: u64,
    text: &str,
) -> Result<Value, AllocError>
    ensures { IfOk result (λ v. view v ≡ spec.saying_data shown.now reason.now thread text.now) }
{
    json!(in alloc; {"reason": reason, "description": shown, "threadId": thread, "allThreadsStopped": true, "text": text})
}

/// Returns `position I`.
fn position_words(alloc: Global, position: u32) -> Result<String, NoMemory>
    ensures { IfOk result (λ s. s.bytes.items ≡ spec.position_words position) }
{
    Ok(format!(in alloc; "position {position}")?)
}

/// Returns the same, with a text that says more.
pub fn saying_body(
    alloc: Global,
    position: u32,
    reason: &str,
    thread: u64,
    text: &[u8],
) -> Result<Value, NoMemory>
    ensures { IfOk result (λ v. view v ≡ spec.saying_at position reason.now thread text.now) }
{
    let shown = position_words(alloc, position)?;
    let said = String::from_utf8_lossy(alloc, text)?;
    Ok(saying_value(alloc, shown.as_str(), reason, thread, &said)?)
}

/// Returns the text that a session answered.
pub fn result_body(alloc: Global, text: &[u8]) -> Result<Value, NoMemory>
    ensures { IfOk result (λ v. view v ≡ result_data text.now) }
{
    let shown = String::from_utf8_lossy(alloc, text)?;
    Ok(json!(in alloc; {"result": shown, "variablesReference": 0u64})?)
}
