//! Picks of an arm that are tried after the last.

ghost use Rattle.std.specs.Prelude.{◌≡◌, ◌<◌, ◌^◌, IfOk};
ghost use Rattle.pb_adapter_requests.specs.Requests.{request_view};
ghost use Rattle.pb_adapter_requests.specs.Responses.{told_by};
ghost use Rattle.pb_adapter.specs.Answers.{Client as AnyClient, TriesArm};
ghost use Rattle.pb_adapter.specs.Moves as spec;

use crate::evaluate::answer_lines;
use crate::moves::saying;
use pb_adapter_requests::{Place, Reply, Request, done, place_of, with_event};
use pb_adapter_values::{arm_name, name_at};
use pb_base::NoMemory;
use pb_debug::Debugger;
use serde_json::Value;
use std::alloc::Global;

/// Returns the command by which a session tries a pick of an arm.
fn pick_words(alloc: Global, debugger: &Debugger<'_>, at: Place) -> Result<String, NoMemory>
    ensures { IfOk result (λ s. s.bytes.items ≡ spec.pick_words debugger.now (record { process = at.process; arm = at.arm })) }
{
    let name = name_at(&debugger.verified().names().processes, at.process);
    let shown = arm_name(alloc, name, at.arm)?;
    Ok(format!(in alloc; "pick {shown}")?)
}

/// Returns why the run stops after a pick of an arm was tried.
fn tried_reason(before: u32, after: u32) -> &'static str
    ensures { result.now ≡ spec.tried_reason before after }
{
    if after == before { "waits" } else { "step" }
}

/// Tries a pick of an arm after the last, and says what it came to, or why the arm does not go on.
pub fn try_arm(
    alloc: Global,
    seq: u64,
    debugger: &mut Debugger<'_>,
    request: Request<'_>,
    thread: Option<u64>,
) -> Result<Reply, NoMemory>
    requires few { seq < 2 ^ 63 }
    ensures { IfOk result (λ reply. (c : AnyClient)
        → TriesArm debugger.old c seq (request_view request.entry) thread (told_by reply) debugger.new c) }
{
    let before = debugger.position();
    let words = pick_words(alloc, debugger, place_of(thread))?;
    let said = answer_lines(alloc, debugger, words.as_str())?;
    let reason = tried_reason(before, debugger.position());
    let response = done(alloc, seq, request, Value::Null)?;
    let of = thread.unwrap_or(0);
    let event = saying(alloc, seq + 1, debugger, reason, of, said.as_slice())?;
    Ok(with_event(response, event))
}
