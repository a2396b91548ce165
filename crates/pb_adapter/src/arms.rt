//! The arms at the position, and the line of each.

ghost use Rattle.std.specs.Prelude.{◌≡◌, ◌<◌, ◌++◌, IfNone, IfOk, IfSome, OnOk, false, length, map, slice_get, true};
ghost use Rattle.serde_json.specs.View.{view};
ghost use Rattle.pb_base.specs.Lines.{name_of};
ghost use Rattle.pb_debug.specs.Value.{state_of};
ghost use Rattle.pb_debug_positions.specs.Searches.{line_in};
ghost use Rattle.pb_adapter_requests.specs.Counting.{first_column, shown_line};
ghost use Rattle.pb_adapter.specs.Values as spec;
ghost use Rattle.pb_adapter_values.specs.Values as value;

use pb_adapter_requests::{Counting, Place};
use pb_adapter_values::{
    arm_name, frame, frames_body, list_arms, name_at, no_scopes, scopes, thread_number,
    threads_body,
};
use pb_base::NoMemory;
use pb_debug::Debugger;
use serde_json::Value;
use std::alloc::Global;

/// Appends the arms of a process at the position to a list.
fn list_process(
    alloc: Global,
    list: &mut Vec<Value>,
    debugger: &Debugger<'_>,
    p: usize,
) -> Result<(), NoMemory>
    requires { p < length (state_of debugger.now).processes }
    ensures { OnOk result (map view list.new.items ≡ map view list.old.items
        ++ value.arms_of (name_of debugger.now.verified.code.names.processes p) p (slice_get (state_of debugger.now).processes p)) }
{
    let name = name_at(&debugger.verified().names().processes, p);
    match debugger.threads(p) {
        Ok(process) => list_arms(alloc, list, name, p, process),
        Err(_) => Ok(()),
    }
}

/// Returns the arms at the position.
pub fn threads(alloc: Global, debugger: &Debugger<'_>) -> Result<Value, NoMemory>
    ensures { IfOk result (λ v. view v ≡ spec.threads_data debugger.now) }
{
    let mut list = Vec::new(alloc);
    for p in 0..debugger.processes() {
        list_process(alloc, &mut list, debugger, p)?;
    }
    Ok(threads_body(alloc, list)?)
}

/// Returns the line of an arm, 0 for none; nothing if there is no such arm.
fn line_of(debugger: &Debugger<'_>, p: usize, arm: usize) -> Option<u32>
    ensures some { IfSome result (λ line. (spec.has_arm (slice_get (state_of debugger.now).processes p) arm ≡ true)
        × (line ≡ spec.line_or_none (line_in (slice_get debugger.now.labels p) (slice_get (state_of debugger.now).processes p) arm))) }
    ensures none { IfNone result (spec.has_arm (slice_get (state_of debugger.now).processes p) arm ≡ false) }
    ensures small { IfSome result (λ _. (p < 64) × (arm < 64)) }
{
    // Called for its contract alone, which the proof needs.
    let _ = debugger.position();
    match debugger.line(p, arm) {
        Ok(Some(line)) => Some(line),
        Ok(None) => Some(0),
        Err(_) => None,
    }
}

/// Returns the frame of an arm at the position, which is at this line.
fn frame_of(
    alloc: Global,
    debugger: &Debugger<'_>,
    path: &str,
    counting: Counting,
    p: usize,
    arm: usize,
    line: u32,
) -> Result<Value, NoMemory>
    requires process { p < 64 }
    requires arm { arm < 64 }
    ensures { IfOk result (λ v. view v ≡ value.frame_data path.now
        (value.arm_name (name_of debugger.now.verified.code.names.processes p) arm) (value.thread_number p arm)
        (shown_line counting line) (first_column counting)) }
{
    let name = name_at(&debugger.verified().names().processes, p);
    let shown = arm_name(alloc, name, arm)?;
    let value = frame(
        alloc,
        path,
        shown.as_str(),
        thread_number(p, arm),
        counting.shown_line(line),
        counting.first_column(),
    )?;
    Ok(value)
}

/// Returns what can be shown of an arm at the position; nothing if there is no such arm.
pub fn scopes_at(alloc: Global, debugger: &Debugger<'_>, at: Place) -> Result<Value, NoMemory>
    ensures { IfOk result (λ v. view v ≡ spec.scopes_at debugger.now (record { process = at.process; arm = at.arm })) }
{
    match line_of(debugger, at.process, at.arm) {
        Some(_) => scopes(alloc, at.process, at.arm),
        None => Ok(no_scopes(alloc)?),
    }
}

/// Returns the line of an arm at the position, as its one frame; no frame if there is no such arm.
pub fn stack(
    alloc: Global,
    debugger: &Debugger<'_>,
    path: &str,
    counting: Counting,
    at: Place,
) -> Result<Value, NoMemory>
    ensures { IfOk result (λ v. view v ≡ spec.stack_data debugger.now path.now counting (record { process = at.process; arm = at.arm })) }
{
    let mut list = Vec::new(alloc);
    if let Some(line) = line_of(debugger, at.process, at.arm) {
        let value = frame_of(alloc, debugger, path, counting, at.process, at.arm, line)?;
        list.push(value)?;
    }
    Ok(frames_body(alloc, list)?)
}
