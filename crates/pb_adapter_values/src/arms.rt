//! Arms as threads, and frames.

ghost use Rattle.std.specs.Prelude.{◌≡◌, ◌<◌, ◌≤◌, ◌^◌, ◌++◌, IfOk, OnOk, Some, codes, length, map};
ghost use Rattle.serde_json.specs.View.{view};
ghost use Rattle.pb_adapter_requests.specs.Responses.{listed};
ghost use Rattle.pb_machine.specs.Views.{proc_view, thread_view};
ghost use Rattle.pb_adapter_values.specs.Values as spec;

use crate::names::{arm_name, thread_number};
use pb_base::NoMemory;
use pb_machine::{Proc, Thread, ThreadState};
use serde_json::{Value, json};
use std::alloc::{AllocError, Global};

/// Returns the list of threads.
pub fn threads_body(alloc: Global, list: Vec<Value>) -> Result<Value, AllocError>
    ensures { IfOk result (λ v. view v ≡ listed (codes "threads") (map view list.items)) }
{
    json!(in alloc; {"threads": list})
}

/// Returns the list of frames.
pub fn frames_body(alloc: Global, list: Vec<Value>) -> Result<Value, AllocError>
    ensures { IfOk result (λ v. view v ≡ listed (codes "stackFrames") (map view list.items)) }
{
    json!(in alloc; {"stackFrames": list})
}

/// Returns an arm as a thread.
fn thread_value(alloc: Global, id: u64, name: &str) -> Result<Value, AllocError>
    ensures { IfOk result (λ v. view v ≡ spec.thread_data id name.now) }
{
    json!(in alloc; {"id": id, "name": name})
}

/// Returns whether an arm is idle.
fn is_idle(thread: &Thread) -> bool
    ensures { result ≡ spec.is_idle (thread_view thread.now) }
{
    match thread.state() {
        ThreadState::Idle => true,
        ThreadState::Live | ThreadState::Ended => false,
    }
}

/// Appends an arm of the process with this name and number to a list, if it is a thread.
fn list_arm(
    alloc: Global,
    list: &mut Vec<Value>,
    name: &[u8],
    p: usize,
    arm: usize,
    thread: &Thread,
) -> Result<(), NoMemory>
    requires process { p < 2 ^ 32 }
    requires arm { arm < 2 ^ 32 }
    ensures { OnOk result (map view list.new.items
        ≡ map view list.old.items ++ spec.thread_if name.now p arm (thread_view thread.now)) }
{
    if arm != 0 && is_idle(thread) {
        return Ok(());
    }
    let shown = arm_name(alloc, name, arm)?;
    let value = thread_value(alloc, thread_number(p, arm), shown.as_str())?;
    list.push(value)?;
    Ok(())
}

/// Appends the arms of the process with this name and number to a list.
pub fn list_arms(
    alloc: Global,
    list: &mut Vec<Value>,
    name: &[u8],
    p: usize,
    process: &Proc,
) -> Result<(), NoMemory>
    requires process { p < 2 ^ 32 }
    requires few { length (proc_view process.now).threads ≤ 64 }
    ensures { OnOk result (map view list.new.items
        ≡ map view list.old.items ++ spec.arms_of name.now p (Some (proc_view process.now))) }
{
    for arm in 0..process.arms() {
        list_arm(alloc, list, name, p, arm, process.thread(arm))?;
    }
    Ok(())
}

/// Returns the frame of an arm at a line and a column of the text with this path.
pub fn frame(
    alloc: Global,
    path: &str,
    name: &str,
    id: u64,
    line: u32,
    column: u32,
) -> Result<Value, AllocError>
    ensures { IfOk result (λ v. view v ≡ spec.frame_data path.now name.now id line column) }
{
    json!(in alloc; {"id": id, "name": name, "line": line, "column": column, "source": {"path": path}})
}
