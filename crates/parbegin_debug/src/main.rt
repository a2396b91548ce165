//! The tool `parbegin-debug`.
#![tactic(auto)]

use pb_base::{StandardInput, StandardOutput};
use pb_call::StandardError;
use pb_call::start::start;
use pb_debug_tool::DebugTool;
use std::process::ExitCode;

fn main(rt: HostRuntime) -> ExitCode {
    let input = StandardInput::new(rt.stdin());
    let output = StandardOutput::new(rt.stdout());
    let error = StandardError::new(rt.stderr());
    start(&DebugTool, &rt, input, output, error)
}
