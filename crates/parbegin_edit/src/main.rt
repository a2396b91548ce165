//! The tool `parbegin-edit`.
#![tactic(auto)]

use pb_base::{StandardInput, StandardOutput};
use pb_call::StandardError;
use pb_call::start::start;
use pb_edit_tool::EditTool;
use std::process::ExitCode;

fn main(rt: HostRuntime) -> ExitCode {
    let input = StandardInput::new(rt.stdin());
    let output = StandardOutput::new(rt.stdout());
    let error = StandardError::new(rt.stderr());
    start(&EditTool, &rt, input, output, error)
}
