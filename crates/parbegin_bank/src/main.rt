//! The tool `parbegin-bank`.
#![tactic(auto)]

use pb_bank_tool::BankTool;
use pb_base::{StandardInput, StandardOutput};
use pb_call::StandardError;
use pb_call::start::start;
use std::process::ExitCode;

fn main(rt: HostRuntime) -> ExitCode {
    let input = StandardInput::new(rt.stdin());
    let output = StandardOutput::new(rt.stdout());
    let error = StandardError::new(rt.stderr());
    start(&BankTool, &rt, input, output, error)
}
