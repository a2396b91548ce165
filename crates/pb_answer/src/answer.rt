//! A call, answered by whichever tool has its command.
ghost use Rattle.std.specs.Prelude.{◌≡◌, ◌≢◌, IfSome};
ghost use Rattle.pb_answer.specs.Calls.{CallTellsFaults, CallWrites, CommandLeaves, CommandSays};
ghost use Rattle.pb_call.specs.Calls.{bytes_for};
ghost use Rattle.pb_command_io.specs.Answers.{Tells};
ghost use Rattle.pb_command_io.specs.Faults.{TellsAnyFault};
ghost use Rattle.pb_words.specs.Tools.{tool_for};

use pb_bank_tool::BankTool;
use pb_base::{Input, Output};
use pb_call::Commands;
use pb_call::answer::refuse;
use pb_command_io::Status;
use pb_debug_tool::DebugTool;
use pb_edit_tool::EditTool;
use pb_run_tool::RunTool;
use pb_search_tool::SearchTool;
use pb_voice::Form;
use pb_words::{Options, Tool, options, tool_of};
use std::alloc::Global;
use std::sync::Wait;
use std::thread::Threads;

/// Reads the words of a call, of which the first is the program's own name, and does what they say, by the tool that
/// has their command.
pub fn answer<I: Input, O: Output, R: Threads + Wait + Sync>(
    rt: &R,
    alloc: Global,
    words: &[&str],
    input: &mut I,
    output: &mut O,
) -> Status
    ensures text { CallWrites words.now (I.rest input.old) (O.written output.old) (O.written output.new) result }
    ensures faults { CallTellsFaults words.now (I.rest input.old) (I.rest input.new)
        (record { reads = I.failures input.old; writes = O.failures output.old; written = O.written output.old })
        (record { reads = I.failures input.new; writes = O.failures output.new; written = O.written output.new })
        result }
{
    match options(alloc, words) {
        Ok(options) => answer_command(rt, alloc, options, input, output),
        Err(fault) => refuse(alloc, Form::Lines, output, &fault),
    }
}

/// Does what the options say, by the tool that has their command.
fn answer_command<I: Input, O: Output, R: Threads + Wait + Sync>(
    rt: &R,
    alloc: Global,
    options: Options,
    input: &mut I,
    output: &mut O,
) -> Status
    ensures text { IfSome (bytes_for options (I.rest input.old)) (λ bytes.
        Tells (CommandSays options bytes) (O.written output.old) (O.written output.new) result) }
    ensures faults { TellsAnyFault
        (record { reads = I.failures input.old; writes = O.failures output.old; written = O.written output.old })
        (record { reads = I.failures input.new; writes = O.failures output.new; written = O.written output.new })
        result }
    ensures read { I.failures input.new ≢ I.failures input.old →
        CommandLeaves options (I.rest input.old) (I.rest input.new) (O.written output.old) (O.written output.new) }
{
    match tool_of(&options) {
        Tool::Bank => by_tool(&BankTool, rt, alloc, options, input, output),
        Tool::Debug => by_tool(&DebugTool, rt, alloc, options, input, output),
        Tool::Edit => by_tool(&EditTool, rt, alloc, options, input, output),
        Tool::Run => by_tool(&RunTool, rt, alloc, options, input, output),
        Tool::Search => by_tool(&SearchTool, rt, alloc, options, input, output),
    }
}

/// Does what the options say, by the tool that has their command.
fn by_tool<R: Threads + Wait + Sync, C: Commands, I: Input, O: Output>(
    commands: &C,
    rt: &R,
    alloc: Global,
    options: Options,
    input: &mut I,
    output: &mut O,
) -> Status
    requires { tool_for options ≡ C.tool }
    ensures text { IfSome (bytes_for options (I.rest input.old)) (λ bytes.
        Tells (C.MaySay Form.Lines options bytes) (O.written output.old) (O.written output.new) result) }
    ensures faults { TellsAnyFault
        (record { reads = I.failures input.old; writes = O.failures output.old; written = O.written output.old })
        (record { reads = I.failures input.new; writes = O.failures output.new; written = O.written output.new })
        result }
    ensures read { I.failures input.new ≢ I.failures input.old →
        C.Leaves Form.Lines options (I.rest input.old) (I.rest input.new) (O.written output.old) (O.written output.new) }
{
    match commands.answer(rt, alloc, Form::Lines, options, input, output) {
        Some(status) => status,
        None => unreachable!(),
    }
}
