//! The answer of a call, in JSON lines that are made of the lines of its command.

ghost use Rattle.std.specs.Prelude.{map};
ghost use Rattle.pb_command_io.specs.Faults.{TellsFaults};
ghost use Rattle.pb_call.specs.Explained.{AnswersInJson, AnswersLive, WritesJson};
ghost use Rattle.pb_json_lines.specs.Dialects as dialects;

use crate::answer::answer;
use crate::commands::Commands;
use pb_base::{Input, Output};
use pb_command_io::Status;
use pb_json_lines::{Dialect, Gathered, LiveOutput, comes_live, dialect_of, tell_json};
use pb_voice::Form;
use std::alloc::Global;
use std::sync::Wait;
use std::thread::Threads;

/// Does what the words of a call say, and writes the JSON lines of its answer in the forms of its command: those of
/// `debug` and `bank` as they come, and those of any other command once it has come to its end.
pub(crate) fn answer_in_json<R: Threads + Wait + Sync, C: Commands, I: Input, O: Output>(
    commands: &C,
    rt: &R,
    alloc: Global,
    words: &[&str],
    input: &mut I,
    output: &mut LiveOutput<O>,
) -> Status
    ensures { AnswersInJson C.tool C.MaySay C.Leaves (dialects.comes_live (dialects.dialect_of (map (λ w. w.now) words.now) Status.Done)) words.now
        (I.rest input.old) (I.rest input.new) (I.failures input.old) (I.failures input.new) output.old output.new result }
{
    let dialect = dialect_of(words, Status::Done);
    if comes_live(dialect) {
        answer_live(commands, rt, alloc, dialect, words, input, output)
    } else {
        answer_at_the_end(commands, rt, alloc, words, input, output)
    }
}

/// Does what the words of a call say, and writes the JSON lines of its answer as they come.
fn answer_live<R: Threads + Wait + Sync, C: Commands, I: Input, O: Output>(
    commands: &C,
    rt: &R,
    alloc: Global,
    dialect: Dialect,
    words: &[&str],
    input: &mut I,
    output: &mut LiveOutput<O>,
) -> Status
    ensures { AnswersLive C.tool C.MaySay C.Leaves dialect words.now (I.rest input.old) (I.rest input.new)
        (I.failures input.old) (I.failures input.new) output.old output.new result }
{
    output.tell_lines(dialect);
    let given = answer(commands, rt, alloc, Form::Lines, words, input, output);
    output.end_lines(given)
}

/// Does what the words of a call say, and writes the JSON lines of its answer once it has come to its end.
fn answer_at_the_end<R: Threads + Wait + Sync, C: Commands, I: Input, O: Output>(
    commands: &C,
    rt: &R,
    alloc: Global,
    words: &[&str],
    input: &mut I,
    output: &mut O,
) -> Status
    ensures text { WritesJson C.tool C.MaySay words.now (I.rest input.old) (O.written output.old) (O.written output.new) result }
    ensures faults { TellsFaults
        (record { reads = I.failures input.old; writes = O.failures output.old; written = O.written output.old })
        (record { reads = I.failures input.new; writes = O.failures output.new; written = O.written output.new })
        result }
{
    let mut gathered = Gathered::new(alloc);
    let given = answer(
        commands,
        rt,
        alloc,
        Form::Lines,
        words,
        input,
        &mut gathered,
    );
    tell_json(alloc, &gathered, given, dialect_of(words, given), output)
}
