//! Calls of single tools: each answers its own commands, and names the tool of any other.

use pb_bank_tool::BankTool;
use pb_base::{MemoryInput, MemoryOutput};
use pb_call::Commands;
use pb_call::answer::answer;
use pb_command_io::Status;
use pb_debug_tool::DebugTool;
use pb_edit_tool::EditTool;
use pb_run_tool::RunTool;
use pb_search_tool::SearchTool;
use pb_voice::Form;
use pb_words::Tool;
use std::sync::Wait;
use std::thread::Threads;

/// Returns whether a tool writes this of a command as lines, with an empty input, and ends with this status.
fn says<R: AllocGlobal + Threads + Wait + Sync, C: Commands>(
    commands: &C,
    rt: &R,
    command: &str,
    said: &[u8],
    wanted: Status,
) -> Option<bool> {
    says_in(commands, rt, Form::Lines, command, said, wanted)
}

/// Returns whether a tool writes this of a command in a form, with an empty input, and ends with this status.
fn says_in<R: AllocGlobal + Threads + Wait + Sync, C: Commands>(
    commands: &C,
    rt: &R,
    form: Form,
    command: &str,
    said: &[u8],
    wanted: Status,
) -> Option<bool> {
    let mut output = MemoryOutput::new(rt.alloc(), 4_096).ok()?;
    let mut input = MemoryInput::new(b"");
    let words = ["parbegin", command];
    let status = answer(
        commands,
        rt,
        rt.alloc(),
        form,
        words.as_slice(),
        &mut input,
        &mut output,
    );
    Some(status == wanted && output.as_slice() == said)
}

#[test]
fn each_answers_its_own_commands(rt: HostRuntime) {
    assert!(rt; says(&BankTool, &rt, "bank", b"", Status::Done) == Some(true));
    assert!(rt; says(&DebugTool, &rt, "dap", b"", Status::Done) == Some(true));
    assert!(rt; says(&EditTool, &rt, "lsp", b"", Status::Refused) == Some(true));
    assert!(rt; says(&RunTool, &rt, "run", b"refused P1 at 0\n", Status::Refused) == Some(true));
    let refused = b"refused P1 at 0\n";
    assert!(rt; says(&SearchTool, &rt, "outcomes", refused, Status::Refused) == Some(true));
}

#[test]
fn each_names_the_tool_of_another_command(rt: HostRuntime) {
    let run = b"error: this command is answered by parbegin-run\n";
    assert!(rt; says(&BankTool, &rt, "run", run, Status::Words) == Some(true));
    assert!(rt; says(&DebugTool, &rt, "replay", run, Status::Words) == Some(true));
    let search = b"error: this command is answered by parbegin-search\n";
    assert!(rt; says(&RunTool, &rt, "plan", search, Status::Words) == Some(true));
    let bank = b"error: this command is answered by parbegin-bank\n";
    assert!(rt; says(&EditTool, &rt, "bank", bank, Status::Words) == Some(true));
    let edit = b"error: this command is answered by parbegin-edit\n";
    assert!(rt; says(&SearchTool, &rt, "lsp", edit, Status::Words) == Some(true));
    assert!(rt; Tool::Debug.name() == "parbegin-debug");
}

#[test]
fn commands_that_tell_data_write_objects(rt: HostRuntime) {
    let refused = b"{\"kind\":\"refused\",\"code\":\"P1\",\"at\":0}\n";
    assert!(rt;
        says_in(
            &RunTool,
            &rt,
            Form::Objects,
            "run",
            refused,
            Status::Refused
        ) == Some(true)
    );
    assert!(rt;
        says_in(
            &RunTool,
            &rt,
            Form::Objects,
            "record",
            refused,
            Status::Refused
        ) == Some(true)
    );
    assert!(rt;
        says_in(
            &DebugTool,
            &rt,
            Form::Objects,
            "draw",
            refused,
            Status::Refused
        ) == Some(true)
    );
    assert!(rt;
        says_in(
            &SearchTool,
            &rt,
            Form::Objects,
            "states",
            refused,
            Status::Refused
        ) == Some(true)
    );
    assert!(rt;
        says_in(
            &SearchTool,
            &rt,
            Form::Objects,
            "plan",
            refused,
            Status::Refused
        ) == Some(true)
    );
    assert!(rt;
        says_in(
            &SearchTool,
            &rt,
            Form::Objects,
            "outcomes",
            refused,
            Status::Refused
        ) == Some(true)
    );
    assert!(rt; RunTool.has_objects(&["parbegin", "run"]));
    assert!(rt; RunTool.has_objects(&["parbegin", "record"]));
    assert!(rt; RunTool.has_objects(&["parbegin", "explain", "N3"]));
    assert!(rt; DebugTool.has_objects(&["parbegin", "draw"]));
    assert!(rt; SearchTool.has_objects(&["parbegin", "states"]));
    assert!(rt; RunTool.has_objects(&["parbegin", "check", "--heap=1"]));
    assert!(rt; SearchTool.has_objects(&["parbegin", "plan"]));
    assert!(rt; SearchTool.has_objects(&["parbegin", "outcomes", "--fair"]));
    assert!(rt; SearchTool.has_objects(&["parbegin", "outcomes", "--fair", "--expect"]));
    assert!(rt; BankTool.has_objects(&["parbegin", "bank"]));
}

#[test]
fn other_commands_write_lines_alone(rt: HostRuntime) {
    assert!(rt; !RunTool.has_objects(&["run"]));
    assert!(rt; !SearchTool.has_objects(&["outcomes"]));
    assert!(rt; !SearchTool.has_objects(&["parbegin", "outcomes", "--run=1"]));
    assert!(rt; !BankTool.has_objects(&["bank"]));
    assert!(rt; !DebugTool.has_objects(&["parbegin", "debug"]));
    assert!(rt; !DebugTool.has_objects(&["draw"]));
    assert!(rt; !EditTool.has_objects(&["parbegin", "lsp"]));
    assert!(rt; !EditTool.has_objects(&["parbegin", "findings"]));
}

#[test]
fn words_are_refused_in_objects(rt: HostRuntime) {
    let named =
        b"{\"kind\":\"line\",\"text\":\"error: this command is answered by parbegin-search\"}\n";
    assert!(rt; says_in(&RunTool, &rt, Form::Objects, "plan", named, Status::Words) == Some(true));
}
