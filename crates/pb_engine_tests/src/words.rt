//! The words of a call, and the command and the options that they name.

use pb_capitals::Changes;
use pb_code::Format;
use pb_options::{
    CheckOptions, Code, DebugOptions, DrawOptions, EmitOptions, Lend, OutcomesOptions, PlanOptions,
    RecordOptions, ReplayOptions, RunOptions, StatesOptions,
};
use pb_words::{Options, WordsFault, options};
use std::alloc::Global;

/// Returns whether the words after the program's own name are read as these options.
fn are_read(alloc: Global, words: &[&str], wanted: Options) -> bool {
    let Ok(read) = options(alloc, words) else {
        return false;
    };
    read == wanted
}

/// Returns whether a command is refused with a word after it.
fn is_refused(alloc: Global, command: &str, word: &str) -> bool {
    options(alloc, &["parbegin", command, word]).is_err()
}

const RUN: RunOptions = RunOptions {
    workers: 1,
    quantum: 64,
    steps: 1_000_000,
};

#[test]
fn commands_have_their_defaults(rt: HostRuntime) {
    for (command, wanted) in [
        ("bank", Options::Bank),
        ("dap", Options::Dap),
        ("lsp", Options::Lsp),
        (
            "check",
            Options::Check(CheckOptions {
                heap: None,
                warn: false,
            }),
        ),
        ("claims", Options::Claims),
        (
            "findings",
            Options::Findings(CheckOptions {
                heap: None,
                warn: false,
            }),
        ),
        (
            "debug",
            Options::Debug(DebugOptions {
                live: false,
                lend: Lend::Banker,
            }),
        ),
        (
            "draw",
            Options::Draw(DrawOptions {
                lend: Lend::Banker,
                width: None,
                scale: 100,
            }),
        ),
        (
            "emit",
            Options::Emit(EmitOptions {
                object: Format::Two,
            }),
        ),
        ("exec", Options::Exec(RUN)),
        ("explain", Options::Explain(None)),
        ("migrate", Options::Migrate),
        (
            "outcomes",
            Options::Outcomes(OutcomesOptions {
                states: 1_000_000,
                lend: Lend::Banker,
                first_deadlock: false,
                prints: false,
                fair: false,
                expect: false,
                any_order: false,
                endless: false,
                graph: false,
                run: None,
                deadlock: None,
            }),
        ),
        (
            "record",
            Options::Record(RecordOptions {
                run: RUN,
                seed: None,
                lend: Lend::Banker,
            }),
        ),
        (
            "plan",
            Options::Plan(PlanOptions { lend: Lend::Banker }, Changes::none()),
        ),
        (
            "replay",
            Options::Replay(ReplayOptions { lend: Lend::Banker }),
        ),
        ("run", Options::Run(RUN)),
        (
            "states",
            Options::States(StatesOptions {
                rows: 20_000,
                from: 0,
                lend: Lend::Banker,
            }),
        ),
    ] {
        assert!(rt;
            are_read(rt.alloc(), &["parbegin", command], wanted),
            "{command}"
        );
    }
}

#[test]
fn options_with_one_word_are_read(rt: HostRuntime) {
    for (command, word, wanted) in [
        (
            "check",
            "--heap=1024",
            Options::Check(CheckOptions {
                heap: Some(1_024),
                warn: false,
            }),
        ),
        (
            "check",
            "--warn",
            Options::Check(CheckOptions {
                heap: None,
                warn: true,
            }),
        ),
        (
            "debug",
            "--live",
            Options::Debug(DebugOptions {
                live: true,
                lend: Lend::Banker,
            }),
        ),
        (
            "debug",
            "--lend=cash",
            Options::Debug(DebugOptions {
                live: false,
                lend: Lend::Cash,
            }),
        ),
        (
            "emit",
            "--object=1",
            Options::Emit(EmitOptions {
                object: Format::One,
            }),
        ),
        (
            "emit",
            "--object=2",
            Options::Emit(EmitOptions {
                object: Format::Two,
            }),
        ),
        ("explain", "N3", Options::Explain(Some(Code::N3))),
        (
            "outcomes",
            "--graph",
            Options::Outcomes(OutcomesOptions {
                states: 1_000_000,
                lend: Lend::Banker,
                first_deadlock: false,
                prints: false,
                fair: false,
                expect: false,
                any_order: false,
                endless: false,
                graph: true,
                run: None,
                deadlock: None,
            }),
        ),
        (
            "outcomes",
            "--run=2",
            Options::Outcomes(OutcomesOptions {
                states: 1_000_000,
                lend: Lend::Banker,
                first_deadlock: false,
                prints: false,
                fair: false,
                expect: false,
                any_order: false,
                endless: false,
                graph: false,
                run: Some(2),
                deadlock: None,
            }),
        ),
        (
            "outcomes",
            "--deadlock=4000000",
            Options::Outcomes(OutcomesOptions {
                states: 1_000_000,
                lend: Lend::Banker,
                first_deadlock: false,
                prints: false,
                fair: false,
                expect: false,
                any_order: false,
                endless: false,
                graph: false,
                run: None,
                deadlock: Some(4_000_000),
            }),
        ),
        (
            "outcomes",
            "--states=4000000",
            Options::Outcomes(OutcomesOptions {
                states: 4_000_000,
                lend: Lend::Banker,
                first_deadlock: false,
                prints: false,
                fair: false,
                expect: false,
                any_order: false,
                endless: false,
                graph: false,
                run: None,
                deadlock: None,
            }),
        ),
        (
            "outcomes",
            "--lend=cash",
            Options::Outcomes(OutcomesOptions {
                states: 1_000_000,
                lend: Lend::Cash,
                first_deadlock: false,
                prints: false,
                fair: false,
                expect: false,
                any_order: false,
                endless: false,
                graph: false,
                run: None,
                deadlock: None,
            }),
        ),
        (
            "draw",
            "--lend=cash",
            Options::Draw(DrawOptions {
                lend: Lend::Cash,
                width: None,
                scale: 100,
            }),
        ),
        (
            "draw",
            "--width=200",
            Options::Draw(DrawOptions {
                lend: Lend::Banker,
                width: Some(200),
                scale: 100,
            }),
        ),
        (
            "draw",
            "--width=20000",
            Options::Draw(DrawOptions {
                lend: Lend::Banker,
                width: Some(20_000),
                scale: 100,
            }),
        ),
        (
            "draw",
            "--scale=50",
            Options::Draw(DrawOptions {
                lend: Lend::Banker,
                width: None,
                scale: 50,
            }),
        ),
        (
            "draw",
            "--scale=400",
            Options::Draw(DrawOptions {
                lend: Lend::Banker,
                width: None,
                scale: 400,
            }),
        ),
        (
            "plan",
            "--lend=banker",
            Options::Plan(PlanOptions { lend: Lend::Banker }, Changes::none()),
        ),
        (
            "plan",
            "--lend=cash",
            Options::Plan(PlanOptions { lend: Lend::Cash }, Changes::none()),
        ),
        (
            "replay",
            "--lend=cash",
            Options::Replay(ReplayOptions { lend: Lend::Cash }),
        ),
        (
            "record",
            "--lend=banker",
            Options::Record(RecordOptions {
                run: RUN,
                seed: None,
                lend: Lend::Banker,
            }),
        ),
        (
            "outcomes",
            "--first-deadlock",
            Options::Outcomes(OutcomesOptions {
                states: 1_000_000,
                lend: Lend::Banker,
                first_deadlock: true,
                prints: false,
                fair: false,
                expect: false,
                any_order: false,
                endless: false,
                graph: false,
                run: None,
                deadlock: None,
            }),
        ),
        (
            "outcomes",
            "--prints",
            Options::Outcomes(OutcomesOptions {
                states: 1_000_000,
                lend: Lend::Banker,
                first_deadlock: false,
                prints: true,
                fair: false,
                expect: false,
                any_order: false,
                endless: false,
                graph: false,
                run: None,
                deadlock: None,
            }),
        ),
        (
            "outcomes",
            "--fair",
            Options::Outcomes(OutcomesOptions {
                states: 1_000_000,
                lend: Lend::Banker,
                first_deadlock: false,
                prints: false,
                fair: true,
                expect: false,
                any_order: false,
                endless: false,
                graph: false,
                run: None,
                deadlock: None,
            }),
        ),
        (
            "states",
            "--rows=1000000",
            Options::States(StatesOptions {
                rows: 1_000_000,
                from: 0,
                lend: Lend::Banker,
            }),
        ),
        (
            "states",
            "--lend=cash",
            Options::States(StatesOptions {
                rows: 20_000,
                from: 0,
                lend: Lend::Cash,
            }),
        ),
        (
            "states",
            "--from=10000000",
            Options::States(StatesOptions {
                rows: 20_000,
                from: 10_000_000,
                lend: Lend::Banker,
            }),
        ),
        (
            "outcomes",
            "--lend=banker",
            Options::Outcomes(OutcomesOptions {
                states: 1_000_000,
                lend: Lend::Banker,
                first_deadlock: false,
                prints: false,
                fair: false,
                expect: false,
                any_order: false,
                endless: false,
                graph: false,
                run: None,
                deadlock: None,
            }),
        ),
    ] {
        assert!(rt;
            are_read(rt.alloc(), &["parbegin", command, word], wanted),
            "{command} {word}"
        );
    }
}

#[test]
fn numbers_are_read_up_to_their_limits(rt: HostRuntime) {
    let least = RunOptions {
        workers: 1,
        quantum: 1,
        steps: 0,
    };
    let words = ["parbegin", "run", "--workers=1", "--quantum=1", "--steps=0"];
    assert!(rt; are_read(rt.alloc(), &words, Options::Run(least)));
    let most = RunOptions {
        workers: 16,
        quantum: 4_096,
        steps: 10_000_000,
    };
    let words = [
        "parbegin",
        "exec",
        "--workers=16",
        "--quantum=4096",
        "--steps=10000000",
    ];
    assert!(rt; are_read(rt.alloc(), &words, Options::Exec(most)));
    let seed = 18_446_744_073_709_551_615;
    let drawn = RecordOptions {
        run: least,
        seed: Some(seed),
        lend: Lend::Banker,
    };
    let words = [
        "parbegin",
        "record",
        "--quantum=1",
        "--steps",
        "0",
        "--seed",
        "18446744073709551615",
    ];
    assert!(rt; are_read(rt.alloc(), &words, Options::Record(drawn)));
}

#[test]
fn a_drawn_run_may_lend_by_cash(rt: HostRuntime) {
    let drawn = RecordOptions {
        run: RUN,
        seed: Some(3),
        lend: Lend::Cash,
    };
    let words = ["parbegin", "record", "--seed", "3", "--lend", "cash"];
    assert!(rt; are_read(rt.alloc(), &words, Options::Record(drawn)));
}

#[test]
fn other_words_are_refused(rt: HostRuntime) {
    for (command, word) in [
        ("bank", "text"),
        ("check", "--heap=1023"),
        ("check", "--heap=16777217"),
        ("check", "--warn=true"),
        ("claims", "--steps=3"),
        ("debug", "--live=true"),
        ("debug", "--lend=till"),
        ("debug", "--steps=3"),
        ("debug", "text"),
        ("draw", "--svg"),
        ("draw", "--width=199"),
        ("draw", "--width=20001"),
        ("draw", "--scale=49"),
        ("draw", "--scale=401"),
        ("emit", "--object=0"),
        ("emit", "--object=3"),
        ("emit", "--object=one"),
        ("explain", ""),
        ("explain", "n3"),
        ("explain", "N5"),
        ("explain", "--code"),
        ("fly", "text"),
        ("help", "text"),
        ("migrate", "text"),
        ("outcomes", "--first-deadlock=true"),
        ("outcomes", "--prints=true"),
        ("outcomes", "--lend=Cash"),
        ("outcomes", "--lend=till"),
        ("outcomes", "--lend="),
        ("outcomes", "--states=0"),
        ("outcomes", "--states=4000001"),
        ("outcomes", "--run=0"),
        ("outcomes", "--deadlock=4000001"),
        ("outcomes", "text"),
        ("record", "--lend=cash"),
        ("record", "--lend=till"),
        ("record", "--seed=-1"),
        ("record", "--seed=18446744073709551616"),
        ("record", "--seed=seven"),
        ("plan", "text"),
        ("plan", "--lend=till"),
        ("plan", "--lend=banker=cash"),
        ("plan", "--states=3"),
        ("replay", "--steps=3"),
        ("states", "--from=10000001"),
        ("states", "--rows=0"),
        ("states", "--rows=1000001"),
        ("run", "--steps=10000001"),
        ("run", "--steps=three"),
        ("run", "--workers=0"),
        ("run", "--workers=17"),
        ("run", "--quantum=0"),
        ("run", "--quantum=4097"),
        ("run", "text"),
    ] {
        assert!(rt; is_refused(rt.alloc(), command, word), "{command} {word}");
    }
}

#[test]
fn options_of_outcomes_that_mean_nothing_together_are_refused(rt: HostRuntime) {
    for (one, other) in [
        ("--endless", "--run=1"),
        ("--endless", "--prints"),
        ("--expect", "--endless"),
        ("--expect", "--prints"),
        ("--expect", "--first-deadlock"),
        ("--graph", "--fair"),
        ("--graph", "--any-order"),
        ("--run=1", "--deadlock=1"),
        ("--run=1", "--fair"),
        ("--fair", "--any-order"),
    ] {
        assert!(rt;
            options(rt.alloc(), &["parbegin", "outcomes", one, other]).is_err(),
            "{one} {other}"
        );
    }
    assert!(rt; is_refused(rt.alloc(), "outcomes", "--any-order"));
}

#[test]
fn options_of_outcomes_that_mean_something_together_are_read(rt: HostRuntime) {
    for (one, other) in [
        ("--expect", "--any-order"),
        ("--expect", "--fair"),
        ("--endless", "--fair"),
        ("--endless", "--lend=cash"),
        ("--graph", "--states=10"),
        ("--run=2", "--prints"),
        ("--deadlock=1", "--first-deadlock"),
        ("--prints", "--fair"),
        ("--prints", "--first-deadlock"),
    ] {
        assert!(rt;
            options(rt.alloc(), &["parbegin", "outcomes", one, other]).is_ok(),
            "{one} {other}"
        );
    }
}

#[test]
fn an_option_that_is_given_twice_is_refused(rt: HostRuntime) {
    assert!(rt; options(rt.alloc(), &["parbegin", "run", "--steps=3", "--steps=3"]).is_err());
    assert!(rt; options(rt.alloc(), &["parbegin", "explain", "N3", "N4"]).is_err());
    assert!(rt; options(rt.alloc(), &["parbegin"]).is_err());
}

/// Returns whether the refusal of these words says this.
fn is_told(alloc: Global, words: &[&str], part: &str) -> bool {
    match options(alloc, words) {
        Err(WordsFault::Words(text)) => text.as_str().contains(part),
        _ => false,
    }
}

#[test]
fn refusals_tell_what_there_is(rt: HostRuntime) {
    let unknown = ["parbegin", "explain", "N5"];
    assert!(rt;
        is_told(
            rt.alloc(),
            &unknown,
            "error: no refusal and no warning has this code"
        )
    );
    assert!(rt; is_told(rt.alloc(), &unknown, " N1 N2 N3 N4 N6 C1 "));
    let nobody = "error: the value of '--lend' is banker or cash";
    for command in [
        "debug", "draw", "outcomes", "plan", "record", "replay", "states",
    ] {
        assert!(rt;
            is_told(rt.alloc(), &["parbegin", command, "--lend", "till"], nobody),
            "{command}"
        );
    }
    let workers = ["parbegin", "record", "--lend", "cash"];
    assert!(rt;
        is_told(
            rt.alloc(),
            &workers,
            "error: '--lend cash' of 'record' needs '--seed N'"
        )
    );
    assert!(rt;
        is_told(
            rt.alloc(),
            &["out/pb_cli", "fly"],
            "Usage: parbegin <COMMAND>"
        )
    );
}
