//! `plan` with capitals in place of those of its texts: the words, and the plan.

use pb_base::{Lending, MemoryInput, MemoryOutput};
use pb_capitals::changes_of;
use pb_command_io::Status;
use pb_options::{Lend, PlanOptions};
use pb_plan_engine::write_plan;
use pb_voice::Form;
use pb_words::{Options, options};
use std::alloc::Global;

const TEXT: &[u8] =
    b"resource tape = 1;\nresource disk = 1;\nprocess p\nbegin\n  hold 2 of tape do print 1 od\nend\n";

/// Returns whether the words of `plan` say these changes.
fn are_read(alloc: Global, words: &[&str], changes: &[&str]) -> bool {
    let Some(changes) = changes_of(changes) else {
        return false;
    };
    let Ok(read) = options(alloc, words) else {
        return false;
    };
    read == Options::Plan(PlanOptions { lend: Lend::Banker }, changes)
}

/// Returns whether the plan with these changes is this one, with this status.
fn is_planned(alloc: Global, changes: &[&str], wanted: &[u8], status: Status) -> bool {
    let Some(changes) = changes_of(changes) else {
        return false;
    };
    let mut input = MemoryInput::new(TEXT);
    match MemoryOutput::new(alloc, 1_000) {
        Ok(mut output) => {
            let ended = write_plan(
                alloc,
                Form::Lines,
                Lending::ByBanker,
                &changes,
                &mut input,
                &mut output,
            );
            ended == status && output.as_slice() == wanted
        }
        Err(_) => false,
    }
}

#[test]
fn capitals_are_read(rt: HostRuntime) {
    let alloc = rt.alloc();
    assert!(rt; are_read(alloc, &["parbegin", "plan"], &[]));
    assert!(rt;
        are_read(
            alloc,
            &["parbegin", "plan", "--capital=tape=2"],
            &["tape=2"]
        )
    );
    let two = [
        "parbegin",
        "plan",
        "--capital",
        "tape=1000000",
        "--capital=disk=0",
    ];
    assert!(rt; are_read(alloc, &two, &["tape=1000000", "disk=0"]));
    assert!(rt; !are_read(alloc, &two, &["tape=1000000", "disk=1"]));
}

#[test]
fn other_capitals_are_refused(rt: HostRuntime) {
    for word in [
        "--capital",
        "--capital=",
        "--capital=tape",
        "--capital=tape=",
        "--capital==2",
        "--capital=2=tape",
        "--capital=if=2",
        "--capital=tape=two",
        "--capital=tape=1000001",
    ] {
        assert!(rt;
            options(rt.alloc(), &["parbegin", "plan", word]).is_err(),
            "{word}"
        );
    }
    let twice = ["parbegin", "plan", "--capital=tape=2", "--capital=tape=2"];
    assert!(rt; options(rt.alloc(), &twice).is_err());
}

#[test]
fn plans_with_other_capitals(rt: HostRuntime) {
    let little =
        b"p claim 2 tape lines 5\np claim 0 disk\ntape capital 1 least 2 free 2\ndisk capital 1 least 0 free 0\nbottleneck tape\norder tape disk\n";
    assert!(rt; is_planned(rt.alloc(), &[], little, Status::Refused));
    let enough =
        b"p claim 2 tape lines 5\np claim 0 disk\ntape capital 2 least 2 free 2\ndisk capital 0 least 0 free 0\nno request waits\norder tape disk\n";
    assert!(rt; is_planned(rt.alloc(), &["disk=0", "tape=2"], enough, Status::Done));
    assert!(rt;
        is_planned(
            rt.alloc(),
            &["tape=2", "reel=1"],
            b"refused N3 reel\n",
            Status::Refused
        )
    );
}
