//! Programs that are stepped on both sides.

mod answers;
mod draws;
mod replays;
mod runs;
mod schedules;
mod sides;
mod states;
mod tally;
mod texts;

ghost use Rattle.pb_names.specs.View.{resolved_view};
ghost use Rattle.pb_rewrite.specs.Sources.{FitsClaims};

use crate::agreement::schedules::follow;
use crate::agreement::sides::{Program, program_of};
use crate::agreement::tally::Tally;
use crate::agreement::texts::{LONG, PROCESSES};
use crate::texts::{EXAMPLES, PROGRAMS, repeated};
use std::alloc::Global;

/// How many schedules each program is stepped under.
const SCHEDULES: u64 = 300;

/// How many schedules each long program is stepped under.
const FEW_SCHEDULES: u64 = 20;

/// Returns the text with a line feed in place of each space but those of comments, so that no two statements
/// share a line.
fn spread(alloc: Global, text: &[u8]) -> Option<Vec<u8>> {
    let mut spread = Vec::new(alloc);
    let mut in_comment = false;
    for byte in text {
        in_comment = match byte {
            b'/' => true,
            b'\n' => false,
            _ => in_comment,
        };
        let space = *byte == b' ' && !in_comment;
        spread.push(if space { b'\n' } else { *byte }).ok()?;
    }
    Some(spread)
}

/// Returns whether the sides agree on a program under `schedules` schedules.
fn agree_under(alloc: Global, program: &Program, schedules: u64, tally: &mut Tally) -> bool
    requires { FitsClaims (resolved_view program.now.analysis.program) program.now.analysis.claims }
{
    for schedule in 0..schedules {
        match follow(alloc, program, schedule, tally) {
            Ok(None) => {}
            _ => return false,
        }
    }
    true
}

/// Steps a program under `schedules` schedules. Returns whether the sides agree.
fn agree(alloc: Global, text: &[u8], schedules: u64, tally: &mut Tally) -> bool {
    let Some(text) = spread(alloc, text) else {
        return false;
    };
    match program_of(alloc, text.as_slice()) {
        Ok(program) => agree_under(alloc, &program, schedules, tally),
        Err(_) => false,
    }
}

/// Steps a program of a head, a piece again and again, and a tail under few schedules.
fn agree_on_long(
    alloc: Global,
    head: &[u8],
    piece: &[u8],
    times: usize,
    tail: &[u8],
    tally: &mut Tally,
) -> bool {
    match repeated(alloc, head, piece, times, tail) {
        Ok(text) => agree(alloc, text.as_slice(), FEW_SCHEDULES, tally),
        Err(_) => false,
    }
}

#[test]
fn both_sides_agree(rt: HostRuntime) {
    let mut tally = Tally::new();
    for (number, text) in EXAMPLES.iter().enumerate() {
        assert!(rt;
            agree(rt.alloc(), text, SCHEDULES, &mut tally),
            "example {number}"
        );
    }
    for (number, text) in PROGRAMS.iter().enumerate() {
        assert!(rt;
            agree(rt.alloc(), text, SCHEDULES, &mut tally),
            "program {number}"
        );
    }
    assert!(rt; tally.has_more_than(1_000));
}

#[test]
fn both_sides_agree_on_long_programs(rt: HostRuntime) {
    let mut tally = Tally::new();
    for (head, piece, times, tail) in &LONG {
        assert!(rt; agree_on_long(rt.alloc(), *head, *piece, *times, *tail, &mut tally));
    }
    assert!(rt; agree(rt.alloc(), PROCESSES, FEW_SCHEDULES, &mut tally));
    // All but the long row of prints have come to their ends under each schedule.
    assert!(rt; tally.finished == FEW_SCHEDULES * 66);
}
