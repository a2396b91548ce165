//! Texts, and the code that they are compiled to.

use crate::calls::{CHECK, Call, Case, Given, first_wrong};
use pb_code::{Format, Instr};
use pb_codegen::{Compiled, compile};
use pb_command_io::Status;
use std::alloc::Global;

/// Returns whether the code of the first process begins its arms at these places and has these instructions.
fn has_code(compiled: &Compiled, entries: &[u16], instrs: &[Instr]) -> bool {
    match compiled.verified().code().processes.get(0) {
        Some(process) => {
            process.entries.as_slice() == entries && process.instrs.as_slice() == instrs
        }
        None => false,
    }
}

/// Returns whether these places of the first process have these source lines, or none.
fn has_lines(compiled: &Compiled, lines: &[(usize, Option<u32>)]) -> bool {
    let Some(process) = compiled.labels().processes.get(0) else {
        return false;
    };
    for (place, line) in lines {
        if *place >= process.lines.len() || process.lines[*place] != *line {
            return false;
        }
    }
    true
}

/// Returns whether a text is compiled to such code, with such lines.
fn is_compiled_to(
    alloc: Global,
    text: &[u8],
    entries: &[u16],
    instrs: &[Instr],
    lines: &[(usize, Option<u32>)],
) -> bool {
    match compile(alloc, alloc, text) {
        Ok(compiled) => has_code(&compiled, entries, instrs) && has_lines(&compiled, lines),
        Err(_) => false,
    }
}

const LOOP: &[u8] = b"process p begin integer x;
  while x < 3 do
    parbegin
      print x;
      print x + 10
    parend;
    x := x + 1
  od
end";

const LOOP_CODE: [Instr; 20] = [
    Instr::Load(0),
    Instr::Push(3),
    Instr::Lt,
    Instr::JumpIfZero(11),
    Instr::Fork { first: 1, count: 2 },
    Instr::Join { first: 1, count: 2 },
    Instr::Load(0),
    Instr::Push(1),
    Instr::Add,
    Instr::Store(0),
    Instr::Jump(0),
    Instr::End,
    Instr::Load(0),
    Instr::Print,
    Instr::End,
    Instr::Load(0),
    Instr::Push(10),
    Instr::Add,
    Instr::Print,
    Instr::End,
];

const HOLDS: &[u8] = b"resource t = 4;
process p begin
  hold 1 of t do
    parbegin
      hold 1 of t do skip od;
      hold 2 of t do skip od
    parend
  od
end";

const HOLDS_CODE: [Instr; 11] = [
    Instr::Take(0),
    Instr::Fork { first: 1, count: 2 },
    Instr::Join { first: 1, count: 2 },
    Instr::Give(0),
    Instr::End,
    Instr::Take(1),
    Instr::Give(1),
    Instr::End,
    Instr::Take(2),
    Instr::Give(2),
    Instr::End,
];

const BRANCH: &[u8] = b"resource r = 3; resource s = 9;
process p begin integer x;
  if x then
    hold 2 of s, 1 of r do x := 1 od
  fi;
  print x
end";

const BRANCH_CODE: [Instr; 10] = [
    Instr::Load(0),
    Instr::JumpIfZero(7),
    Instr::Take(0),
    Instr::Push(1),
    Instr::Store(0),
    Instr::Give(0),
    Instr::Jump(7),
    Instr::Load(0),
    Instr::Print,
    Instr::End,
];

/// A text, the places at which the arms of its first process begin, its instructions, and the lines of some
/// places.
type Meaning = (
    &'static [u8],
    &'static [u16],
    &'static [Instr],
    &'static [(usize, Option<u32>)],
);

const MEANINGS: [Meaning; 3] = [
    (
        LOOP,
        &[0, 12, 15],
        &LOOP_CODE,
        &[
            (3, Some(2)),
            (5, Some(3)),
            (10, Some(2)),
            (11, None),
            (18, Some(5)),
        ],
    ),
    (HOLDS, &[0, 5, 8], &HOLDS_CODE, &[(3, Some(3)), (4, None)]),
    (BRANCH, &[0], &BRANCH_CODE, &[(6, Some(6))]),
];

#[test]
fn a_loop_of_arms_nested_holds_and_a_branch(rt: HostRuntime) {
    for (text, entries, instrs, lines) in &MEANINGS {
        assert!(rt; is_compiled_to(rt.alloc(), *text, *entries, *instrs, *lines));
    }
}

/// The object of `BRANCH`, whose hold takes two pairs.
const BRANCH_OBJECT: &[u8] = b"PBO 2
resources 2
resource r 3
resource s 9
processes 1
process p
vars 1 x
arms 1
claims 1 2
arm 0
code 10
3 load 0
3 jzero 7
4 take 1 2 0 1
4 push 1
4 store 0
4 give 1 2 0 1
6 jump 7
6 load 0
6 print
0 end
";

const OVER: &[u8] = b"resource t = 1; resource u = 3;
process p begin hold 1 of t do skip od end
process q begin hold 3 of u do parbegin hold 1 of t do skip od; hold 2 of u do skip od parend od end
process r begin hold 9 of t do skip od end";

const ANSWERS: [Case; 3] = [
    (
        Call::Emit(Format::Two),
        Given::Text(BRANCH),
        Status::Done,
        BRANCH_OBJECT,
    ),
    // The first claim over its capital is that of q on u.
    (
        CHECK,
        Given::Text(OVER),
        Status::Refused,
        b"refused C1 q u claim 5 capital 3\n",
    ),
    // The analysis has claims whatever the capital is.
    (
        Call::Claims,
        Given::Text(OVER),
        Status::Done,
        b"p claim 1 t\np claim 0 u\nq claim 1 t\nq claim 5 u\nr claim 9 t\nr claim 0 u\n",
    ),
];

#[test]
fn a_joint_hold_and_claims_over_the_capital(rt: HostRuntime) {
    assert!(rt; first_wrong(&rt, &ANSWERS) == None);
}
