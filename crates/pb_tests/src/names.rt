//! Programs, and the objects of their numbered forms or the faults of their names.

mod memories;

use crate::calls::{CHECK, Call, Case, Given, THOUSAND, first_wrong, writes};
use crate::texts::{SIXTEEN_ARMS, idle};
use crate::trees::read;
use pb_code::Format;
use pb_command_io::Status;
use pb_names::{Kind, NameFault, is_complete};
use std::alloc::Global;
use std::sync::Wait;
use std::thread::Threads;

/// A program of one assignment.
const SUM: &[u8] = b"process p begin
  integer x, yy;
  yy := yy + x
end";

/// Integer 1 becomes the sum of integer 1 and integer 0, in line 3.
const SUM_NUMBERED: &[u8] = b"PBO 2
resources 0
processes 1
process p
vars 2 x yy
arms 1
claims
arm 0
code 5
3 load 1
3 load 0
3 add
3 store 1
0 end
";

/// A hold of both resources in the other order.
const HOLD: &[u8] = b"resource t = 3; resource u = 4; process p begin
  hold 2 of u, 1 of t do skip od
end";

/// Takes two of resource 1 and one of resource 0, in line 2.
const HOLD_NUMBERED: &[u8] = b"PBO 2
resources 2
resource t 3
resource u 4
processes 1
process p
vars 0
arms 1
claims 1 2
arm 0
code 3
2 take 1 2 0 1
2 give 1 2 0 1
0 end
";

/// A parbegin in each of the two arms of another.
const FORKS: &[u8] =
    b"process p begin parbegin parbegin skip; skip parend; parbegin skip parend parend end";

/// The outer parbegin has the arms 1 and 2, those inside 3 and 4, and 5.
const FORKS_NUMBERED: &[u8] = b"PBO 2
resources 0
processes 1
process p
vars 0
arms 6
claims
arm 0
arm 3
arm 6
arm 9
arm 10
arm 11
code 12
1 fork 1 2
1 join 1 2
0 end
1 fork 3 2
1 join 3 2
0 end
1 fork 5 1
1 join 5 1
0 end
0 end
0 end
0 end
";

/// A parbegin of two arms in a loop in a choice, and one of three beside the loop.
const CHOICE: &[u8] = b"process p begin
  integer x,
    yy;
  if yy then
    while x do parbegin skip; skip parend od
  else parbegin skip; skip; skip parend fi
end";

/// The parbegin in the loop has the arms from 1 on, that beside it those from 3 on.
const CHOICE_NUMBERED: &[u8] = b"PBO 2
resources 0
processes 1
process p
vars 2 x yy
arms 6
claims
arm 0
arm 11
arm 12
arm 13
arm 14
arm 15
code 16
4 load 1
4 jzero 8
5 load 0
5 jzero 7
5 fork 1 2
5 join 1 2
5 jump 2
0 jump 10
6 fork 3 3
6 join 3 3
0 end
0 end
0 end
0 end
0 end
0 end
";

/// Integers and resources are numbered as they are declared, the arms of a parbegin before those inside, also
/// in loops and choices.
const NUMBERED: [Case; 4] = [
    (
        Call::Emit(Format::Two),
        Given::Text(SUM),
        Status::Done,
        SUM_NUMBERED,
    ),
    (
        Call::Emit(Format::Two),
        Given::Text(HOLD),
        Status::Done,
        HOLD_NUMBERED,
    ),
    (
        Call::Emit(Format::Two),
        Given::Text(FORKS),
        Status::Done,
        FORKS_NUMBERED,
    ),
    (
        Call::Emit(Format::Two),
        Given::Text(CHOICE),
        Status::Done,
        CHOICE_NUMBERED,
    ),
];

#[test]
fn numbers_names_in_order_of_declaration_and_arms_from_outside(rt: HostRuntime) {
    assert!(rt; first_wrong(&rt, &NUMBERED) == None);
}

/// Returns whether the tree of a text is complete without the arms of its second statement, if that is a
/// parbegin, or the pairs, if it is a hold; else without its processes.
fn is_complete_without(alloc: Global, text: &[u8]) -> Option<bool> {
    let mut tree = read(alloc, text)?;
    match tree.processes.get_mut(0)?.body.get_mut(1) {
        Some(pb_tree::Stmt::Parbegin { arms, .. }) => arms.clear(),
        Some(pb_tree::Stmt::Hold { demands, .. }) => demands.clear(),
        _ => tree.processes.clear(),
    }
    Some(is_complete(&tree))
}

/// Texts that are complete, and not without an arm, a pair or a process.
const COMPLETE: [&[u8]; 3] = [
    b"process p begin parbegin skip parend; parbegin skip; skip parend end",
    b"resource t = 1; process p begin print 1; hold 1 of t do skip od end",
    b"process p begin skip end",
];

#[test]
fn asks_for_an_arm_a_pair_and_a_process(rt: HostRuntime) {
    for text in &COMPLETE {
        let is_accepted = writes(&rt, CHECK, *text, Status::Done, b"ok\n");
        assert!(rt; is_accepted && is_complete_without(rt.alloc(), *text) == Some(false));
    }
}

/// Texts, and whether they are accepted, or the fault of least offset.
const TEXTS: [Case; 14] = [
    // The second `x` is declared twice, and `z` is not declared.
    (
        CHECK,
        Given::Text(b"process p begin integer x, yy, x; x := x + z end"),
        Status::Refused,
        b"refused N2 at 31\n",
    ),
    // None of the three is declared.
    (
        CHECK,
        Given::Text(b"process p begin x := x + x end"),
        Status::Refused,
        b"refused N3 at 16\n",
    ),
    // The integers of another process are not declared in this one.
    (
        CHECK,
        Given::Text(b"process p begin integer x, yy; skip end process q begin x := x + x end"),
        Status::Refused,
        b"refused N3 at 56\n",
    ),
    // A process is not a resource.
    (
        CHECK,
        Given::Text(b"resource t = 3; process p begin hold 1 of p do skip od end"),
        Status::Refused,
        b"refused N3 at 42\n",
    ),
    (
        CHECK,
        Given::Text(b"process p begin skip end process p begin skip end"),
        Status::Refused,
        b"refused N2 at 33\n",
    ),
    (
        CHECK,
        Given::Text(b"resource t = 3; process p begin hold 0 of t do skip od end"),
        Status::Refused,
        b"refused N4 at 37\n",
    ),
    (
        CHECK,
        Given::Text(b"resource t = 3; process p begin hold 1 of t do skip od end"),
        Status::Done,
        b"ok\n",
    ),
    // The amount is accepted, and then the claim refused.
    (
        CHECK,
        Given::Text(b"resource t = 3; process p begin hold 1000000 of t do skip od end"),
        Status::Refused,
        b"refused C1 p t claim 1000000 capital 3\n",
    ),
    (
        CHECK,
        Given::Text(b"resource t = 3; process p begin hold 1000001 of t do skip od end"),
        Status::Refused,
        b"refused N4 at 37\n",
    ),
    (
        CHECK,
        Given::Text(b"resource t = 0; process p begin skip end"),
        Status::Done,
        b"ok\n",
    ),
    (
        CHECK,
        Given::Text(b"resource t = 1000000; process p begin skip end"),
        Status::Done,
        b"ok\n",
    ),
    (
        CHECK,
        Given::Text(b"resource t = 1000001; process p begin skip end"),
        Status::Refused,
        b"refused N4 at 13\n",
    ),
    (
        CHECK,
        Given::Text(b"resource t = 3; process p begin hold 1 of t, 2 of t do skip od end"),
        Status::Refused,
        b"refused N6 at 50\n",
    ),
    // The resource that is named again was unknown at its first offset.
    (
        CHECK,
        Given::Text(b"resource t = 3; process p begin hold 1 of v, 2 of v do skip od end"),
        Status::Refused,
        b"refused N3 at 42\n",
    ),
];

#[test]
fn tells_the_fault_of_least_place(rt: HostRuntime) {
    assert!(rt; first_wrong(&rt, &TEXTS) == None);
}

/// What is written when 64 processes have ended.
const ENDS: &[u8] =
    b"p0 end\np1 end\np2 end\np3 end\np4 end\np5 end\np6 end\np7 end\np8 end\np9 end\np10 end\np11 end\np12 end\np13 end\np14 end\np15 end\np16 end\np17 end\np18 end\np19 end\np20 end\np21 end\np22 end\np23 end\np24 end\np25 end\np26 end\np27 end\np28 end\np29 end\np30 end\np31 end\np32 end\np33 end\np34 end\np35 end\np36 end\np37 end\np38 end\np39 end\np40 end\np41 end\np42 end\np43 end\np44 end\np45 end\np46 end\np47 end\np48 end\np49 end\np50 end\np51 end\np52 end\np53 end\np54 end\np55 end\np56 end\np57 end\np58 end\np59 end\np60 end\np61 end\np62 end\np63 end\ndone\n";

/// Returns whether 64 processes are accepted, and 65 refused.
fn has_limit_of_processes(rt: &(impl AllocGlobal + Threads + Wait + Sync)) -> Option<bool> {
    let most = idle(rt.alloc(), 64).ok()?;
    let more = idle(rt.alloc(), 65).ok()?;
    Some(
        writes(rt, Call::Run(THOUSAND), &most, Status::Done, ENDS)
            && writes(rt, CHECK, &more, Status::Refused, b"refused N1 processes\n"),
    )
}

#[test]
fn refuses_too_many_processes(rt: HostRuntime) {
    assert!(rt; has_limit_of_processes(&rt) == Some(true));
}

/// A process of 64 integers, which prints the last.
const SIXTY_FOUR_INTEGERS: &[u8] = b"process p begin integer
  x0, x1, x2, x3, x4, x5, x6, x7, x8, x9, x10, x11, x12, x13, x14, x15,
  x16, x17, x18, x19, x20, x21, x22, x23, x24, x25, x26, x27, x28, x29, x30, x31,
  x32, x33, x34, x35, x36, x37, x38, x39, x40, x41, x42, x43, x44, x45, x46, x47,
  x48, x49, x50, x51, x52, x53, x54, x55, x56, x57, x58, x59, x60, x61, x62, x63;
  x63 := 7; print x63
end";

#[test]
fn sixty_four_integers_are_accepted(rt: HostRuntime) {
    assert!(rt;
        writes(
            &rt,
            Call::Run(THOUSAND),
            SIXTY_FOUR_INTEGERS,
            Status::Done,
            b"p.0 print 7\np end\ndone\n"
        )
    );
}

/// Texts of 65 integers, also under 17 resources, of 64 and 65 arms in all, and of 17 arms in one parbegin.
const TOO_MANY: [Case; 5] = [
    (
        CHECK,
        Given::Pieces(&[
            (b"process p begin integer x", 1),
            (b", x", 64),
            (b"; skip end", 1),
        ]),
        Status::Refused,
        b"refused N1 integers\n",
    ),
    (
        CHECK,
        Given::Pieces(&[
            (b"resource t = 1; ", 17),
            (b"process p begin integer x", 1),
            (b", x", 64),
            (b"; skip end", 1),
        ]),
        Status::Refused,
        b"refused N1 resources\n",
    ),
    (
        CHECK,
        Given::Pieces(&[
            (b"process p begin ", 1),
            (SIXTEEN_ARMS, 3),
            (b"parbegin ", 1),
            (b"skip;", 14),
            (b"skip parend end", 1),
        ]),
        Status::Done,
        b"ok\n",
    ),
    (
        CHECK,
        Given::Pieces(&[
            (b"process p begin ", 1),
            (SIXTEEN_ARMS, 3),
            (b"parbegin ", 1),
            (b"skip;", 15),
            (b"skip parend end", 1),
        ]),
        Status::Refused,
        b"refused N1 arms\n",
    ),
    (
        CHECK,
        Given::Pieces(&[
            (b"process p begin parbegin ", 1),
            (b"skip;", 16),
            (b"skip parend end", 1),
        ]),
        Status::Refused,
        b"refused N1 fork\n",
    ),
];

#[test]
fn refuses_too_many_resources_integers_and_arms(rt: HostRuntime) {
    assert!(rt; first_wrong(&rt, &TOO_MANY) == None);
}

#[test]
fn tells_what_there_is_too_much_of(rt: HostRuntime) {
    let Ok(told) = NameFault::TooMany(Kind::Integers).to_string(rt.alloc()) else {
        panic!(rt; "out of memory")
    };
    assert!(rt; told.as_str() == "too many integers");
}
