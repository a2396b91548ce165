//! Code of objects, and its verdict.

use crate::calls::{Call, Case, Given, first_wrong};
use pb_base::Claims;
use pb_code::{Code, Instr};
use pb_command_io::Status;
use pb_object::{read_any, read_object, write_object2};
use pb_verifier::{Verified, VerifyFault, verify};
use std::alloc::Global;

/// An arm that holds, and two that hold in its hold.
const FORKED: &[u8] =
    b"PBO 2\nresources 1\nresource ra 4\nprocesses 1\nprocess pa\nvars 0\narms 3\nclaims 4\narm 0\narm 5\narm 8\ncode 11\n0 take 0 1\n0 fork 1 2\n0 join 1 2\n0 give 0 1\n0 end\n0 take 0 1\n0 give 0 1\n0 end\n0 take 0 2\n0 give 0 2\n0 end\n";

/// Counts to three.
const COUNTING: &[u8] =
    b"PBO 2\nresources 1\nresource ra 4\nprocesses 1\nprocess pa\nvars 1 x\narms 1\nclaims 0\narm 0\ncode 10\n0 load 0\n0 push 3\n0 lt\n0 jzero 9\n0 load 0\n0 push 1\n0 add\n0 store 0\n0 jump 0\n0 end\n";

/// Takes one and then two, and gives them back in the other order.
const NESTED: &[u8] =
    b"PBO 2\nresources 1\nresource ra 4\nprocesses 1\nprocess pa\nvars 0\narms 1\nclaims 3\narm 0\ncode 5\n0 take 0 1\n0 take 0 2\n0 give 0 2\n0 give 0 1\n0 end\n";

const ACCEPTED: [Case; 3] = [
    (Call::Migrate, Given::Text(FORKED), Status::Done, FORKED),
    (Call::Migrate, Given::Text(COUNTING), Status::Done, COUNTING),
    (Call::Migrate, Given::Text(NESTED), Status::Done, NESTED),
];

#[test]
fn code_that_is_accepted(rt: HostRuntime) {
    assert!(rt; first_wrong(&rt, &ACCEPTED) == None);
}

/// The lines of an object of one resource before its capital.
const RESOURCE: &[u8] = b"PBO 1\nresources 1\nresource r ";

/// The lines between that capital and the arms of a process of one integer.
const PROCESS: &[u8] = b"\nprocesses 1\nprocess p\nvars 1\n";

/// Objects of one process: the capital, the lines that follow, and the fault.
const REFUSED: [Case; 19] = [
    (
        Call::Migrate,
        Given::Pieces(&[
            (RESOURCE, 1),
            (b"9", 1),
            (PROCESS, 1),
            (b"arms 1\nclaims 10\narm 0\ncode 1\nend\n", 1),
        ]),
        Status::Refused,
        b"refused V8\n",
    ),
    (
        Call::Migrate,
        Given::Pieces(&[
            (RESOURCE, 1),
            (b"9", 1),
            (PROCESS, 1),
            (
                b"arms 1\nclaims 9\narm 0\ncode 3\npush 1\nstore 1\nend\n",
                1,
            ),
        ]),
        Status::Refused,
        b"refused V3\n",
    ),
    (
        Call::Migrate,
        Given::Pieces(&[
            (RESOURCE, 1),
            (b"9", 1),
            (PROCESS, 1),
            (b"arms 1\nclaims 9\narm 0\ncode 2\njump 2\nend\n", 1),
        ]),
        Status::Refused,
        b"refused V1\n",
    ),
    (
        Call::Migrate,
        Given::Pieces(&[
            (RESOURCE, 1),
            (b"9", 1),
            (PROCESS, 1),
            (b"arms 2\nclaims 9\narm 0\narm 1\ncode 2\nend\nend\n", 1),
        ]),
        Status::Refused,
        b"refused V6\n",
    ),
    (
        Call::Migrate,
        Given::Pieces(&[
            (RESOURCE, 1),
            (b"9", 1),
            (PROCESS, 1),
            (b"arms 1\nclaims 9\narm 0\ncode 3\npush 1\njump 0\nend\n", 1),
        ]),
        Status::Refused,
        b"refused V2\n",
    ),
    (
        Call::Migrate,
        Given::Pieces(&[
            (RESOURCE, 1),
            (b"9", 1),
            (PROCESS, 1),
            (
                b"arms 1\nclaims 9\narm 0\ncode 3\ntake 0 1\njump 0\nend\n",
                1,
            ),
        ]),
        Status::Refused,
        b"refused V4\n",
    ),
    (
        Call::Migrate,
        Given::Pieces(&[
            (RESOURCE, 1),
            (b"3", 1),
            (PROCESS, 1),
            (
                b"arms 1\nclaims 3\narm 0\ncode 5\ntake 0 1\ntake 0 2\ngive 0 1\ngive 0 2\nend\n",
                1,
            ),
        ]),
        Status::Refused,
        b"refused V4\n",
    ),
    (
        Call::Migrate,
        Given::Pieces(&[
            (RESOURCE, 1),
            (b"9", 1),
            (PROCESS, 1),
            (b"arms 1\nclaims 9\narm 0\ncode 2\ntake 0 1\nend\n", 1),
        ]),
        Status::Refused,
        b"refused V5\n",
    ),
    (
        Call::Migrate,
        Given::Pieces(&[
            (RESOURCE, 1),
            (b"9", 1),
            (PROCESS, 1),
            (b"arms 1\nclaims 9\narm 0\ncode 2\npush 1\nend\n", 1),
        ]),
        Status::Refused,
        b"refused V5\n",
    ),
    (
        Call::Migrate,
        Given::Pieces(&[
            (RESOURCE, 1),
            (b"3", 1),
            (PROCESS, 1),
            (
                b"arms 1\nclaims 2\narm 0\ncode 5\ntake 0 1\ntake 0 2\ngive 0 2\ngive 0 1\nend\n",
                1,
            ),
        ]),
        Status::Refused,
        b"refused V7\n",
    ),
    (
        Call::Migrate,
        Given::Pieces(&[
            (RESOURCE, 1),
            (b"4", 1),
            (PROCESS, 1),
            (b"arms 1\nclaims 5\narm 0\ncode 1\nend\n", 1),
        ]),
        Status::Refused,
        b"refused V8\n",
    ),
    (
        Call::Migrate,
        Given::Pieces(&[
            (RESOURCE, 1),
            (b"4", 1),
            (PROCESS, 1),
            (
                b"arms 1\nclaims 0\narm 0\ncode 3\npush 1\nstore 1\nend\n",
                1,
            ),
        ]),
        Status::Refused,
        b"refused V3\n",
    ),
    (
        Call::Migrate,
        Given::Pieces(&[
            (RESOURCE, 1),
            (b"4", 1),
            (PROCESS, 1),
            (b"arms 1\nclaims 0\narm 0\ncode 2\njump 2\nend\n", 1),
        ]),
        Status::Refused,
        b"refused V1\n",
    ),
    (
        Call::Migrate,
        Given::Pieces(&[
            (RESOURCE, 1),
            (b"4", 1),
            (PROCESS, 1),
            (b"arms 1\nclaims 0\narm 0\ncode 3\npush 1\njump 0\nend\n", 1),
        ]),
        Status::Refused,
        b"refused V2\n",
    ),
    (
        Call::Migrate,
        Given::Pieces(&[
            (RESOURCE, 1),
            (b"4", 1),
            (PROCESS, 1),
            (
                b"arms 1\nclaims 4\narm 0\ncode 3\ntake 0 1\njump 0\nend\n",
                1,
            ),
        ]),
        Status::Refused,
        b"refused V4\n",
    ),
    (
        Call::Migrate,
        Given::Pieces(&[
            (RESOURCE, 1),
            (b"4", 1),
            (PROCESS, 1),
            (
                b"arms 1\nclaims 3\narm 0\ncode 5\ntake 0 1\ntake 0 2\ngive 0 1\ngive 0 2\nend\n",
                1,
            ),
        ]),
        Status::Refused,
        b"refused V4\n",
    ),
    (
        Call::Migrate,
        Given::Pieces(&[
            (RESOURCE, 1),
            (b"4", 1),
            (PROCESS, 1),
            (b"arms 1\nclaims 4\narm 0\ncode 2\ntake 0 1\nend\n", 1),
        ]),
        Status::Refused,
        b"refused V5\n",
    ),
    (
        Call::Migrate,
        Given::Pieces(&[
            (RESOURCE, 1),
            (b"4", 1),
            (PROCESS, 1),
            (
                b"arms 1\nclaims 2\narm 0\ncode 5\ntake 0 1\ntake 0 2\ngive 0 2\ngive 0 1\nend\n",
                1,
            ),
        ]),
        Status::Refused,
        b"refused V7\n",
    ),
    (
        Call::Migrate,
        Given::Pieces(&[
            (RESOURCE, 1),
            (b"4", 1),
            (PROCESS, 1),
            (b"arms 2\nclaims 0\narm 0\narm 1\ncode 2\nend\nend\n", 1),
        ]),
        Status::Refused,
        b"refused V6\n",
    ),
];

#[test]
fn each_fault_of_an_object(rt: HostRuntime) {
    assert!(rt; first_wrong(&rt, &REFUSED) == None);
}

/// An object of one process that prints a sum.
const SUM: &[u8] =
    b"PBO 1\nresources 1\nresource ra 4\nprocesses 1\nprocess pa\nvars 0\narms 1\nclaims 0\narm 0\ncode 5\npush 7\npush 8\nadd\nprint\nend\n";

/// Returns whether verified code has one process with its name, and one arm that puts at most two operands.
fn is_verified_sum(verified: &Verified) -> bool {
    verified.code().processes.len() == 1
        && verified.names().processes.len() == 1
        && verified.arms(0) == 1
        && verified.depth(0, 0) == 2
}

/// Returns whether the code of `SUM` is verified as that sum.
fn sum_is_verified(alloc: Global) -> Option<bool> {
    match verify(alloc, read_object(alloc, SUM).ok()?) {
        Ok(verified) => Some(is_verified_sum(&verified)),
        Err(_) => None,
    }
}

#[test]
fn the_verified_code_and_its_depths(rt: HostRuntime) {
    assert!(rt; sum_is_verified(rt.alloc()) == Some(true));
}

/// An object of one process that jumps out of its code.
const JUMPS_OUT: &[u8] =
    b"PBO 1\nresources 1\nresource ra 4\nprocesses 1\nprocess pa\nvars 0\narms 1\nclaims 0\narm 0\ncode 2\njump 2\nend\n";

/// Returns the fault of the code of `JUMPS_OUT`, and the number of processes in what is handed back.
fn refusal(alloc: Global) -> Option<(VerifyFault, usize)> {
    match verify(alloc, read_object(alloc, JUMPS_OUT).ok()?) {
        Ok(_) => None,
        Err((code, fault)) => Some((fault, code.processes.len())),
    }
}

#[test]
fn the_code_is_handed_back(rt: HostRuntime) {
    assert!(rt; refusal(rt.alloc()) == Some((VerifyFault::WrongArms, 1)));
}

/// An object of one process that takes one of 256, by its only bundle.
const TAKING: &[u8] =
    b"PBO 1\nresources 1\nresource ra 256\nprocesses 1\nprocess pa\nvars 0\narms 1\nclaims 0\narm 0\ncode 3\ntake 0 1\ngive 0 1\nend\n";

/// Takes one of the resource.
const ONE: Instr = Instr::Take(0);

/// Gives the first process of a code this number of integers, these instructions and this claim.
fn change(
    alloc: Global,
    code: &mut Code,
    integers: u8,
    instrs: &[Instr],
    claim: u64,
) -> Option<()> {
    code.claims = Claims::new(alloc, &[&[claim]]).ok()?;
    let process = code.processes.get_mut(0)?;
    process.integers = integers;
    process.instrs = Vec::from_slice(alloc, instrs).ok()?;
    Some(())
}

/// Returns the fault of the code of `TAKING` that is changed so, if it has one, and whether there is such
/// code.
fn fault_of(
    alloc: Global,
    integers: u8,
    instrs: &[Instr],
    claim: u64,
) -> Option<Option<VerifyFault>> {
    let mut code = read_object(alloc, TAKING).ok()?;
    change(alloc, &mut code, integers, instrs, claim)?;
    match verify(alloc, code) {
        Ok(_) => Some(None),
        Err((_, fault)) => Some(Some(fault)),
    }
}

/// Code that no object says, beyond the limits: the number of integers, the instructions and the claim.
const BEYOND: [(u8, &[Instr], u64); 3] = [
    (65, &[Instr::End], 0),
    (0, &[Instr::End], 1_000_001),
    (0, &[Instr::Take(2), Instr::Give(2), Instr::End], 4),
];

#[test]
fn code_beyond_the_limits(rt: HostRuntime) {
    for (integers, instrs, claim) in &BEYOND {
        let fault = fault_of(rt.alloc(), *integers, *instrs, *claim);
        assert!(rt; fault == Some(Some(VerifyFault::OutOfLimits)));
    }
}

/// Adds instructions again and again.
fn repeat(code: &mut Vec<Instr>, instrs: &[Instr], times: usize) -> Option<()> {
    for _ in 0..times {
        code.extend_from_slice(instrs).ok()?;
    }
    Some(())
}

/// The place after the jumps and the second list of bundles.
const PRINTS: u16 = 2 + 256 + 2 * 9_500 + 1 + 256;

/// Adds tests that jump to a print each.
fn add_jumps(code: &mut Vec<Instr>) -> Option<()> {
    for i in 0..9_500u16 {
        let jump = [Instr::Push(0), Instr::JumpIfZero(PRINTS + 2 * i)];
        code.extend_from_slice(&jump).ok()?;
    }
    Some(())
}

/// Adds each of these lists of instructions as often as it says.
fn add_each(code: &mut Vec<Instr>, lists: &[(&[Instr], usize)]) -> Option<()> {
    for (instrs, times) in lists {
        repeat(code, *instrs, *times)?;
    }
    Some(())
}

const BEFORE_THE_JUMPS: [(&[Instr], usize); 2] = [
    (
        &[Instr::Push(0), Instr::JumpIfZero(2 + 256 + 2 * 9_500 + 1)],
        1,
    ),
    (&[ONE], 256),
];

const BEHIND_THE_JUMPS: [(&[Instr], usize); 5] = [
    (&[Instr::Jump(PRINTS)], 1),
    (&[ONE], 256),
    (&[Instr::Push(0), Instr::Print], 9_500),
    (&[Instr::Give(0)], 256),
    (&[Instr::End], 1),
];

/// Returns two equal lists of 256 bundles, taken at different places, which many jumps compare.
fn comparing(alloc: Global) -> Option<Vec<Instr>> {
    let mut code = Vec::new(alloc);
    add_each(&mut code, &BEFORE_THE_JUMPS)?;
    add_jumps(&mut code)?;
    add_each(&mut code, &BEHIND_THE_JUMPS)?;
    Some(code)
}

/// Returns whether that code is accepted with a claim of 256, and refused with one of 255.
fn needs_256(alloc: Global) -> Option<bool> {
    let code = comparing(alloc)?;
    let accepted = fault_of(alloc, 0, &code, 256)?;
    let refused = fault_of(alloc, 0, &code, 255)?;
    Some(accepted == None && refused == Some(VerifyFault::OverClaim))
}

#[test]
fn many_comparisons(rt: HostRuntime) {
    assert!(rt; needs_256(rt.alloc()) == Some(true));
}

/// A loop with a hold and a test.
const LOOP: &[u8] =
    b"PBO 1\nresources 1\nresource r 9\nprocesses 1\nprocess p\nvars 1\narms 1\nclaims 9\narm 0\ncode 10\nload 0\npush 3\nlt\njzero 9\ntake 0 9\npush 90\nstore 0\ngive 0 9\njump 0\nend\n";

/// Two processes, one of which forks an arm, and holds of two resources at once.
const JOINT: &[u8] =
    b"PBO 2\nresources 2\nresource r 9\nresource s_1 1000000\nprocesses 2\nprocess p\nvars 0\narms 2\nclaims 1 0\narm 0\narm 3\ncode 6\n1 fork 1 1\n1 join 1 1\n0 end\n2 take 0 1\n2 give 0 1\n0 end\nprocess Q\nvars 2 a b\narms 1\nclaims 9 1000000\narm 0\ncode 7\n2 take 1 1000000 0 9\n3 push -9223372036854775808\n4 jzero 4\n0 jump 4\n10 load 1\n10 print\n65536 jump 6\n";

/// Returns whether a code is verified, if it is the same as another before and after.
fn is_verified_as(alloc: Global, code: Code, other: &Code) -> Option<bool> {
    if !code.same(other) {
        return None;
    }
    let (is_same, is_verified) = match verify(alloc, code) {
        Ok(verified) => (verified.code().same(other), true),
        Err((code, _)) => (code.same(other), false),
    };
    if is_same { Some(is_verified) } else { None }
}

/// Returns whether a text is an object whose code is verified. If it is an object, its code is read again
/// from the text that is written of it; else nothing is returned.
fn is_verified(alloc: Global, text: &[u8]) -> Option<bool> {
    let Ok((code, labels)) = read_any(alloc, text) else {
        return Some(false);
    };
    let written = write_object2(alloc, &code, &labels).ok()?;
    let (again, _) = read_any(alloc, &written).ok()?;
    is_verified_as(alloc, code, &again)
}

/// Returns a text with another byte at a place.
fn with_byte(alloc: Global, text: &[u8], place: usize, byte: u8) -> Option<Vec<u8>> {
    let mut changed = Vec::from_slice(alloc, text).ok()?;
    *changed.get_mut(place)? = byte;
    Some(changed)
}

/// Returns how many texts with another byte at one place are verified.
fn verified_changes(alloc: Global, text: &[u8]) -> Option<usize> {
    let mut verified: usize = 0;
    for place in 0..text.len() {
        for byte in [b'\n', b'0', b'9', b' '] {
            let changed = with_byte(alloc, text, place, byte)?;
            if is_verified(alloc, &changed)? {
                verified = verified.saturating_add(1);
            }
        }
    }
    Some(verified)
}

#[test]
fn one_byte_changed(rt: HostRuntime) {
    for text in &[LOOP, JOINT] {
        let Some(verified) = verified_changes(rt.alloc(), *text) else {
            panic!(rt; "a code is not read again")
        };
        assert!(rt; verified > 0 && verified < text.len());
    }
}
