//! Object texts, written and read, and what code is the same.

ghost use Rattle.std.specs.Prelude.{◌≤◌, length};

use crate::objects::{FIRST, MOVED, SECOND};
use pb_base::Bundle;
use pb_code::{Code, Instr, Labels, are_name_bytes, is_name, is_numeral};
use pb_object::{
    ObjectFault, fits_first_format, read_any, read_object, write_object, write_object2,
};
use std::alloc::Global;

/// Two resources and two processes; the second takes both resources at once.
const JOINT: &[u8] =
    b"PBO 2\nresources 2\nresource r 9\nresource s_1 1000000\nprocesses 2\nprocess p\nvars 0\narms 2\nclaims 1 0\narm 0\narm 3\ncode 4\n1 fork 1 1\n1 join 1 1\n0 end\n0 end\nprocess Q\nvars 2 a b\narms 1\nclaims 9 1000000\narm 0\ncode 5\n2 take 1 1000000 0 9\n3 push -9223372036854775808\n4 jzero 3\n65536 give 1 1000000 0 9\n0 end\n";

/// Returns the fault of an object in either format, if it has one.
fn object_fault(alloc: Global, text: &[u8]) -> Option<ObjectFault> {
    match read_any(alloc, text) {
        Ok(_) => None,
        Err(fault) => Some(fault),
    }
}

/// The instructions of `FIRST` and `SECOND`.
const SUM: [Instr; 7] = [
    Instr::Push(2),
    Instr::Push(3),
    Instr::Add,
    Instr::Store(0),
    Instr::Load(0),
    Instr::Print,
    Instr::End,
];

/// Returns whether a code is the one of `FIRST` and `SECOND`.
fn is_sum(code: &Code) -> bool {
    if code.processes.len() != 1 {
        return false;
    }
    let process = &code.processes[0];
    process.integers == 1
        && process.entries.as_slice() == [0].as_slice()
        && process.instrs.as_slice() == SUM.as_slice()
}

/// Returns whether labels are those of one process with one integer of this name, and with these lines.
fn is_labelled(labels: &Labels, integer: &[u8], lines: &[Option<u32>]) -> bool {
    if labels.processes.len() != 1 {
        return false;
    }
    let process = &labels.processes[0];
    process.integers.len() == 1
        && process.integers[0].as_slice() == integer
        && process.lines.as_slice() == lines
}

/// Returns whether an object in either format is read as that code, with these labels.
fn is_sum_in(alloc: Global, text: &[u8], integer: &[u8], lines: &[Option<u32>]) -> bool {
    match read_any(alloc, text) {
        Ok((code, labels)) => is_sum(&code) && is_labelled(&labels, integer, lines),
        Err(_) => false,
    }
}

/// Returns the fault of a text as an object in the first format, if it has one.
fn first_fault(alloc: Global, text: &[u8]) -> Option<ObjectFault> {
    match read_object(alloc, text) {
        Ok(_) => None,
        Err(fault) => Some(fault),
    }
}

/// Returns whether an object in the first format is read as that code.
fn is_sum_in_first(alloc: Global, text: &[u8]) -> bool {
    match read_object(alloc, text) {
        Ok(code) => is_sum(&code),
        Err(_) => false,
    }
}

#[test]
fn reads_the_first_format(rt: HostRuntime) {
    assert!(rt; FIRST.len() == 117);
    assert!(rt; is_sum_in_first(rt.alloc(), FIRST));
    assert!(rt; is_sum_in(rt.alloc(), FIRST, b"v0", &[None; 7]));
}

/// The lines of `SECOND`.
const LINES: [Option<u32>; 7] = [Some(1), Some(1), Some(1), Some(1), Some(1), Some(1), None];

#[test]
fn reads_the_second_format(rt: HostRuntime) {
    assert!(rt; SECOND.len() == 133);
    assert!(rt; is_sum_in(rt.alloc(), SECOND, b"x", &LINES));
    assert!(rt; first_fault(rt.alloc(), SECOND) == Some(ObjectFault::NotObject(0)));
}

/// Returns the start of the last line that is begun or missing, if the text is cut to this length.
fn last_line(text: &[u8], len: usize) -> usize
    requires { len ≤ length text.now }
{
    let mut start = 0;
    for (i, b) in text[..len].iter().enumerate() {
        if *b == b'\n' {
            start = i + 1;
        }
    }
    start
}

#[test]
fn refuses_each_proper_prefix(rt: HostRuntime) {
    for len in 0..FIRST.len() {
        let at = last_line(FIRST, len);
        let fault = first_fault(rt.alloc(), &FIRST[..len]);
        assert!(rt; fault == Some(ObjectFault::NotObject(at)), "of {len} bytes");
    }
}

#[test]
fn finds_the_last_line(rt: HostRuntime) {
    for (len, start) in [(0, 0), (5, 0), (6, 6), (116, 113)] {
        assert!(rt; last_line(FIRST, len) == start);
    }
}

/// Returns whether the code of an object in the first format is written as this text.
fn is_written(alloc: Global, object: &[u8], text: &[u8]) -> bool {
    let Ok(code) = read_object(alloc, object) else {
        return false;
    };
    match write_object(alloc, &code) {
        Ok(written) => written.as_slice() == text,
        Err(_) => false,
    }
}

/// Returns whether the code and the labels of an object are written as this text in the second format.
fn is_written_in_second(alloc: Global, object: &[u8], text: &[u8]) -> bool {
    let Ok((code, labels)) = read_any(alloc, object) else {
        return false;
    };
    match write_object2(alloc, &code, &labels) {
        Ok(written) => written.as_slice() == text,
        Err(_) => false,
    }
}

#[test]
fn writes_what_it_read(rt: HostRuntime) {
    assert!(rt; is_written(rt.alloc(), FIRST, FIRST));
    assert!(rt; MOVED.len() == 134);
    for (object, text) in &[(SECOND, SECOND), (FIRST, MOVED), (JOINT, JOINT)] {
        assert!(rt; is_written_in_second(rt.alloc(), *object, *text));
    }
}

/// Texts, and the fault of the first line that is faulty.
const FAULTY: [(&[u8], ObjectFault); 10] = [
    (b"PBO 1\nresources 017\n", ObjectFault::NotObject(6)),
    (
        b"PBO 1\nresources 99999999999999999999999",
        ObjectFault::NotObject(6),
    ),
    (
        b"PBO 1\nresources 1\nresource while 1\n",
        ObjectFault::NotObject(18),
    ),
    (
        b"PBO 2\nresources 0\nprocesses 1\nprocess p\nvars 65 x y\n",
        ObjectFault::NotObject(40),
    ),
    (
        b"PBO 2\nresources 0\nprocesses 1\nprocess p\nvars 2 x x\n",
        ObjectFault::NotObject(40),
    ),
    (
        b"PBO 2\nresources 0\nprocesses 1\nprocess p\nvars 0\narms 1\nclaims\narm 0\ncode 1\n0 take 99 1 99 1\n",
        ObjectFault::NotObject(74),
    ),
    (b"PBO 1\nresources 17\n", ObjectFault::Limit(6)),
    (
        b"PBO 1\nresources 0\nprocesses 33\n",
        ObjectFault::Limit(18),
    ),
    (
        b"PBO 1\nresources 0\nprocesses 1\nprocess p\nvars 65\n",
        ObjectFault::Limit(40),
    ),
    (
        b"PBO 2\nresources 0\nprocesses 1\nprocess p\nvars 0\narms 1\nclaims\narm 0\ncode 1\n0 take 99 1\n",
        ObjectFault::Limit(74),
    ),
];

#[test]
fn refuses_the_first_faulty_line(rt: HostRuntime) {
    for (text, fault) in &FAULTY {
        assert!(rt; object_fault(rt.alloc(), *text) == Some(*fault));
    }
}

/// One process that takes and gives.
const TAKING: &[u8] =
    b"PBO 1\nresources 1\nresource r 9\nprocesses 1\nprocess p\nvars 0\narms 1\nclaims 9\narm 0\ncode 3\ntake 0 1\ngive 0 1\nend\n";

/// Returns the code of `TAKING` with a list of two bundles that have these amounts, of which it names the one
/// with this number.
fn taking(alloc: Global, bundle: u16, amounts: [u32; 2]) -> Option<Code> {
    let mut code = read_object(alloc, TAKING).ok()?;
    let process = code.processes.get_mut(0)?;
    let bundles = [Bundle::one(0, amounts[0]), Bundle::one(0, amounts[1])];
    process.bundles = Vec::from_slice(alloc, &bundles).ok()?;
    let instrs = [Instr::Take(bundle), Instr::Give(bundle), Instr::End];
    process.instrs = Vec::from_slice(alloc, &instrs).ok()?;
    Some(code)
}

/// Returns whether that code is the same as the one that names the first of the amounts 1 and 2.
fn takes_one(alloc: Global, bundle: u16, amounts: [u32; 2]) -> Option<bool> {
    let one = taking(alloc, 0, [1, 2])?;
    let other = taking(alloc, bundle, amounts)?;
    Some(one.same(&other))
}

#[test]
fn bundles_are_the_same_by_their_pairs(rt: HostRuntime) {
    assert!(rt; takes_one(rt.alloc(), 1, [2, 1]) == Some(true));
    assert!(rt; takes_one(rt.alloc(), 1, [1, 2]) == Some(false));
}

/// Returns whether two objects have the same code.
fn is_same(alloc: Global, one: &[u8], other: &[u8]) -> Option<bool> {
    let (one, _) = read_any(alloc, one).ok()?;
    let (other, _) = read_any(alloc, other).ok()?;
    Some(one.same(&other))
}

/// Returns whether a process is the same in two objects, if both have it.
fn is_same_process(alloc: Global, one: &[u8], other: &[u8], p: usize) -> Option<bool> {
    let (one, _) = read_any(alloc, one).ok()?;
    let (other, _) = read_any(alloc, other).ok()?;
    if p < one.processes.len() && p < other.processes.len() {
        Some(one.same_process(p, &other))
    } else {
        None
    }
}

/// Returns `JOINT` with another amount in the last line but one.
fn changed_joint(alloc: Global) -> Option<Vec<u8>> {
    let mut changed = Vec::from_slice(alloc, JOINT).ok()?;
    let last = changed.len() - 8;
    changed[last] = b'8';
    Some(changed)
}

#[test]
fn codes_and_processes_that_are_the_same(rt: HostRuntime) {
    let alloc = rt.alloc();
    let Some(changed) = changed_joint(alloc) else {
        panic!(rt; "out of memory")
    };
    assert!(rt; is_same(alloc, FIRST, SECOND) == Some(true));
    assert!(rt; is_same(alloc, FIRST, JOINT) == Some(false));
    assert!(rt; is_same(alloc, JOINT, &changed) == Some(false));
    for (p, same) in &[(0, Some(true)), (1, Some(false)), (2, None)] {
        assert!(rt; is_same_process(alloc, JOINT, &changed, *p) == *same);
    }
}

/// Returns whether the first format can say the code of an object.
fn fits_first(alloc: Global, object: &[u8]) -> Option<bool> {
    let (code, _) = read_any(alloc, object).ok()?;
    Some(fits_first_format(&code))
}

#[test]
fn what_the_first_format_can_say(rt: HostRuntime) {
    assert!(rt; fits_first(rt.alloc(), SECOND) == Some(true));
    assert!(rt; fits_first(rt.alloc(), JOINT) == Some(false));
}

#[test]
fn words_that_are_names(rt: HostRuntime) {
    assert!(rt; is_name(b"s_1"));
    for word in &[
        b"".as_slice(),
        b"1s",
        b"_s",
        b"while",
        b"a-b",
        b"a23456789012345678901234567890123",
    ] {
        assert!(rt; !is_name(*word));
    }
}

#[test]
fn numerals_have_no_zero_before_digits(rt: HostRuntime) {
    assert!(rt; is_numeral(b"0"));
    assert!(rt; is_numeral(b"107"));
    assert!(rt; !is_numeral(b""));
    assert!(rt; !is_numeral(b"07"));
    assert!(rt; !is_numeral(b"1a"));
    assert!(rt; are_name_bytes(b"a_1"));
    assert!(rt; !are_name_bytes(b"a-1"));
}
