//! What all crates share: arithmetic, bundles, capital, claims, devices and the lines of events.

ghost use Rattle.std.specs.Prelude.{◌≡◌, length, IfOk};
ghost use Rattle.pb_base.specs.Lines.{names_view, HasNames};

use pb_base::{
    BinaryOp, Bundle, Capital, Claims, Event, FaultKind, FaultyInput, FaultyOutput, Input,
    MemoryInput, MemoryOutput, Names, Output, Pair, Pick, ReadFault, StandardInput, StandardOutput,
    UnaryOp, apply, apply_unary, event_line, read_whole, write_all,
};
use std::alloc::{AllocError, Global};

const ON_TWO: [(BinaryOp, i64, i64, Result<i64, FaultKind>); 29] = [
    (BinaryOp::Add, 2, 3, Ok(5)),
    (BinaryOp::Add, i64::MAX, 1, Err(FaultKind::Overflow)),
    (BinaryOp::Subtract, 2, 3, Ok(-1)),
    (BinaryOp::Subtract, i64::MIN, 1, Err(FaultKind::Overflow)),
    (BinaryOp::Multiply, -2, 3, Ok(-6)),
    (BinaryOp::Multiply, i64::MIN, -1, Err(FaultKind::Overflow)),
    (BinaryOp::Quotient, -7, 2, Ok(-3)),
    (BinaryOp::Quotient, i64::MIN, -1, Err(FaultKind::Overflow)),
    (BinaryOp::Quotient, 1, 0, Err(FaultKind::Divide)),
    (BinaryOp::Remainder, -7, 2, Ok(-1)),
    (BinaryOp::Remainder, 7, -2, Ok(1)),
    (BinaryOp::Remainder, i64::MIN, -1, Ok(0)),
    (BinaryOp::Remainder, 1, 0, Err(FaultKind::Divide)),
    (BinaryOp::Equal, 4, 4, Ok(1)),
    (BinaryOp::Equal, 4, -4, Ok(0)),
    (BinaryOp::Unequal, 4, -4, Ok(1)),
    (BinaryOp::Unequal, 4, 4, Ok(0)),
    (BinaryOp::Less, -1, 0, Ok(1)),
    (BinaryOp::Less, 0, 0, Ok(0)),
    (BinaryOp::AtMost, 0, 0, Ok(1)),
    (BinaryOp::AtMost, 1, 0, Ok(0)),
    (BinaryOp::Greater, 1, 0, Ok(1)),
    (BinaryOp::Greater, 0, 0, Ok(0)),
    (BinaryOp::AtLeast, 0, 0, Ok(1)),
    (BinaryOp::AtLeast, -1, 0, Ok(0)),
    (BinaryOp::And, 2, -1, Ok(1)),
    (BinaryOp::And, 2, 0, Ok(0)),
    (BinaryOp::Or, 0, 5, Ok(1)),
    (BinaryOp::Or, 0, 0, Ok(0)),
];

#[test]
fn operators_on_two_numbers(rt: HostRuntime) {
    for (op, left, right, value) in &ON_TWO {
        assert!(rt;
            apply(*op, *left, *right) == *value,
            "{op:?} of {left} and {right}"
        );
    }
}

const ON_ONE: [(UnaryOp, i64, Result<i64, FaultKind>); 4] = [
    (UnaryOp::Negate, 5, Ok(-5)),
    (UnaryOp::Negate, i64::MIN, Err(FaultKind::Overflow)),
    (UnaryOp::Not, 0, Ok(1)),
    (UnaryOp::Not, -3, Ok(0)),
];

#[test]
fn operators_on_one_number(rt: HostRuntime) {
    for (op, operand, value) in &ON_ONE {
        assert!(rt; apply_unary(*op, *operand) == *value, "{op:?} of {operand}");
    }
}

/// Returns a bundle of 40 of resource 3 and 7 of resource 1.
fn two_pairs() -> Bundle {
    let mut bundle = Bundle::one(3, 40);
    bundle.push(Pair {
        resource: 1,
        amount: 7,
    });
    bundle
}

/// Returns the pair at this place of a bundle, as its resource and its amount.
fn pair_at(bundle: &Bundle, i: usize) -> Option<(u8, u32)> {
    if i >= bundle.len() {
        return None;
    }
    let pair = bundle.get(i);
    Some((pair.resource, pair.amount))
}

#[test]
fn pairs_in_their_order(rt: HostRuntime) {
    let bundle = two_pairs();
    for (i, pair) in &[(0, Some((3, 40))), (1, Some((1, 7))), (2, None)] {
        assert!(rt; pair_at(&bundle, *i) == *pair);
    }
}

/// Returns the amount of a resource in a capital of 10 and 1,000,000.
fn amount(alloc: Global, r: usize) -> Option<u32> {
    let capital = Capital::new(alloc, &[10, 1_000_000]).ok()?;
    if r >= capital.resources() {
        return None;
    }
    Some(capital.get(r))
}

#[test]
fn amounts_by_resource(rt: HostRuntime) {
    for (r, wanted) in &[(0, Some(10)), (1, Some(1_000_000)), (2, None)] {
        assert!(rt; amount(rt.alloc(), *r) == *wanted);
    }
}

/// Returns the claim of a process on a resource in a table of three rows.
fn claim(alloc: Global, p: usize, r: usize) -> Option<u64> {
    let claims = Claims::new(alloc, &[&[1, 2], &[3, 4], &[5, 6]]).ok()?;
    if p >= claims.processes() || r >= claims.resources() {
        return None;
    }
    Some(claims.get(p, r))
}

#[test]
fn claims_by_process_and_resource(rt: HostRuntime) {
    for (p, r, wanted) in &[(0, 0, Some(1)), (2, 1, Some(6)), (3, 0, None), (0, 2, None)] {
        assert!(rt; claim(rt.alloc(), *p, *r) == *wanted);
    }
}

/// Returns whether a text of nine bytes is read whole; none if it is refused otherwise than for its length.
fn is_read(alloc: Global, limit: u8) -> Option<bool> {
    match read_whole(
        alloc,
        &mut MemoryInput::new(b"some text"),
        usize::from(limit),
    ) {
        Ok(read) => Some(read.as_slice() == b"some text".as_slice()),
        Err(ReadFault::TooLong) => Some(false),
        Err(_) => None,
    }
}

#[test]
fn reads_up_to_a_limit(rt: HostRuntime) {
    assert!(rt; is_read(rt.alloc(), 9) == Some(true));
    assert!(rt; is_read(rt.alloc(), 8) == Some(false));
}

/// Returns what is read after the first failure of an input whose third read fails; none if the first reads
/// do not fail.
fn read_after_a_fault(alloc: Global) -> Option<Vec<u8>> {
    let mut input = FaultyInput::new(b"some text", 2, 3);
    match read_whole(alloc, &mut input, 9) {
        Err(ReadFault::Device) => read_whole(alloc, &mut input, 9).ok(),
        _ => None,
    }
}

#[test]
fn reads_up_to_a_fault(rt: HostRuntime) {
    let rest = read_after_a_fault(rt.alloc());
    assert!(rt; rest.is_some_and(|bytes| bytes.as_slice() == b"ext".as_slice()));
}

/// Returns whether an output that takes a byte a call holds a text whole.
fn is_written_byte_by_byte(alloc: Global) -> Option<bool> {
    let mut output = FaultyOutput::new(alloc, 9, 100, 1).ok()?;
    write_all(&mut output, b"some text").ok()?;
    Some(output.as_slice() == b"some text".as_slice() && output.failures() == 0)
}

#[test]
fn writes_byte_by_byte(rt: HostRuntime) {
    assert!(rt; is_written_byte_by_byte(rt.alloc()) == Some(true));
}

/// Returns whether an output whose third write fails holds what it took before, and takes the rest after it,
/// but no more.
fn goes_on(output: &mut FaultyOutput) -> bool {
    if write_all(output, b"some text").is_ok() || output.as_slice() != b"some t".as_slice() {
        return false;
    }
    if write_all(output, b"ext").is_err() || output.as_slice() != b"some text".as_slice() {
        return false;
    }
    write_all(output, b"more").is_err() && output.failures() == 2
}

fn goes_on_after_a_fault(alloc: Global) -> Option<bool> {
    let mut output = FaultyOutput::new(alloc, 9, 2, 3).ok()?;
    Some(goes_on(&mut output))
}

#[test]
fn writes_up_to_a_fault(rt: HostRuntime) {
    assert!(rt; goes_on_after_a_fault(rt.alloc()) == Some(true));
}

/// Returns whether an output with room for six bytes takes six of a text and counts a failure.
fn takes_six(alloc: Global) -> Option<bool> {
    let mut output = MemoryOutput::new(alloc, 6).ok()?;
    let is_full = write_all(&mut output, b"some text").is_err();
    Some(is_full && output.as_slice() == b"some t".as_slice() && output.failures() == 1)
}

#[test]
fn writes_while_there_is_room(rt: HostRuntime) {
    assert!(rt; takes_six(rt.alloc()) == Some(true));
}

#[test]
fn standard_output_takes_a_line(rt: HostRuntime) {
    let mut output = StandardOutput::new(rt.stdout());
    let is_written = write_all(&mut output, b"standard output\n").is_ok();
    assert!(rt; is_written && output.failures() == 0);
}

#[test]
fn standard_input_is_not_read_for_nothing(rt: HostRuntime) {
    let mut input = StandardInput::new(rt.stdin());
    let is_nothing = input.read(&mut []).is_ok_and(|count| count == 0);
    assert!(rt; is_nothing && input.failures() == 0);
}

/// Returns the names of two processes and two resources.
fn some_names(alloc: Global) -> Result<Names, AllocError>
    ensures processes { IfOk result (λ names. length (names_view names).processes ≡ 2) }
    ensures resources { IfOk result (λ names. length (names_view names).resources ≡ 2) }
{
    let reader = Vec::from_slice(alloc, b"Reader")?;
    let q = Vec::from_slice(alloc, b"Q")?;
    let tape = Vec::from_slice(alloc, b"Tape")?;
    let disk_2 = Vec::from_slice(alloc, b"disk_2")?;
    Ok(Names {
        processes: vec![in alloc; reader, q]?,
        resources: vec![in alloc; tape, disk_2]?,
    })
}

/// Returns whether the line of an event over these names is this text.
fn is_line(alloc: Global, names: &Names, event: Event, text: &str) -> bool
    requires { HasNames (names_view names.now) event }
{
    match event_line(alloc, names, &event) {
        Ok(line) => line.as_slice() == text.as_bytes(),
        Err(_) => false,
    }
}

const FIRST: Pick = Pick { process: 0, arm: 0 };

const LATER: Pick = Pick {
    process: 1,
    arm: 12,
};

/// Returns whether the lines of requests and returns over two names of each kind are as they are printed.
fn are_lines_of_holds(alloc: Global) -> Option<bool> {
    let names = some_names(alloc).ok()?;
    let bundle = Bundle::one(0, 3);
    let granted = Event::Granted {
        pick: FIRST,
        bundle,
    };
    let returned = Event::Returned {
        pick: LATER,
        bundle,
    };
    Some(
        is_line(alloc, &names, granted, "Reader.0 grant 3 Tape")
            && is_line(alloc, &names, returned, "Q.12 return 3 Tape"),
    )
}

/// Returns whether the line of a request for two resources names them in the order of the bundle.
fn is_line_of_two_pairs(alloc: Global) -> Option<bool> {
    let names = some_names(alloc).ok()?;
    let mut bundle = Bundle::one(1, 1_000_000);
    bundle.push(Pair {
        resource: 0,
        amount: 1,
    });
    let granted = Event::Granted {
        pick: LATER,
        bundle,
    };
    let text = "Q.12 grant 1000000 disk_2 1 Tape";
    Some(is_line(alloc, &names, granted, text))
}

/// Returns whether the lines of numbers, faults and ends are as they are printed.
fn are_other_lines(alloc: Global) -> Option<bool> {
    let names = some_names(alloc).ok()?;
    let zero = Event::Printed {
        pick: FIRST,
        value: 0,
    };
    let least = Event::Printed {
        pick: LATER,
        value: i64::MIN,
    };
    let divide = Event::Faulted {
        pick: FIRST,
        kind: FaultKind::Divide,
    };
    let overflow = Event::Faulted {
        pick: FIRST,
        kind: FaultKind::Overflow,
    };
    Some(
        is_line(alloc, &names, zero, "Reader.0 print 0")
            && is_line(alloc, &names, least, "Q.12 print -9223372036854775808")
            && is_line(alloc, &names, divide, "Reader.0 fault divide")
            && is_line(alloc, &names, overflow, "Reader.0 fault overflow")
            && is_line(alloc, &names, Event::Finished { process: 1 }, "Q end"),
    )
}

#[test]
fn lines_of_events(rt: HostRuntime) {
    assert!(rt; are_lines_of_holds(rt.alloc()) == Some(true));
    assert!(rt; is_line_of_two_pairs(rt.alloc()) == Some(true));
    assert!(rt; are_other_lines(rt.alloc()) == Some(true));
}
