//! Programs that several of the tests use.

use pb_base::NoMemory;
use pb_example_texts::first;
use std::alloc::Global;

/// Prints a sum.
#[rattlefmt::skip]
pub const SUM: &[u8] = b"process p begin integer x; x := 2 + 3; print x end";

/// Two arms add 1 to the same integer.
#[rattlefmt::skip]
pub const INCREMENTS: &[u8] = b"process p begin integer x; parbegin x := x + 1; x := x + 1 parend; print x end";

/// One arm holds, the other faults.
#[rattlefmt::skip]
pub const FAULT: &[u8] = b"resource t = 2; process p begin parbegin hold 1 of t do print 5 od; print 1 mod 0 parend end";

/// A parbegin in the first arm of another.
#[rattlefmt::skip]
pub const NESTED: &[u8] = b"process p begin parbegin parbegin print 1; print 2 parend; print 3 parend; print 4 end";

/// Two arms hold in the hold of their process.
#[rattlefmt::skip]
pub const HOLDS_IN_ARMS: &[u8] = b"resource t = 4; process p begin hold 1 of t do parbegin hold 1 of t do skip od; hold 2 of t do skip od parend od end";

/// A hold, and one in each branch of a choice.
#[rattlefmt::skip]
pub const HOLDS_IN_BRANCHES: &[u8] = b"resource t = 9; process p begin integer x; hold 1 of t do skip od; if x then hold 2 of t do skip od else hold 3 of t do skip od fi end";

/// Divides by zero in a hold.
#[rattlefmt::skip]
pub const FAULT_IN_A_HOLD: &[u8] = b"resource t = 1; process p begin hold 1 of t do print 1 div 0 od end";

/// Holds in a branch that is never taken.
#[rattlefmt::skip]
pub const HOLD_NEVER_MADE: &[u8] = b"resource t = 5; process p begin if 0 then hold 3 of t do skip od fi end";

/// Two arms hold of two resources.
#[rattlefmt::skip]
pub const TWO_RESOURCES: &[u8] = b"resource t = 5; resource u = 5; process p begin parbegin hold 2 of t do hold 1 of u do skip od od; hold 3 of u do skip od parend end";

/// Takes each branch of a choice.
#[rattlefmt::skip]
pub const BRANCHES: &[u8] = b"process p begin integer i; while i < 2 do if i then print 8 else print 9 fi; i := i + 1 od end";

/// The programs of `examples/`.
pub const EXAMPLES: [&[u8]; 9] = [
    first::CLOCK,
    first::CUSTOMERS,
    first::DEVICES,
    first::EDGES,
    first::HELLO,
    first::LOST,
    first::PHILOSOPHERS,
    first::ROUNDS,
    first::TOGETHER,
];

/// Programs that each use some of the language.
#[rattlefmt::skip]
pub const PROGRAMS: [&[u8]; 28] = [
    SUM,
    HOLDS_IN_ARMS,
    HOLDS_IN_BRANCHES,
    b"resource tape = 1; resource disk = 1;
process a begin hold 1 of tape do hold 1 of disk do skip od od end
process b begin hold 1 of disk do hold 1 of tape do skip od od end",
    b"resource t = 10;
process a begin hold 4 of t do hold 4 of t do skip od od end
process b begin hold 2 of t do hold 1 of t do hold 3 of t do skip od od od end
process c begin hold 1 of t do hold 3 of t do skip od od end",
    FAULT_IN_A_HOLD,
    b"process p begin print (-9223372036854775807 - 1) div -1 end",
    b"process p begin print (-9223372036854775807 - 1) mod -1 end",
    b"process p begin print -9223372036854775807 - 1 end",
    b"process p begin print -7 div 2 end",
    b"process p begin print -7 mod 2 end",
    b"process p begin print 9223372036854775807 + 1 end",
    INCREMENTS,
    b"process p begin while 1 do skip od end",
    b"process p begin integer i; while i < 3 do parbegin print i; print i + 10 parend; i := i + 1 od end",
    FAULT,
    b"process p begin integer x; x := 7; print x mod -2 end",
    HOLD_NEVER_MADE,
    TWO_RESOURCES,
    BRANCHES,
    NESTED,
    b"resource tape = 1; resource disk = 1; process a begin hold 1 of tape, 1 of disk do skip od end process b begin hold 1 of disk, 1 of tape do skip od end",
    b"resource tape = 1; resource disk = 1;
process a begin hold 1 of tape do print 1 div 0; hold 1 of disk do skip od od end
process b begin hold 1 of disk do hold 1 of tape do skip od od end",
    b"process p
begin
  integer i, x;
  while i < 3 do
    parbegin
      parbegin x := x + 1; x := x * 2 + i parend;
      if x > 2 then print x else x := x + 3 fi;
      skip
    parend;
    i := i + 1
  od;
  print x
end",
    b"resource r = 3;
resource s = 2;
process a begin integer i; while i < 2 do hold 2 of r do hold 1 of s do print i od od; i := i + 1 od end
process b begin integer i; while i < 2 do hold 1 of s, 2 of r do print 10 + i od; i := i + 1 od end
process c begin parbegin hold 1 of r do hold 1 of s do skip od od; hold 1 of s do print 20 od parend end",
    b"resource r = 2;
process p
begin
  integer x;
  x := 3;
  hold 1 of r do
    parbegin
      begin x := 0; hold 1 of r do print x od; x := 2 end;
      print 6 div x
    parend
  od
end
process q begin hold 2 of r do print 1 od end",
    b"process p
begin
  integer flag, turns;
  parbegin
    while not flag do turns := turns + 1 od;
    begin skip; flag := 1 end
  parend;
  print turns < 1000
end",
    b"resource r = 4;
process p
begin
  integer x;
  parbegin
    while x < 2 do hold 1 of r do if x = 1 then skip else parbegin skip; print x parend fi od; x := x + 1 od;
    if x then hold 2 of r do skip od else skip fi;
    begin if not x then hold 1 of r do skip od fi; while x > 1 do x := x - 1 od end
  parend
end
process q begin if 1 and 0 then print 1 else hold 4 of r do skip od fi end",
];

/// Returns a text of a head, a piece again and again, and a tail.
pub fn repeated(
    alloc: Global,
    head: &[u8],
    piece: &[u8],
    count: usize,
    tail: &[u8],
) -> Result<Vec<u8>, NoMemory> {
    let mut text = Vec::from_slice(alloc, head)?;
    for _ in 0..count {
        text.extend_from_slice(piece)?;
    }
    text.extend_from_slice(tail)?;
    Ok(text)
}

/// Returns a text of `count` processes that do nothing.
pub fn idle(alloc: Global, count: usize) -> Result<Vec<u8>, NoMemory> {
    let mut text = Vec::new(alloc);
    for number in 0..count {
        let process = format!(in alloc; "process p{number} begin skip end\n")?;
        text.extend_from_slice(process.as_bytes())?;
    }
    Ok(text)
}

/// A parbegin of 16 arms, and a semicolon.
#[rattlefmt::skip]
pub const SIXTEEN_ARMS: &[u8] = b"parbegin skip;skip;skip;skip;skip;skip;skip;skip;skip;skip;skip;skip;skip;skip;skip;skip parend; ";

/// Returns four parbegins: three of 16 arms, and the last of `last + 1` arms.
pub fn arms(alloc: Global, last: usize) -> Result<Vec<u8>, NoMemory> {
    let head = repeated(alloc, b"process p begin ", SIXTEEN_ARMS, 3, b"parbegin ")?;
    repeated(alloc, head.as_slice(), b"skip;", last, b"skip parend end")
}
