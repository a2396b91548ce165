//! The files of `examples/2-updates`. Written by checks/example_tests.py.

/// The file 2-updates/counters.pb.
#[rattlefmt::skip]
pub const COUNTERS: &[u8] = b"// Two arms count up x three times each, and so lose up to four of six additions: each run prints a number from 2 to 6.
// That it can be 2 is a surprise to most: counters_two.run is such a run.
process counters
begin
  integer x, i, j;
  parbegin
    while i < 3 do x := x + 1; i := i + 1 od;
    while j < 3 do x := x + 1; j := j + 1 od
  parend;
  print x
end
";

/// The file 2-updates/counters_two.run.
#[rattlefmt::skip]
pub const COUNTERS_TWO_RUN: &[u8] = b"// Two arms count up x three times each, and so lose up to four of six additions: each run prints a number from 2 to 6.
// That it can be 2 is a surprise to most: counters_two.run is such a run.
process counters
begin
  integer x, i, j;
  parbegin
    while i < 3 do x := x + 1; i := i + 1 od;
    while j < 3 do x := x + 1; j := j + 1 od
  parend;
  print x
end
%%
counters.0 1
counters.1 5
counters.2 26
counters.1 3
counters.2 5
counters.1 36
counters.2 13
counters.0 4
";

/// The file 2-updates/peterson.pb.
#[rattlefmt::skip]
pub const PETERSON: &[u8] = b"// Peterson's algorithm: two arms exclude one another by integers alone. An arm says that it wants to go in, lets the
// other go first, and waits until the other does not want to, or has let it go first. So no addition is lost, in any
// order of steps. It waits by asking again and again, which takes steps.
process peterson
begin
  integer wants1, wants2, first, x, i, j;
  parbegin
    while i < 3 do
      wants1 := 1;
      first := 2;
      while wants2 and first = 2 do skip od;
      x := x + 1;
      wants1 := 0;
      i := i + 1
    od;
    while j < 3 do
      wants2 := 1;
      first := 1;
      while wants1 and first = 1 do skip od;
      x := x + 1;
      wants2 := 0;
      j := j + 1
    od
  parend;
  print x
end
";

/// The file 2-updates/producer_consumer.pb.
#[rattlefmt::skip]
pub const PRODUCER_CONSUMER: &[u8] = b"// A producer and a consumer share a buffer of one cell. Each integer is assigned to by one side at a time: `full` says
// whose turn it is. The producer holds the card reader and the consumer the printer while they work.
resource reader = 1;
resource printer = 1;
process copy
begin
  integer made, cell, full, taken;
  parbegin
    hold 1 of reader do
      while made < 4 do
        while full do skip od;
        made := made + 1;
        cell := made * made;
        full := 1
      od
    od;
    hold 1 of printer do
      while taken < 4 do
        while not full do skip od;
        print cell;
        taken := taken + 1;
        full := 0
      od
    od
  parend
end
";
