//! The files of `examples`. Written by checks/example_tests.py.

/// The file clock.pb.
#[rattlefmt::skip]
pub const CLOCK: &[u8] = b"// How many hours, minutes and seconds a number of seconds is.
process clock
begin
  integer seconds, minutes;
  seconds := 98765;
  minutes := seconds div 60;
  print minutes div 60;
  print minutes mod 60;
  print seconds mod 60
end
";

/// The file customers.pb.
#[rattlefmt::skip]
pub const CUSTOMERS: &[u8] = b"// Dijkstra's banker has ten florins and three customers, who may come to need eight, six and four. He lends while
// what is left, with what comes back, is enough to finish with all of them in some order.
resource florin = 10;
process a begin hold 4 of florin do hold 4 of florin do skip od od end
process b begin hold 2 of florin do hold 1 of florin do hold 3 of florin do skip od od od end
process c begin hold 1 of florin do hold 3 of florin do skip od od end
";

/// The file devices.pb.
#[rattlefmt::skip]
pub const DEVICES: &[u8] = b"// Two jobs want the same tape and the same disk, in opposite order. Taken one by one, each could end up with one
// device in its hands, waiting for the other: the banker never lets it come to that.
resource tape = 1;
resource disk = 1;
process a
begin
  hold 1 of tape do hold 1 of disk do print 1 od od
end
process b
begin
  hold 1 of disk do hold 1 of tape do print 2 od od
end
";

/// The file edges.pb.
#[rattlefmt::skip]
pub const EDGES: &[u8] = b"// Where the integers end: quotients are cut toward zero, a remainder has the sign of the dividend, truth is 1 or 0,
// and a result that does not fit in 64 bits is a fault, which ends the process.
process edges
begin
  integer greatest, least;
  greatest := 9223372036854775807;
  least := -greatest - 1;
  print least;
  print least mod -1;
  print -7 div 2;
  print -7 mod 2;
  print not (least < greatest) or 3 <> 4 and 5 >= 5;
  print greatest + 1;
  print 0
end
";

/// The file hello.pb.
#[rattlefmt::skip]
pub const HELLO: &[u8] = b"process p begin print 1 end
";

/// The file lost.pb.
#[rattlefmt::skip]
pub const LOST: &[u8] = b"// Two arms add one to the same integer. To read it and to assign to it are two steps, so if both arms read it before
// either assigns, one of the two additions is lost. `run` goes arm by arm and loses none; the run of lost.run loses one.
process p
begin
  integer x;
  parbegin
    x := x + 1;
    x := x + 1
  parend;
  print x
end
";

/// The file lost.run.
#[rattlefmt::skip]
pub const LOST_RUN: &[u8] = b"// Two arms add one to the same integer. To read it and to assign to it are two steps, so if both arms read it before
// either assigns, one of the two additions is lost. `run` goes arm by arm and loses none; the run of lost.run loses one.
process p
begin
  integer x;
  parbegin
    x := x + 1;
    x := x + 1
  parend;
  print x
end
%%
p.0 1
p.2 2
p.1 5
p.2 3
p.0 4
";

/// The file philosophers.pb.
#[rattlefmt::skip]
pub const PHILOSOPHERS: &[u8] = b"// Three philosophers at a round table, with a fork between each two of them. Each takes one fork and then another;
// with one fork each they would wait for ever, so the banker keeps the last one back.
resource north = 1;
resource east = 1;
resource west = 1;
process hypatia
begin
  integer meals;
  while meals < 2 do
    hold 1 of north do hold 1 of east do meals := meals + 1; print meals od od
  od
end
process plato
begin
  integer meals;
  while meals < 2 do
    hold 1 of east do hold 1 of west do meals := meals + 1; print meals od od
  od
end
process spinoza
begin
  integer meals;
  while meals < 2 do
    hold 1 of west do hold 1 of north do meals := meals + 1; print meals od od
  od
end
";

/// The file rounds.pb.
#[rattlefmt::skip]
pub const ROUNDS: &[u8] = b"// Three rounds; in each two arms print, and the next round begins when both have ended.
process p
begin
  integer i;
  while i < 3 do
    parbegin
      print i;
      print i + 10
    parend;
    i := i + 1
  od
end
";

/// The file together.pb.
#[rattlefmt::skip]
pub const TOGETHER: &[u8] = b"// The same two jobs, each of which asks for both devices at once: it gets both or none.
resource tape = 1;
resource disk = 1;
process a begin hold 1 of tape, 1 of disk do print 1 od end
process b begin hold 1 of disk, 1 of tape do print 2 od end
";
