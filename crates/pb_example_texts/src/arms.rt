//! The files of `examples/1-arms`. Written by checks/example_tests.py.

/// The file 1-arms/fault.pb.
#[rattlefmt::skip]
pub const FAULT: &[u8] = b"// A fault in one arm ends its whole process: the other arms stop where they are, and what they hold comes back. Here it
// brings back the tape for which another process waits.
resource tape = 2;
process broken
begin
  integer x;
  parbegin
    hold 1 of tape do while 1 do x := x + 1 od od;
    print 1 div x
  parend;
  print x
end
process sound
begin
  print 6;
  hold 2 of tape do print 7 od
end
";

/// The file 1-arms/nested.pb.
#[rattlefmt::skip]
pub const NESTED: &[u8] = b"// A parbegin in an arm of another. What comes behind a parbegin begins when all its arms have ended, and the outer one
// waits for the inner one: 3 comes after 1 and 2, 5 after 3 and 4.
process p
begin
  parbegin
    begin
      parbegin print 1; print 2 parend;
      print 3
    end;
    print 4
  parend;
  print 5
end
";

/// The file 1-arms/orders.pb.
#[rattlefmt::skip]
pub const ORDERS: &[u8] = b"// Two arms print twice each. Within an arm the order is fixed, between the arms it is not: six orders are possible,
// and each seed of `record --seed` draws one of them.
process p
begin
  parbegin
    begin print 1; print 2 end;
    begin print 10; print 20 end
  parend;
  print 100
end
";

/// The file 1-arms/sums.pb.
#[rattlefmt::skip]
pub const SUMS: &[u8] = b"// Arms that write to different integers need not wait for one another: each adds up half of the numbers from 1 to 100,
// and the sum is 5050 in every order.
process sums
begin
  integer i, low, j, high;
  j := 50;
  parbegin
    while i < 50 do i := i + 1; low := low + i od;
    while j < 100 do j := j + 1; high := high + j od
  parend;
  print low + high
end
";
