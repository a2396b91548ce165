//! The files of `examples/10-grading`. Written by checks/example_tests.py.

/// The file 10-grading/door.pb.
#[rattlefmt::skip]
pub const DOOR: &[u8] = b"// Handed in: each arm adds behind a door. It is refused, since arms of one process claim together: there would have to be
// two places at the door, and then both arms could go in at once.
resource door = 1;
process p
begin
  integer x;
  parbegin
    hold 1 of door do x := x + 1 od;
    hold 1 of door do x := x + 1 od
  parend;
  print x
end
";

/// The file 10-grading/halves.pb.
#[rattlefmt::skip]
pub const HALVES: &[u8] = b"// Handed in: each arm counts for itself, and the sum is printed when both have ended. Right under every schedule.
process p
begin
  integer left, right;
  parbegin
    left := left + 1;
    right := right + 1
  parend;
  print left + right
end
";

/// The file 10-grading/hurry.pb.
#[rattlefmt::skip]
pub const HURRY: &[u8] = b"// Handed in: nothing keeps the arms apart. An addition can be lost, although `run` prints 2.
process p
begin
  integer x;
  parbegin
    x := x + 1;
    x := x + 1
  parend;
  print x
end
";

/// The file 10-grading/keys.pb.
#[rattlefmt::skip]
pub const KEYS: &[u8] = b"// Handed in: a second process goes first, with two keys that both take, in opposite order. The banker keeps the two from
// waiting for one another; without him, with `--lend cash`, it can come to a deadlock.
resource red = 1;
resource blue = 1;
process p
begin
  integer x;
  hold 1 of red do hold 1 of blue do x := x + 1 od od;
  x := x + 1;
  print x
end
process q
begin
  hold 1 of blue do hold 1 of red do skip od od
end
";

/// The file 10-grading/own_print.pb.
#[rattlefmt::skip]
pub const OWN_PRINT: &[u8] = b"// Handed in: the second arm prints as soon as it has added. It may come first, and then prints 1.
process p
begin
  integer left, right;
  parbegin
    left := left + 1;
    begin right := right + 1; print left + right end
  parend
end
";

/// The file 10-grading/proof.pb.
#[rattlefmt::skip]
pub const PROOF: &[u8] = b"// Handed in: both arms add to integers of their own, and a test at the end, meant as a proof, divides by 0.
process p
begin
  integer left, right;
  parbegin
    left := left + 1;
    right := right + 1
  parend;
  print (left + right) div (left - right)
end
";

/// The file 10-grading/typed.pb.
#[rattlefmt::skip]
pub const TYPED: &[u8] = b"// Handed in: as a text in another language, so that it is refused.
process p
begin
  integer x;
  x = 2;
  print x
end
";

/// The file 10-grading/wait.pb.
#[rattlefmt::skip]
pub const WAIT: &[u8] = b"// Handed in: the second arm waits until the first has added. If it alone goes on it waits for ever.
process p
begin
  integer x, added;
  parbegin
    begin x := x + 1; added := 1 end;
    begin while not added do skip od; x := x + 1 end
  parend;
  print x
end
";
