//! The files of `examples/4-claims`. Written by checks/example_tests.py.

/// The file 4-claims/arms_add.pb.
#[rattlefmt::skip]
pub const ARMS_ADD: &[u8] = b"// Arms hold at the same time, so their claims add up: 2 and 3 at once, with the 1 round the parbegin, make 6.
resource tape = 6;
process p
begin
  hold 1 of tape do
    parbegin
      hold 2 of tape do print 2 od;
      hold 3 of tape do print 3 od
    parend
  od
end
";

/// The file 4-claims/branches.pb.
#[rattlefmt::skip]
pub const BRANCHES: &[u8] = b"// A claim is what a process may come to hold, whichever way its tests go: the greatest of the branches, though this
// test never chooses the greater one; and not the sum of two holds of which one comes after the other.
resource tape = 5;
process p
begin
  integer x;
  if x then hold 4 of tape do print 1 od else hold 2 of tape do print 2 od fi;
  hold 3 of tape do print 3 od
end
";

/// The file 4-claims/night.pb.
#[rattlefmt::skip]
pub const NIGHT: &[u8] = b"// The plan of a night: ten jobs, four tapes, three disks and two printers. Each job says by its holds what it needs and
// when. The banker starts as many side by side as can all be brought to their end.
resource tape = 4;
resource disk = 3;
resource printer = 2;
process backup begin hold 2 of tape, 1 of disk do print 1 od end
process payroll begin hold 1 of tape do print 2; hold 1 of printer do print 3 od od end
process sort begin hold 1 of disk do hold 3 of tape do print 4 od od end
process merge begin hold 2 of tape do hold 1 of disk do print 5 od od end
process ledger begin hold 1 of disk, 1 of printer do print 6 od end
process labels begin hold 2 of printer do print 7 od end
process archive begin hold 2 of disk do hold 2 of tape do print 8 od od end
process stock
begin
  parbegin
    hold 1 of tape do print 9 od;
    hold 1 of disk do print 10 od
  parend;
  hold 1 of printer do print 11 od
end
process letters
begin
  integer copies;
  while copies < 3 do
    hold 1 of printer do copies := copies + 1; print 100 + copies od
  od
end
process audit begin hold 3 of disk do hold 1 of printer do print 12 od od end
";

/// The file 4-claims/too_much.pb.
#[rattlefmt::skip]
pub const TOO_MUCH: &[u8] = b"// A plan that is refused before anything runs: at its peak `sort` holds two tapes to read and three to write, and there
// are four.
resource tape = 4;
process copy begin hold 2 of tape do print 1 od end
process sort begin hold 2 of tape do hold 3 of tape do print 2 od od end
";
