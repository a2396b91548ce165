//! The files of `examples/9-plan`. Written by checks/example_tests.py.

/// The file 9-plan/copies.pb.
#[rattlefmt::skip]
pub const COPIES: &[u8] = b"// One half of the work of a night: a copy of a disk on two tapes.
resource tape = 2;
resource disk = 1;
process copy
begin
  hold 1 of disk do
    hold 2 of tape do print 1 od
  od
end
";

/// The file 9-plan/lists.pb.
#[rattlefmt::skip]
pub const LISTS: &[u8] = b"// The other half: a list of what is on a tape, kept on the disk.
resource tape = 2;
resource disk = 1;
process list
begin
  hold 1 of tape do
    hold 1 of disk do print 2 od
  od
end
";

/// The file 9-plan/roomy.pb.
#[rattlefmt::skip]
pub const ROOMY: &[u8] = b"// The plan of a week, with one tape more.
resource tape = 5;
resource disk = 2;
process backup
begin
  hold 2 of tape do
    hold 1 of disk do print 1 od
  od
end
process sort
begin
  hold 1 of tape do print 2 od;
  parbegin
    hold 1 of tape do print 3 od;
    hold 2 of tape do
      hold 1 of disk do print 4 od
    od
  parend
end
";

/// The file 9-plan/week.pb.
#[rattlefmt::skip]
pub const WEEK: &[u8] = b"// The plan of a week, as it is handed in: how many tapes and disks does it need?
resource tape = 4;
resource disk = 2;
process backup
begin
  hold 2 of tape do
    hold 1 of disk do print 1 od
  od
end
process sort
begin
  hold 1 of tape do print 2 od;
  parbegin
    hold 1 of tape do print 3 od;
    hold 2 of tape do
      hold 1 of disk do print 4 od
    od
  parend
end
";
