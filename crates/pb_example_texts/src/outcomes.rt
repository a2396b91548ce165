//! The files of `examples/7-outcomes`. Written by checks/example_tests.py.

/// The file 7-outcomes/share.pb.
#[rattlefmt::skip]
pub const SHARE: &[u8] = b"// One arm counts the guests, the other one divides a cake of 12 pieces among them. If it divides too early, there are no
// guests yet, and the process faults.
process host
begin
  integer guests, pieces;
  parbegin
    guests := 4;
    pieces := 12 div guests
  parend
end
";
