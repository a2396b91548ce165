//! The files of `examples/5-deadlock`. Written by checks/example_tests.py.

/// The file 5-deadlock/cautious.pb.
#[rattlefmt::skip]
pub const CAUTIOUS: &[u8] = b"// What avoidance costs. `a` holds the tape and asks for the disk only if x is not 0, which it never is. The banker knows
// the claims and not the tests: while `a` has the tape it keeps the free disk from `b`, to no purpose.
resource tape = 1;
resource disk = 1;
process a
begin
  integer x;
  hold 1 of tape do
    print 1;
    if x then hold 1 of disk do print 2 od fi;
    print 3
  od
end
process b begin hold 1 of disk do hold 1 of tape do print 4 od od end
";

/// The file 5-deadlock/circle.run.
#[rattlefmt::skip]
pub const CIRCLE_RUN: &[u8] = b"// The deadlock that the banker prevents: by cash alone `a` gets the tape and `b` the disk, and each waits for the other.
resource tape = 1;
resource disk = 1;
process a
begin
  hold 1 of tape do hold 1 of disk do print 1 od od
end
process b
begin
  hold 1 of disk do hold 1 of tape do print 2 od od
end
%%
a.0 1
b.0 1
";

/// The file 5-deadlock/in_turn.pb.
#[rattlefmt::skip]
pub const IN_TURN: &[u8] = b"// The same two transfers, each of which gives back the first account before it takes the second. Nobody holds one and
// asks for another, so there is no deadlock even without a banker. Yet this banker makes `withdraw` wait for an account
// that is there: it knows what a process may hold, and not when.
resource savings = 1;
resource giro = 1;
process deposit
begin
  hold 1 of giro do print 1 od;
  hold 1 of savings do print 2 od
end
process withdraw
begin
  hold 1 of savings do print 3 od;
  hold 1 of giro do print 4 od
end
";

/// The file 5-deadlock/ordered.pb.
#[rattlefmt::skip]
pub const ORDERED: &[u8] = b"// The same two transfers, which both take the accounts in one order. That prevents a deadlock without a banker, and
// this banker finds nothing to keep back: a request waits only while the account that it asks for is not there.
resource savings = 1;
resource giro = 1;
process deposit
begin
  hold 1 of giro do
    print 1;
    hold 1 of savings do print 2 od
  od
end
process withdraw
begin
  hold 1 of giro do
    print 3;
    hold 1 of savings do print 4 od
  od
end
";

/// The file 5-deadlock/steps.pb.
#[rattlefmt::skip]
pub const STEPS: &[u8] = b"// A deadlock is not the only way to have no end: this program never waits and never ends. A run stops after the steps
// that `--steps` allows.
process p
begin
  integer x;
  while 1 do x := x + 1; print x od
end
";

/// The file 5-deadlock/two_phase.pb.
#[rattlefmt::skip]
pub const TWO_PHASE: &[u8] = b"// Two-phase holding. Each transfer takes both accounts before it gives back either, so nobody sees the money on its
// way; and the two take them in opposite order, which without a banker can end in a deadlock.
resource savings = 1;
resource giro = 1;
process deposit
begin
  hold 1 of giro do
    print 1;
    hold 1 of savings do print 2 od
  od
end
process withdraw
begin
  hold 1 of savings do
    print 3;
    hold 1 of giro do print 4 od
  od
end
";
