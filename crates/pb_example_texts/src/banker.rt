//! The files of `examples/3-banker`. Written by checks/example_tests.py.

/// The file 3-banker/barber.pb.
#[rattlefmt::skip]
pub const BARBER: &[u8] = b"// The sleeping barber, as far as holds express it: a shop with three places, one of them the barber's chair. A customer
// who finds no place waits outside, where in the story he would leave: a hold waits, and never gives up. The barber is
// a resource, and sleeps while nobody holds him.
resource place = 3;
resource barber = 1;
process ann begin hold 1 of place do hold 1 of barber do print 1 od od end
process ben begin hold 1 of place do hold 1 of barber do print 2 od od end
process cleo begin hold 1 of place do hold 1 of barber do print 3 od od end
process dan begin hold 1 of place do hold 1 of barber do print 4 od od end
";

/// The file 3-banker/bounded_buffer.pb.
#[rattlefmt::skip]
pub const BOUNDED_BUFFER: &[u8] = b"// A buffer of two slots as a resource. Each item holds a slot from before it is made until after it is used, so that
// at most two items are under way; one machine makes items, and another one uses them.
resource slot = 2;
resource maker = 1;
resource user = 1;
process first
begin
  hold 1 of slot do
    hold 1 of maker do print 1 od;
    hold 1 of user do print 10 od
  od
end
process second
begin
  hold 1 of slot do
    hold 1 of maker do print 2 od;
    hold 1 of user do print 20 od
  od
end
process third
begin
  hold 1 of slot do
    hold 1 of maker do print 3 od;
    hold 1 of user do print 30 od
  od
end
";

/// The file 3-banker/five_philosophers.pb.
#[rattlefmt::skip]
pub const FIVE_PHILOSOPHERS: &[u8] = b"// Five philosophers at a round table, with a fork between each two of them. Each takes the fork at the left and then
// the one at the right. The fifth waits for his first fork, although it is free: with it each would have one fork,
// and nobody could eat.
resource fork1 = 1;
resource fork2 = 1;
resource fork3 = 1;
resource fork4 = 1;
resource fork5 = 1;
process one begin hold 1 of fork1 do hold 1 of fork2 do print 1 od od end
process two begin hold 1 of fork2 do hold 1 of fork3 do print 2 od od end
process three begin hold 1 of fork3 do hold 1 of fork4 do print 3 od od end
process four begin hold 1 of fork4 do hold 1 of fork5 do print 4 od od end
process five begin hold 1 of fork5 do hold 1 of fork1 do print 5 od od end
";

/// The file 3-banker/readers_writers.pb.
#[rattlefmt::skip]
pub const READERS_WRITERS: &[u8] = b"// Readers and writers. There are three permits: a reader holds one of them, a writer all three. So up to three read at
// once, and nobody else is there while somebody writes.
resource permit = 3;
process reader1 begin hold 1 of permit do print 1 od end
process writer begin hold 3 of permit do print 9 od end
process reader2 begin hold 1 of permit do print 2 od end
process reader3 begin hold 1 of permit do print 3 od end
";

/// The file 3-banker/waits.pb.
#[rattlefmt::skip]
pub const WAITS: &[u8] = b"// The banker makes somebody wait although there is enough. Two borrowers may come to need three florins each, and there
// are three. Once `a` has one, `b` may not have one of the two that are left: then neither could get all that it may
// still ask for.
resource florin = 3;
process a begin hold 1 of florin do print 1; hold 2 of florin do print 2 od od end
process b begin hold 1 of florin do print 3; hold 2 of florin do print 4 od od end
";

/// The file 3-banker/waits_refused.run.
#[rattlefmt::skip]
pub const WAITS_REFUSED_RUN: &[u8] = b"// The banker makes somebody wait although there is enough. Two borrowers may come to need three florins each, and there
// are three. Once `a` has one, `b` may not have one of the two that are left: then neither could get all that it may
// still ask for.
resource florin = 3;
process a begin hold 1 of florin do print 1; hold 2 of florin do print 2 od od end
process b begin hold 1 of florin do print 3; hold 2 of florin do print 4 od od end
%%
a.0 1
b.0 1
";
