//! The files of `examples/solutions`. Written by checks/example_tests.py.

/// The file solutions/by_hand.pb.
#[rattlefmt::skip]
pub const BY_HAND: &[u8] = b"// Lesson 4, exercise 1: the claims of `p` are 4 tapes and 2 disks. The arms hold 1 and 2 tapes at once, with the one
// round them 4; the disks are never held in both branches.
resource tape = 9;
resource disk = 9;
process p
begin
  integer x;
  hold 1 of tape do
    if x then
      hold 2 of disk do print 1 od
    else
      parbegin
        hold 1 of tape do print 2 od;
        hold 2 of tape, 1 of disk do print 3 od
      parend
    fi
  od;
  hold 3 of tape do print 4 od
end
";

/// The file solutions/cautious.run.
#[rattlefmt::skip]
pub const CAUTIOUS_RUN: &[u8] = b"// Lesson 5, exercise 1: `a` has the tape, and `b` asks for the disk, which is free. The pick is not enabled.
resource tape = 1;
resource disk = 1;
process a
begin
  integer x;
  hold 1 of tape do
    print 1;
    if x then hold 1 of disk do print 2 od fi;
    print 3
  od
end
process b begin hold 1 of disk do hold 1 of tape do print 4 od od end
%%
a.0 1
b.0 1
";

/// The file solutions/cautious_ordered.pb.
#[rattlefmt::skip]
pub const CAUTIOUS_ORDERED: &[u8] = b"// Lesson 5, exercise 2: `b` takes the tape first too. It waits for the tape while this is not there, and for nothing else.
resource tape = 1;
resource disk = 1;
process a
begin
  integer x;
  hold 1 of tape do
    print 1;
    if x then hold 1 of disk do print 2 od fi;
    print 3
  od
end
process b begin hold 1 of tape do hold 1 of disk do print 4 od od end
";

/// The file solutions/customers_b.run.
#[rattlefmt::skip]
pub const CUSTOMERS_B_RUN: &[u8] = b"// Lesson 3, exercise 1: `b` asks for one florin more after 4, 2 and 1 are lent. The pick is not enabled: with 2 left
// nobody could be given all that he may still ask for.
resource florin = 10;
process a begin hold 4 of florin do hold 4 of florin do skip od od end
process b begin hold 2 of florin do hold 1 of florin do hold 3 of florin do skip od od od end
process c begin hold 1 of florin do hold 3 of florin do skip od od end
%%
a.0 1
b.0 1
c.0 1
b.0 1
";

/// The file solutions/customers_c.run.
#[rattlefmt::skip]
pub const CUSTOMERS_C_RUN: &[u8] = b"// Lesson 3, exercise 1: `c` asks for three florins more after 4, 2 and 1 are lent, and gets them: then c can finish,
// and with its four florins back b, and then a.
resource florin = 10;
process a begin hold 4 of florin do hold 4 of florin do skip od od end
process b begin hold 2 of florin do hold 1 of florin do hold 3 of florin do skip od od od end
process c begin hold 1 of florin do hold 3 of florin do skip od od end
%%
a.0 1
b.0 1
c.0 1
c.0 4
";

/// The file solutions/door.pb.
#[rattlefmt::skip]
pub const DOOR: &[u8] = b"// Lesson 2, exercise 5: a hold does not keep two arms of one process apart. Both may hold the door at once, so the claim
// of the process is 2, and with one door the program is refused. Holds are between processes.
resource door = 1;
process p
begin
  integer x;
  parbegin
    hold 1 of door do x := x + 1 od;
    hold 1 of door do x := x + 1 od
  parend;
  print x
end
";

/// The file solutions/fifth.run.
#[rattlefmt::skip]
pub const FIFTH_RUN: &[u8] = b"// Lesson 3, exercise 3: four philosophers have one fork each. The fifth asks for the fork at his left, which is free,
// and does not get it.
resource fork1 = 1;
resource fork2 = 1;
resource fork3 = 1;
resource fork4 = 1;
resource fork5 = 1;
process one begin hold 1 of fork1 do hold 1 of fork2 do print 1 od od end
process two begin hold 1 of fork2 do hold 1 of fork3 do print 2 od od end
process three begin hold 1 of fork3 do hold 1 of fork4 do print 3 od od end
process four begin hold 1 of fork4 do hold 1 of fork5 do print 4 od od end
process five begin hold 1 of fork5 do hold 1 of fork1 do print 5 od od end
%%
one.0 1
two.0 1
three.0 1
four.0 1
five.0 1
";

/// The file solutions/forged_capital.pbo.
#[rattlefmt::skip]
pub const FORGED_CAPITAL_OBJECT: &[u8] = b"PBO 2
resources 1
resource tape 3
processes 1
process p
vars 0
arms 1
claims 4
arm 0
code 7
3 take 0 1
3 take 0 1
3 push 1
3 print
3 give 0 1
3 give 0 1
0 end
";

/// The file solutions/forged_give.pbo.
#[rattlefmt::skip]
pub const FORGED_GIVE_OBJECT: &[u8] = b"PBO 2
resources 1
resource tape 3
processes 1
process p
vars 0
arms 1
claims 2
arm 0
code 7
3 take 0 1
3 take 0 1
3 push 1
3 print
3 give 0 2
3 give 0 2
0 end
";

/// The file solutions/forged_integer.pbo.
#[rattlefmt::skip]
pub const FORGED_INTEGER_OBJECT: &[u8] = b"PBO 2
resources 0
processes 1
process p
vars 1 x
arms 1
claims
arm 0
code 7
2 push 2
2 push 3
2 add
2 store 1
2 load 0
2 print
0 end
";

/// The file solutions/forged_jump.pbo.
#[rattlefmt::skip]
pub const FORGED_JUMP_OBJECT: &[u8] = b"PBO 2
resources 0
processes 1
process p
vars 1 x
arms 1
claims
arm 0
code 7
2 push 2
2 push 3
2 jump 7
2 store 0
2 load 0
2 print
0 end
";

/// The file solutions/forged_kept.pbo.
#[rattlefmt::skip]
pub const FORGED_KEPT_OBJECT: &[u8] = b"PBO 2
resources 1
resource tape 3
processes 1
process p
vars 0
arms 1
claims 2
arm 0
code 6
3 take 0 1
3 take 0 1
3 push 1
3 print
3 give 0 1
0 end
";

/// The file solutions/forged_stack.pbo.
#[rattlefmt::skip]
pub const FORGED_STACK_OBJECT: &[u8] = b"PBO 2
resources 0
processes 1
process p
vars 1 x
arms 1
claims
arm 0
code 6
2 push 2
2 add
2 store 0
2 load 0
2 print
0 end
";

/// The file solutions/forged_word.pbo.
#[rattlefmt::skip]
pub const FORGED_WORD_OBJECT: &[u8] = b"PBO 2
resources 0
processes 1
process p
vars 1 x
arms 1
claims
arm 0
code 7
2 push 2
2 push 3
2 plus
2 store 0
2 load 0
2 print
0 end
";

/// The file solutions/in_turn_split.pb.
#[rattlefmt::skip]
pub const IN_TURN_SPLIT: &[u8] = b"// Lesson 5, exercise 3: each part is a process of its own, with a claim on one account. Nothing is kept back, but nothing
// says any more that 1 is printed before 2.
resource savings = 1;
resource giro = 1;
process deposit1 begin hold 1 of giro do print 1 od end
process deposit2 begin hold 1 of savings do print 2 od end
process withdraw1 begin hold 1 of savings do print 3 od end
process withdraw2 begin hold 1 of giro do print 4 od end
";

/// The file solutions/lost_by_hand.run.
#[rattlefmt::skip]
pub const LOST_BY_HAND_RUN: &[u8] = b"// Lesson 2, exercise 1: both arms read x before either assigns. Each arm makes load x, push 1, add, store x, end.
process p
begin
  integer x;
  parbegin
    x := x + 1;
    x := x + 1
  parend;
  print x
end
%%
p.0 1
p.1 1
p.2 1
p.1 4
p.2 4
p.0 4
";

/// The file solutions/mended.pb.
#[rattlefmt::skip]
pub const MENDED: &[u8] = b"// Lesson 2, exercise 3: each arm counts in an integer of its own, and the sum is made when both have ended.
process p
begin
  integer x, y;
  parbegin
    x := x + 1;
    y := y + 1
  parend;
  print x + y
end
";

/// The file solutions/no_turn.pb.
#[rattlefmt::skip]
pub const NO_TURN: &[u8] = b"// Lesson 2, exercise 4: Peterson's algorithm without `first`. If both arms say that they want to go in before either
// has looked, each waits for the other for ever. They are not stuck, since each can still make steps, but they get
// nowhere: this is a livelock. The banker knows nothing of it, since nothing is held.
process peterson
begin
  integer wants1, wants2, x, i, j;
  parbegin
    while i < 3 do
      wants1 := 1;
      while wants2 do skip od;
      x := x + 1;
      wants1 := 0;
      i := i + 1
    od;
    while j < 3 do
      wants2 := 1;
      while wants1 do skip od;
      x := x + 1;
      wants2 := 0;
      j := j + 1
    od
  parend;
  print x
end
";

/// The file solutions/no_turn.run.
#[rattlefmt::skip]
pub const NO_TURN_RUN: &[u8] = b"// Lesson 2, exercise 4: Peterson's algorithm without `first`. If both arms say that they want to go in before either
// has looked, each waits for the other for ever. They are not stuck, since each can still make steps, but they get
// nowhere: this is a livelock. The banker knows nothing of it, since nothing is held.
process peterson
begin
  integer wants1, wants2, x, i, j;
  parbegin
    while i < 3 do
      wants1 := 1;
      while wants2 do skip od;
      x := x + 1;
      wants1 := 0;
      i := i + 1
    od;
    while j < 3 do
      wants2 := 1;
      while wants1 do skip od;
      x := x + 1;
      wants2 := 0;
      j := j + 1
    od
  parend;
  print x
end
%%
peterson.0 1
peterson.1 6
peterson.2 6
peterson.1 3000
peterson.2 3000
";

/// The file solutions/orders.run.
#[rattlefmt::skip]
pub const ORDERS_RUN: &[u8] = b"// Lesson 1, exercise 1: picks that print 10 and 20 before 1 and 2.
process p
begin
  parbegin
    begin print 1; print 2 end;
    begin print 10; print 20 end
  parend;
  print 100
end
%%
p.0 1
p.2 5
p.1 5
p.0 4
";

/// The file solutions/philosophers_ordered.pb.
#[rattlefmt::skip]
pub const PHILOSOPHERS_ORDERED: &[u8] = b"// Lesson 5, exercise 4: the fifth philosopher takes the fork with the lesser number first, as all the others do. A fork
// that is free is never kept back.
resource fork1 = 1;
resource fork2 = 1;
resource fork3 = 1;
resource fork4 = 1;
resource fork5 = 1;
process one begin hold 1 of fork1 do hold 1 of fork2 do print 1 od od end
process two begin hold 1 of fork2 do hold 1 of fork3 do print 2 od od end
process three begin hold 1 of fork3 do hold 1 of fork4 do print 3 od od end
process four begin hold 1 of fork4 do hold 1 of fork5 do print 4 od od end
process five begin hold 1 of fork1 do hold 1 of fork5 do print 5 od od end
";

/// The file solutions/readers_for_ever.pb.
#[rattlefmt::skip]
pub const READERS_FOR_EVER: &[u8] = b"// Lesson 5, exercise 5: two readers that never end, each of which takes its next permit as soon as it has given back the
// last one. There are runs in which the writer never gets both permits, since one of the readers always has one.
resource permit = 2;
process reader1 begin while 1 do hold 1 of permit do print 1 od od end
process reader2 begin while 1 do hold 1 of permit do print 2 od od end
process writer begin hold 2 of permit do print 9 od end
";

/// The file solutions/readers_for_ever.run.
#[rattlefmt::skip]
pub const READERS_FOR_EVER_RUN: &[u8] = b"// Lesson 5, exercise 5: two readers that never end, each of which takes its next permit as soon as it has given back the
// last one. There are runs in which the writer never gets both permits, since one of the readers always has one.
resource permit = 2;
process reader1 begin while 1 do hold 1 of permit do print 1 od od end
process reader2 begin while 1 do hold 1 of permit do print 2 od od end
process writer begin hold 2 of permit do print 9 od end
%%
reader1.0 3
reader2.0 3
reader1.0 7
reader2.0 7
reader1.0 7
reader2.0 7
reader1.0 7
reader2.0 7
";

/// The file solutions/rounds_alone.pb.
#[rattlefmt::skip]
pub const ROUNDS_ALONE: &[u8] = b"// Lesson 1, exercise 3: each arm goes through its own rounds, and no arm waits for the other one between them.
process p
begin
  integer i, j;
  parbegin
    while i < 3 do print i; i := i + 1 od;
    while j < 3 do print j + 10; j := j + 1 od
  parend
end
";

/// The file solutions/share_after.pb.
#[rattlefmt::skip]
pub const SHARE_AFTER: &[u8] = b"// The cake of 7-outcomes/share.pb is divided after the parbegin, so the guests are counted in every run.
process host
begin
  integer guests, pieces;
  parbegin
    guests := 4;
    skip
  parend;
  pieces := 12 div guests
end
";

/// The file solutions/sort_fits.pb.
#[rattlefmt::skip]
pub const SORT_FITS: &[u8] = b"// Lesson 4, exercise 2: `sort` reads before it writes, and gives back the tapes that it has read. Its claim is 3.
resource tape = 4;
process copy begin hold 2 of tape do print 1 od end
process sort begin hold 2 of tape do print 2 od; hold 3 of tape do print 3 od end
";

/// The file solutions/three_orders.pb.
#[rattlefmt::skip]
pub const THREE_ORDERS: &[u8] = b"// Lesson 1, exercise 2: three orders are possible. The 3 may come before, between and after the 1 and the 2.
process p
begin
  parbegin
    begin print 1; print 2 end;
    print 3
  parend
end
";

/// The file solutions/three_outcomes.pb.
#[rattlefmt::skip]
pub const THREE_OUTCOMES: &[u8] = b"// Three outcomes: x ends as 2 if the second arm assigns last, as 3 if it assigns first of all, and as 1 if it assigns
// between the reading and the assigning of the first arm.
process p
begin
  integer x;
  parbegin
    x := x + 1;
    x := 2
  parend
end
";

/// The file solutions/two_readers.pb.
#[rattlefmt::skip]
pub const TWO_READERS: &[u8] = b"// Lesson 3, exercise 4: with two permits at most two read at once.
resource permit = 2;
process reader1 begin hold 1 of permit do print 1 od end
process writer begin hold 2 of permit do print 9 od end
process reader2 begin hold 1 of permit do print 2 od end
process reader3 begin hold 1 of permit do print 3 od end
";

/// The file solutions/waits_four.pb.
#[rattlefmt::skip]
pub const WAITS_FOUR: &[u8] = b"// Lesson 3, exercise 2: with four florins a request waits for nothing except the cash. Whoever asks for two more finds
// two there, or the other one has all three and will give them back.
resource florin = 4;
process a begin hold 1 of florin do print 1; hold 2 of florin do print 2 od od end
process b begin hold 1 of florin do print 3; hold 2 of florin do print 4 od od end
";
