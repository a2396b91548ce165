//! The files of `examples/limits`. Written by checks/example_tests.py.

/// The file limits/amounts.pb.
#[rattlefmt::skip]
pub const AMOUNTS: &[u8] = b"// The largest capital, and so the largest amount of a hold: 1,000,000. A larger one is refused with `refused N4`.
resource cell = 1000000;
process p begin hold 1000000 of cell do print 1 od end
";

/// The file limits/arms.pb.
#[rattlefmt::skip]
pub const ARMS: &[u8] = b"// As many arms as a process may have: 64 with its body. One more is refused with `refused N1 arms`.
process p
begin
  parbegin
    print 1; print 2; print 3; print 4; print 5; print 6; print 7; print 8;
    print 9; print 10; print 11; print 12; print 13; print 14; print 15; print 16
  parend;
  parbegin
    print 17; print 18; print 19; print 20; print 21; print 22; print 23; print 24;
    print 25; print 26; print 27; print 28; print 29; print 30; print 31; print 32
  parend;
  parbegin
    print 33; print 34; print 35; print 36; print 37; print 38; print 39; print 40;
    print 41; print 42; print 43; print 44; print 45; print 46; print 47; print 48
  parend;
  parbegin
    print 49; print 50; print 51; print 52; print 53; print 54; print 55; print 56;
    print 57; print 58; print 59; print 60; print 61; print 62; print 63
  parend
end
";

/// The file limits/fork.pb.
#[rattlefmt::skip]
pub const FORK: &[u8] = b"// As many arms as a parbegin may have: 16. One more is refused with `refused N1 fork`.
process p
begin
  parbegin
    print 1;
    print 2;
    print 3;
    print 4;
    print 5;
    print 6;
    print 7;
    print 8;
    print 9;
    print 10;
    print 11;
    print 12;
    print 13;
    print 14;
    print 15;
    print 16
  parend
end
";

/// The file limits/height.pb.
#[rattlefmt::skip]
pub const HEIGHT: &[u8] = b"// As high as a tree may be: 200. The number has height 1, each of the 198 signs and `print` adds 1. One more sign is
// refused with `refused P2`.
process p
begin
  print
    - - - - - - - - - - - - - - - - - - - - - - - - - - - - - - - - -
    - - - - - - - - - - - - - - - - - - - - - - - - - - - - - - - - -
    - - - - - - - - - - - - - - - - - - - - - - - - - - - - - - - - -
    - - - - - - - - - - - - - - - - - - - - - - - - - - - - - - - - -
    - - - - - - - - - - - - - - - - - - - - - - - - - - - - - - - - -
    - - - - - - - - - - - - - - - - - - - - - - - - - - - - - - - - -
    1
end
";

/// The file limits/integers.pb.
#[rattlefmt::skip]
pub const INTEGERS: &[u8] = b"// As many integers as a process may have: 64. One more is refused with `refused N1 integers`.
process p
begin
  integer
    x1, x2, x3, x4, x5, x6, x7, x8, x9, x10, x11, x12, x13, x14, x15, x16,
    x17, x18, x19, x20, x21, x22, x23, x24, x25, x26, x27, x28, x29, x30, x31, x32,
    x33, x34, x35, x36, x37, x38, x39, x40, x41, x42, x43, x44, x45, x46, x47, x48,
    x49, x50, x51, x52, x53, x54, x55, x56, x57, x58, x59, x60, x61, x62, x63, x64;
  x1 := 1;
  x64 := 64;
  print x1 + x2 + x64
end
";

/// The file limits/names.pb.
#[rattlefmt::skip]
pub const NAMES: &[u8] = b"// As long as a name may be: 32 bytes. A longer one is refused with `refused L4`.
process a_process_with_a_name_of_32bytes
begin
  integer an_integer_with_a_name_of_32_byt;
  an_integer_with_a_name_of_32_byt := 1;
  print an_integer_with_a_name_of_32_byt
end
";

/// The file limits/nesting.pb.
#[rattlefmt::skip]
pub const NESTING: &[u8] = b"// As deep as brackets may be nested: 256, of which `begin` is the first. One more is refused with `refused P2`.
process p
begin
  print
    (((((((((((((((((((((((((((((((((((((((((((((((((((
    (((((((((((((((((((((((((((((((((((((((((((((((((((
    (((((((((((((((((((((((((((((((((((((((((((((((((((
    (((((((((((((((((((((((((((((((((((((((((((((((((((
    (((((((((((((((((((((((((((((((((((((((((((((((((((
    1
    )))))))))))))))))))))))))))))))))))))))))))))))))))
    )))))))))))))))))))))))))))))))))))))))))))))))))))
    )))))))))))))))))))))))))))))))))))))))))))))))))))
    )))))))))))))))))))))))))))))))))))))))))))))))))))
    )))))))))))))))))))))))))))))))))))))))))))))))))))
end
";

/// The file limits/numbers.pb.
#[rattlefmt::skip]
pub const NUMBERS: &[u8] = b"// The largest number in a text, and the least integer, which has to be worked out. A larger number is refused with
// `refused L3`; a result that does not fit is the fault `overflow`.
process p
begin
  print 9223372036854775807;
  print -9223372036854775807 - 1;
  print -(-9223372036854775807 - 1)
end
";

/// The file limits/processes.pb.
#[rattlefmt::skip]
pub const PROCESSES: &[u8] = b"// As many processes as a program may have: 64. One more is refused with `refused N1 processes`.
process p1 begin print 1 end
process p2 begin print 2 end
process p3 begin print 3 end
process p4 begin print 4 end
process p5 begin print 5 end
process p6 begin print 6 end
process p7 begin print 7 end
process p8 begin print 8 end
process p9 begin print 9 end
process p10 begin print 10 end
process p11 begin print 11 end
process p12 begin print 12 end
process p13 begin print 13 end
process p14 begin print 14 end
process p15 begin print 15 end
process p16 begin print 16 end
process p17 begin print 17 end
process p18 begin print 18 end
process p19 begin print 19 end
process p20 begin print 20 end
process p21 begin print 21 end
process p22 begin print 22 end
process p23 begin print 23 end
process p24 begin print 24 end
process p25 begin print 25 end
process p26 begin print 26 end
process p27 begin print 27 end
process p28 begin print 28 end
process p29 begin print 29 end
process p30 begin print 30 end
process p31 begin print 31 end
process p32 begin print 32 end
process p33 begin print 33 end
process p34 begin print 34 end
process p35 begin print 35 end
process p36 begin print 36 end
process p37 begin print 37 end
process p38 begin print 38 end
process p39 begin print 39 end
process p40 begin print 40 end
process p41 begin print 41 end
process p42 begin print 42 end
process p43 begin print 43 end
process p44 begin print 44 end
process p45 begin print 45 end
process p46 begin print 46 end
process p47 begin print 47 end
process p48 begin print 48 end
process p49 begin print 49 end
process p50 begin print 50 end
process p51 begin print 51 end
process p52 begin print 52 end
process p53 begin print 53 end
process p54 begin print 54 end
process p55 begin print 55 end
process p56 begin print 56 end
process p57 begin print 57 end
process p58 begin print 58 end
process p59 begin print 59 end
process p60 begin print 60 end
process p61 begin print 61 end
process p62 begin print 62 end
process p63 begin print 63 end
process p64 begin print 64 end
";

/// The file limits/resources.pb.
#[rattlefmt::skip]
pub const RESOURCES: &[u8] = b"// As many resources as a program may have, 16, and as many as one hold may name. One more is refused with
// `refused N1 resources`.
resource r1 = 1;
resource r2 = 2;
resource r3 = 3;
resource r4 = 4;
resource r5 = 5;
resource r6 = 6;
resource r7 = 7;
resource r8 = 8;
resource r9 = 9;
resource r10 = 10;
resource r11 = 11;
resource r12 = 12;
resource r13 = 13;
resource r14 = 14;
resource r15 = 15;
resource r16 = 16;
process p
begin
  hold
    1 of r1,
    2 of r2,
    3 of r3,
    4 of r4,
    5 of r5,
    6 of r6,
    7 of r7,
    8 of r8,
    9 of r9,
    10 of r10,
    11 of r11,
    12 of r12,
    13 of r13,
    14 of r14,
    15 of r15,
    16 of r16
  do print 1 od
end
";
