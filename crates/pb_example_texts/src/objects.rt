//! The files of `examples/6-objects`. Written by checks/example_tests.py.

/// The file 6-objects/careful.pb.
#[rattlefmt::skip]
pub const CAREFUL: &[u8] = b"// Two holds in one another: the claim is 2 of 3 tapes. Its object is forged in many ways beside it.
resource tape = 3;
process p begin hold 1 of tape do hold 1 of tape do print 1 od od end
";

/// The file 6-objects/careful.pbo.
#[rattlefmt::skip]
pub const CAREFUL_OBJECT: &[u8] = b"PBO 2
resources 1
resource tape 3
processes 1
process p
vars 0
arms 1
claims 2
arm 0
code 7
3 take 0 1
3 take 0 1
3 push 1
3 print
3 give 0 1
3 give 0 1
0 end
";

/// The file 6-objects/forged_claim.pbo.
#[rattlefmt::skip]
pub const FORGED_CLAIM_OBJECT: &[u8] = b"PBO 2
resources 1
resource tape 3
processes 1
process p
vars 0
arms 1
claims 1
arm 0
code 7
3 take 0 1
3 take 0 1
3 push 1
3 print
3 give 0 1
3 give 0 1
0 end
";

/// The file 6-objects/no_text.pbo.
#[rattlefmt::skip]
pub const NO_TEXT_OBJECT: &[u8] = b"PBO 2
resources 0
processes 1
process p
vars 1 x
arms 1
claims
arm 0
code 9
0 push 1
0 push 2
0 print
0 load 0
0 jzero 6
0 jump 7
0 jump 7
0 print
0 end
";

/// The file 6-objects/sum.pb.
#[rattlefmt::skip]
pub const SUM: &[u8] = b"// A short program for a first look at its object: `emit` shows the instructions that a machine executes.
process p begin integer x; x := 2 + 3; print x end
";

/// The file 6-objects/sum.pbo.
#[rattlefmt::skip]
pub const SUM_OBJECT: &[u8] = b"PBO 2
resources 0
processes 1
process p
vars 1 x
arms 1
claims
arm 0
code 7
2 push 2
2 push 3
2 add
2 store 0
2 load 0
2 print
0 end
";
