//! Objects that several of the tests use.

/// The object of `SUM` in the first format.
#[rattlefmt::skip]
pub const FIRST: &[u8] = b"PBO 1
resources 0
processes 1
process p
vars 1
arms 1
claims
arm 0
code 7
push 2
push 3
add
store 0
load 0
print
end
";

/// The same in the second format.
#[rattlefmt::skip]
pub const SECOND: &[u8] = b"PBO 2
resources 0
processes 1
process p
vars 1 x
arms 1
claims
arm 0
code 7
1 push 2
1 push 3
1 add
1 store 0
1 load 0
1 print
0 end
";

/// The first, read and written in the second format.
#[rattlefmt::skip]
pub const MOVED: &[u8] = b"PBO 2
resources 0
processes 1
process p
vars 1 v0
arms 1
claims
arm 0
code 7
0 push 2
0 push 3
0 add
0 store 0
0 load 0
0 print
0 end
";
