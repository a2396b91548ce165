//! Objects that the tests run.

use pb_object::read_object;
use pb_verifier::{Verified, verify};
use std::alloc::Global;

/// Prints 1.
pub const PRINT: &[u8] = b"PBO 1
resources 0
processes 1
process p
vars 0
arms 1
claims
arm 0
code 3
push 1
print
end
";

/// Two processes that want the same two devices in opposite order.
pub const DEVICES: &[u8] = b"PBO 1
resources 2
resource tape 1
resource disk 1
processes 2
process a
vars 0
arms 1
claims 1 1
arm 0
code 5
take 0 1
take 1 1
give 1 1
give 0 1
end
process b
vars 0
arms 1
claims 1 1
arm 0
code 5
take 1 1
take 0 1
give 0 1
give 1 1
end
";

/// A process that forks two arms within a hold, each of which holds more.
pub const FORKS: &[u8] = b"PBO 1
resources 1
resource t 4
processes 1
process p
vars 0
arms 3
claims 4
arm 0
arm 5
arm 8
code 11
take 0 1
fork 1 2
join 1 2
give 0 1
end
take 0 1
give 0 1
end
take 0 2
give 0 2
end
";

/// Two processes, each of which prints twice.
pub const PRINTS: &[u8] = b"PBO 1
resources 0
processes 2
process p
vars 0
arms 1
claims
arm 0
code 5
push 1
print
push 2
print
end
process q
vars 0
arms 1
claims
arm 0
code 5
push 3
print
push 4
print
end
";

/// Two arms add 1 to the same integer, which is printed then.
pub const INCREMENTS: &[u8] = b"PBO 1
resources 0
processes 1
process p
vars 1
arms 3
claims
arm 0
arm 5
arm 10
code 15
fork 1 2
join 1 2
load 0
print
end
load 0
push 1
add
store 0
end
load 0
push 1
add
store 0
end
";

/// A process that divides by zero.
pub const DIVIDES: &[u8] = b"PBO 1
resources 0
processes 1
process p
vars 0
arms 1
claims
arm 0
code 5
push 1
push 0
div
print
end
";

/// A process that never ends, and prints nothing.
pub const TURNS: &[u8] = b"PBO 1
resources 0
processes 1
process p
vars 0
arms 1
claims
arm 0
code 4
push 1
jzero 3
jump 0
end
";

/// Returns the verified code of an object.
pub fn verified(alloc: Global, text: &[u8]) -> Option<Verified> {
    let Ok(code) = read_object(alloc, text) else {
        return None;
    };
    match verify(alloc, code) {
        Ok(verified) => Some(verified),
        Err(_) => None,
    }
}
