//! Codes of refusals, written and read.

use pb_options::{Code, UnknownCode};
use std::alloc::Global;

/// Returns whether a code is read from the name that is written for it.
fn is_read_as_written(alloc: Global, code: Code) -> bool {
    code.to_string(alloc)
        .is_ok_and(|name| name.as_str().parse::<Code>() == Ok(code))
}

#[test]
fn codes_are_read_as_written(rt: HostRuntime) {
    for code in Code::ALL {
        assert!(rt; is_read_as_written(rt.alloc(), code), "{code}");
    }
}

#[test]
fn other_names_are_no_codes(rt: HostRuntime) {
    for name in ["", "N", "N5", "n3", "N33", "L1 "] {
        assert!(rt; name.parse::<Code>() == Err(UnknownCode), "{name}");
    }
}
