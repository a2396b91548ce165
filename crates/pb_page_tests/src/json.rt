//! Strings and integers of JSON, as they are written.

use pb_base::NoMemory;
use pb_json::{put_integer, put_integers, put_string};
use std::alloc::Global;

/// Returns some strings, integers and lists, one after another.
fn written(alloc: Global) -> Result<Vec<u8>, NoMemory> {
    let mut out = Vec::new(alloc);
    put_string(&mut out, b"")?;
    put_string(&mut out, b"a \"b\" \\ </c>\n\t\r\x00\x7f\xff~")?;
    put_integer(&mut out, -9_007_199_254_740_991)?;
    put_integer(&mut out, -9_007_199_254_740_992)?;
    put_integer(&mut out, 9_223_372_036_854_775_807)?;
    put_integers(&mut out, &[])?;
    put_integers(&mut out, &[1, -2, 9_007_199_254_740_992])?;
    Ok(out)
}

#[test]
fn strings_and_integers_are_written(rt: HostRuntime) {
    let expected: &[u8] =
        b"\"\"\"a \\\"b\\\" \\\\ \\u003c/c>\\n\\u0009\\u000d\\u0000\\u007f\\u00ff~\"-9007199254740991\"-9007199254740992\"\"9223372036854775807\"[][1,-2,\"9007199254740992\"]";
    let Ok(out) = written(rt.alloc()) else {
        assert!(rt; false);
        return;
    };
    assert!(rt; out.as_slice() == expected);
}
