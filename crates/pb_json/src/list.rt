//! Integers, and lists of them.

ghost use Rattle.std.specs.Prelude.{◌≡◌, ◌++◌, OnOk};
ghost use Rattle.pb_json.specs.Values.{comma, integer_text, integers_text, is_exact};

use pb_base::NoMemory;
use pb_base::writing::{put, put_digits};

/// The greatest integer up to which a float of 64 bits has each integer.
const MAX_EXACT: i64 = 9_007_199_254_740_991;

/// Returns whether a reader that keeps numbers as floats of 64 bits keeps this one.
pub fn is_exact(value: i64) -> bool
    ensures { result ≡ is_exact value }
{
    value <= MAX_EXACT && value >= -MAX_EXACT
}

/// Appends an integer to `out`: a number if it is within ±(2^53 - 1), else a string of its digits, since a
/// reader may keep numbers as floats.
pub fn put_integer(out: &mut Vec<u8>, value: i64) -> Result<(), NoMemory>
    ensures { OnOk result (out.new.items ≡ out.old.items ++ integer_text value) }
{
    if is_exact(value) {
        return put_digits(out, value);
    }
    put(out, b"\"")?;
    put_digits(out, value)?;
    put(out, b"\"")
}

/// Appends the comma before the item of a list with this number, counted from 0: none before the first.
pub fn put_comma(out: &mut Vec<u8>, item: usize) -> Result<(), NoMemory>
    ensures { OnOk result (out.new.items ≡ out.old.items ++ comma item) }
{
    if item == 0 {
        return Ok(());
    }
    put(out, b",")
}

/// Appends an item of a list of integers, with the comma before it.
fn put_item(out: &mut Vec<u8>, item: usize, value: i64) -> Result<(), NoMemory>
    ensures { OnOk result (out.new.items ≡ out.old.items ++ (comma item ++ integer_text value)) }
{
    put_comma(out, item)?;
    put_integer(out, value)
}

/// Appends a list of integers to `out`, as `[1,-2,3]`.
pub fn put_integers(out: &mut Vec<u8>, values: &[i64]) -> Result<(), NoMemory>
    ensures { OnOk result (out.new.items ≡ out.old.items ++ integers_text values.now) }
{
    put(out, b"[")?;
    for k in 0..values.len() {
        put_item(out, k, values[k])?;
    }
    put(out, b"]")
}
