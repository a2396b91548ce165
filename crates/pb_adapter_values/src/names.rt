//! Names, and the numbers of threads.

ghost use Rattle.std.specs.Prelude.{◌≡◌, ◌<◌, ◌≤◌, ◌^◌, IfOk, map};
ghost use Rattle.pb_base.specs.Lines.{name_of};
ghost use Rattle.pb_adapter_values.specs.Values as spec;

use pb_base::NoMemory;
use std::alloc::Global;

/// Returns the name with a number; no bytes if there is none.
pub fn name_at(names: &[Vec<u8>], i: usize) -> &[u8]
    ensures { result.now ≡ name_of (map (λ name. name.items) names.now) i }
{
    match names.get(i) {
        Some(name) => name.as_slice(),
        None => b"",
    }
}

/// Returns the number of the thread that an arm of a process is.
pub fn thread_number(p: usize, arm: usize) -> u64
    requires process { p < 2 ^ 32 }
    requires arm { arm < 2 ^ 32 }
    ensures { result ≡ spec.thread_number p arm }
{
    64 * p as u64 + arm as u64 + 1
}

/// Returns `P.a`, for an arm of the process with this name.
pub fn arm_name(alloc: Global, name: &[u8], arm: usize) -> Result<String, NoMemory>
    ensures { IfOk result (λ s. s.bytes.items ≡ spec.arm_name name.now arm) }
{
    let name = String::from_utf8_lossy(alloc, name)?;
    Ok(format!(in alloc; "{name}.{arm}")?)
}
