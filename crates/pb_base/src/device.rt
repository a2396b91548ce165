//! Where bytes come from and where they go.

ghost use Rattle.std.specs.Prelude.{◌≡◌, ◌≢◌, ◌≤◌, ◌<◌, ℕ, List, [], Option, take, length, ◌⊎◌};
ghost use Rattle.std.specs.Prelude.{IfErr, IfOk, IfSome, OnOk, OnErr, ◌+◌, ◌^◌};
ghost use Rattle.pb_base.specs.Device.{appended, dropped, one_more_failure, AddsPrefix, GivesNext, LeavesRest};

pub mod faulty;
pub mod memory;
pub mod standard;

pub use faulty::{FaultyInput, FaultyOutput};
pub use memory::{MemoryInput, MemoryOutput};
pub use standard::{StandardInput, StandardOutput};
use std::alloc::Global;

/// A device refused a read or a write.
#[derive(Debug, Drop, thiserror::Error)]
#[error("a read or a write failed")]
pub struct DeviceFault;

/// A source of bytes.
pub trait Input {
    /// The bytes still to come, if they are known.
    ghost rest: { Self → Option (List ℕ) };

    /// How many reads have failed.
    ghost failures: { Self → ℕ };

    /// Reads the next bytes into the front of `buf`, and returns how many. It is 0 only at the end or for an
    /// empty `buf`.
    fn read(&mut self, buf: &mut [u8]) -> Result<usize, DeviceFault>
        ensures bound { IfOk result (λ n. n ≤ length buf.new) }
        ensures given { IfOk result (λ n. GivesNext (rest self.old) buf.new n) }
        ensures taken { IfOk result (λ n. rest self.new ≡ dropped (rest self.old) n) }
        ensures end { IfOk result (λ n. n ≡ 0 →
            (buf.new ≡ []) ⊎ IfSome (rest self.old) (λ bytes. bytes ≡ [])) }
        ensures counted { OnOk result (failures self.new ≡ failures self.old) }
        ensures fault { OnErr result ((rest self.new ≡ rest self.old)
            × (failures self.new ≡ one_more_failure (failures self.old))) };
}

/// A sink of bytes.
pub trait Output {
    /// The bytes written so far, if they are known.
    ghost written: { Self → Option (List ℕ) };

    /// How many writes have failed.
    ghost failures: { Self → ℕ };

    /// Takes some first bytes, and returns how many: at least 1 if there are any.
    fn write(&mut self, bytes: &[u8]) -> Result<usize, DeviceFault>
        ensures bound { IfOk result (λ n. n ≤ length bytes.now) }
        ensures some { IfOk result (λ n. 0 < length bytes.now → 0 < n) }
        ensures taken { IfOk result (λ n. written self.new ≡ appended (written self.old) (take n bytes.now)) }
        ensures counted { OnOk result (failures self.new ≡ failures self.old) }
        ensures fault { OnErr result ((written self.new ≡ written self.old)
            × (failures self.new ≡ one_more_failure (failures self.old))) };
}

/// Writes all the bytes. After a fault some first part of them is written.
pub fn write_all<O: Output>(output: &mut O, bytes: &[u8]) -> Result<(), DeviceFault>
    ensures ok { OnOk result (O.written output.new ≡ appended (O.written output.old) bytes.now) }
    ensures counted { OnOk result (O.failures output.new ≡ O.failures output.old) }
    ensures prefix { OnErr result (AddsPrefix (O.written output.old) (O.written output.new) bytes.now) }
    ensures fault { OnErr result (O.failures output.new ≡ one_more_failure (O.failures output.old)) }
{
    let mut rest = bytes;
    while !rest.is_empty() {
        let count = output.write(rest)?;
        rest = rest.split_at(count).1;
    }
    Ok(())
}

/// Why an input could not be read whole.
#[derive(Debug, Drop, thiserror::Error)]
pub enum ReadFault {
    /// A read was refused.
    #[error("a read failed")]
    Device,
    /// More bytes are there than the limit.
    #[error("the input is too long")]
    TooLong,
    /// Out of memory for the bytes.
    #[error("out of memory")]
    Memory,
}

/// Reads all that is left of the input, up to `limit` bytes. After an error the bytes that were read, at most
/// `limit` and a block of 4,096, are lost, and the input goes on after them.
pub fn read_whole<I: Input>(
    alloc: Global,
    input: &mut I,
    limit: usize,
) -> Result<Vec<u8>, ReadFault>
    requires { limit < 2 ^ 32 }
    ensures bytes { IfOk result (λ r. IfSome (I.rest input.old) (λ bytes. r.items ≡ bytes)) }
    ensures fits { IfOk result (λ r. length r.items ≤ limit) }
    ensures counted { OnOk result (I.failures input.new ≡ I.failures input.old) }
    ensures long { IfErr result (λ e. e ≡ ReadFault.TooLong →
        IfSome (I.rest input.old) (λ bytes. limit < length bytes)) }
    ensures fault { IfErr result (λ e. e ≡ ReadFault.Device →
        I.failures input.new ≡ one_more_failure (I.failures input.old)) }
    // A read that fails is told as nothing else.
    ensures no_fault { IfErr result (λ e. e ≢ ReadFault.Device →
        I.failures input.new ≡ I.failures input.old) }
    ensures left { OnErr result (LeavesRest (I.rest input.old) (I.rest input.new) (limit + 4096)) }
    // Out of memory comes only for bytes within the limit.
    ensures memory { IfErr result (λ e. e ≡ ReadFault.Memory →
        LeavesRest (I.rest input.old) (I.rest input.new) limit) }
{
    let mut bytes = Vec::new(alloc);
    let mut block = [0; 4096];
    loop {
        let Ok(count) = input.read(&mut block) else {
            return Err(ReadFault::Device);
        };
        if count == 0 {
            return Ok(bytes);
        }
        if limit - bytes.len() < count {
            return Err(ReadFault::TooLong);
        }
        let Ok(()) = bytes.extend_from_slice(&block[..count]) else {
            return Err(ReadFault::Memory);
        };
    }
}
