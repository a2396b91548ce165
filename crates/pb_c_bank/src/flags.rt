//! Flags as bytes, of which each value may come from C.

ghost use Rattle.std.specs.Prelude.{◌≡◌, ◌≤◌};
ghost use Rattle.pb_c_bank.specs.Banks.{AreMarked, flags};

use pb_base::limits::MAX_PROCESSES;

/// Returns for each byte whether it is not 0.
pub fn flags_of(bytes: &[u8; MAX_PROCESSES]) -> [bool; MAX_PROCESSES]
    ensures { result ≡ flags bytes.now }
{
    let mut set = [false; MAX_PROCESSES];
    for p in 0..MAX_PROCESSES {
        set[p] = bytes[p] != 0;
    }
    set
}

/// Returns 1 for each flag that is set, and 0 for each other.
pub fn bytes_of(set: &[bool; MAX_PROCESSES]) -> [u8; MAX_PROCESSES]
    ensures { flags result ≡ set.now }
{
    let mut bytes = [0; MAX_PROCESSES];
    for p in 0..MAX_PROCESSES {
        bytes[p] = u8::from(set[p]);
    }
    bytes
}

/// Returns 1 for each flag that is set among the first ones, and 0 for each other.
pub fn first_bytes_of(set: &[bool; MAX_PROCESSES], rows: usize) -> [u8; MAX_PROCESSES]
    requires { rows ≤ MAX_PROCESSES }
    ensures { AreMarked rows set.now result }
{
    let mut bytes = [0; MAX_PROCESSES];
    for p in 0..rows {
        bytes[p] = u8::from(set[p]);
    }
    bytes
}
