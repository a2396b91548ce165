//! The lines of refusals.

ghost use Rattle.std.specs.Prelude.{◌≡◌, ◌++◌, OnOk};
ghost use Rattle.pb_debug.specs.Refusals.{IsCommandRefusal, refusal_text};

use crate::fault::DebugFault;
use pb_base::NoMemory;
use pb_base::writing::put;

/// Appends the line of a refusal of a command to a text.
pub(crate) fn put_refusal(text: &mut Vec<u8>, fault: DebugFault) -> Result<(), NoMemory>
    requires { IsCommandRefusal fault }
    ensures { OnOk result (text.new.items ≡ text.old.items ++ refusal_text fault) }
{
    match fault {
        DebugFault::PastEnd => put(text, b"refused G1\n"),
        DebugFault::NoProcess => put(text, b"refused G2\n"),
        DebugFault::NoArm => put(text, b"refused G3\n"),
        DebugFault::BadCommand => put(text, b"refused G4\n"),
        DebugFault::NoMemory | DebugFault::Device => unreachable!(),
    }
}
