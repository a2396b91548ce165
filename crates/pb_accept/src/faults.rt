//! Whether a process has faulted.
ghost use Rattle.std.specs.Prelude.{◌↔◌, IsTrue};
ghost use Rattle.pb_accept.specs.ToldEvents.{HasFault};
ghost use Rattle.pb_machine.specs.Views.{machine_view};

use pb_machine::Machine;

/// Returns whether some process has faulted.
pub fn has_fault(machine: &Machine) -> bool
    ensures { IsTrue result ↔ HasFault (machine_view machine.now) }
{
    for p in 0..machine.processes() {
        if machine.proc(p).faulted() {
            return true;
        }
    }
    false
}
