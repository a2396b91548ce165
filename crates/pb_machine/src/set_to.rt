//! Machines that are set to others of their code.

ghost use Rattle.std.specs.Prelude.{◌≡◌};
ghost use Rattle.pb_base.specs.declared.lending.Lending.{Lending as LendingValue};
ghost use Rattle.pb_machine.specs.Views.{machine_view, IsMachineBy};
ghost use Rattle.pb_verifier.specs.Verified.{VerifiedCode};

use crate::machine::Machine;

impl Machine {
    /// Takes over the state of all processes of a machine of the same code with the same lending, and its
    /// lender's. No memory is taken.
    pub fn set_to(&mut self, other: &Machine)
        requires { (lending : LendingValue) × (v : VerifiedCode) × IsMachineBy lending v self.old
            × IsMachineBy lending v other.now }
        ensures state { machine_view self.new ≡ machine_view other.now }
        ensures bank { self.new.bank ≡ other.now.bank }
        ensures machine { (lending : LendingValue) → (v : VerifiedCode) → IsMachineBy lending v self.old
            → IsMachineBy lending v other.now → IsMachineBy lending v self.new }
    {
        for p in 0..self.processes.len() {
            self.processes[p].set_to(&other.processes[p]);
        }
        self.bank.set_to(&other.bank);
    }
}
