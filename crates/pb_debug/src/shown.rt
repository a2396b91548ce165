//! The state at a position.

ghost use Rattle.std.specs.Prelude.{◌≡◌, ◌≤◌, length, IfOk, IfErr, Some, slice_get};
ghost use Rattle.pb_banker.specs.Lenders.{lender_state, lending_by};
ghost use Rattle.pb_debug.specs.Refusals.{HasArm, HasNoProcess, IsMissing};
ghost use Rattle.pb_debug.specs.Shown.{IsShown, IsArmLine};
ghost use Rattle.pb_debug.specs.Value.{IsPosition, bank_state, state_of};
ghost use Rattle.pb_debug.specs.declared.fault.DebugFault.TheVariants as fault;
ghost use Rattle.pb_machine.specs.Views.{proc_view};

use crate::debugger::Debugger;
use crate::fault::DebugFault;
use pb_banker::Lender;
use pb_debug_positions::line_of_arm;
use pb_machine::Proc;

impl<'c> Debugger<'c> {
    /// Returns a process at the position: its arms and its integers. `NoProcess` if there is none with this
    /// number.
    pub fn threads(&self, p: usize) -> Result<&Proc, DebugFault>
        ensures shown { IfOk result (λ process. slice_get (state_of self.now).processes p ≡ Some (proc_view process.now)) }
        ensures refused { IfErr result (λ e. (e ≡ fault.NoProcess) × HasNoProcess self.now p) }
        ensures placed { IsPosition self.now }
    {
        if self.walker.machine.processes() <= p {
            return Err(DebugFault::NoProcess);
        }
        Ok(self.walker.machine.proc(p))
    }

    /// Returns the integers of a process at the position, by number. `NoProcess` if there is no such process.
    pub fn vars(&self, p: usize) -> Result<&[i64], DebugFault>
        ensures shown { IfOk result (λ vars. IsShown self.now p (λ process. vars.now ≡ process.vars)) }
        ensures refused { IfErr result (λ e. (e ≡ fault.NoProcess) × HasNoProcess self.now p) }
    {
        let process = self.threads(p)?;
        Ok(process.vars())
    }

    /// Returns the lender at the position, with all loans.
    pub fn loans(&self) -> &Lender
        ensures shown { lender_state result.now ≡ bank_state self.now }
        ensures lending { lending_by result.now ≡ self.now.lending }
        ensures placed { IsPosition self.now }
    {
        self.walker.machine.lender()
    }

    /// Returns the source line at which an arm of a process is at the position: that of its place if it is
    /// live, none for any other. `NoProcess` or `NoArm` if there is no such process or arm.
    pub fn line(&self, p: usize, arm: usize) -> Result<Option<u32>, DebugFault>
        ensures line { IfOk result (IsArmLine self.now p arm) }
        ensures arm { IfOk result (λ _. HasArm self.now p arm) }
        ensures refused { IfErr result (IsMissing self.now p arm) }
    {
        let process = self.threads(p)?;
        if process.arms() <= arm {
            return Err(DebugFault::NoArm);
        }
        Ok(line_of_arm(self.labels, &self.walker.machine, p, arm))
    }
}
