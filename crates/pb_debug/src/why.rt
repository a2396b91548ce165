//! Why an arm does not go on.

ghost use Rattle.std.specs.Prelude.{IfOk, IfErr};
ghost use Rattle.pb_debug.specs.Refusals.{HasArm, IsArmFault};
ghost use Rattle.pb_debug.specs.Value.{IsPosition};
ghost use Rattle.pb_debug.specs.Whys.{IsWhy};

use crate::debugger::Debugger;
use crate::fault::DebugFault;
use pb_debug_texts::{Why, asked, reason};

impl<'c> Debugger<'c> {
    /// Returns why an arm of a process does not go on at the position, or may. `NoProcess` or `NoArm` if
    /// there is no such process or arm, or out of memory.
    pub fn why(&self, p: usize, arm: usize) -> Result<Why, DebugFault>
        ensures why { IfOk result (IsWhy self.now p arm) }
        ensures arm { IfOk result (λ _. HasArm self.now p arm) }
        ensures placed { IsPosition self.now }
        ensures refused { IfErr result (IsArmFault self.now p arm) }
    {
        let process = self.threads(p)?;
        if process.arms() <= arm {
            return Err(DebugFault::NoArm);
        }
        let code = self.verified.code();
        match asked(&code.processes[p], process.thread(arm)) {
            Some(bundle) => Ok(reason(self.alloc, self.loans(), p, bundle)?),
            None => Ok(Why::NotAsking),
        }
    }
}
