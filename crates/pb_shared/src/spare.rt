//! The part of a stretch that serves for the next one too.

ghost use Rattle.std.specs.Prelude.{◌≡◌, ◌+◌, ◌<◌, ◌≤◌, ◌⊎◌, ℕ, IfOk, length, set};
ghost use Rattle.pb_machine.specs.Steps.{ComesFrom, StepsAloud};
ghost use Rattle.pb_machine.specs.Views.{machine_view, proc_view, IsMachineOf, IsProcessOf};
ghost use Rattle.pb_shared.specs.Lending.{IsSilentRun};
ghost use Rattle.pb_shared.specs.Spares.{lent_as, IsSpareOf};
ghost use Rattle.pb_verifier.specs.Verified.{VerifiedCode, IsVerified};

use pb_base::{NoMemory, Pick};
use pb_machine::{Machine, Proc};
use pb_verifier::Verified;
use std::alloc::Global;

/// What is lent of a process: the arm, how many picks it may make and how many it made, and the process as it
/// was lent and as it is now. It comes home with its stretch and serves for the next one of that process, so
/// that this takes no memory. It is in a box, so that little is moved with a stretch.
#[derive(Drop)]
pub struct Spare {
    pub(crate) pick: Pick,
    pub(crate) allowance: u32,
    pub(crate) made: u32,
    pub(crate) base: Proc,
    pub(crate) state: Proc,
}

impl Spare {
    /// Copies a process twice, for an arm that may make no pick.
    pub(crate) fn copies_of(
        alloc: Global,
        pick: Pick,
        process: &Proc,
    ) -> Result<Box<Spare>, NoMemory>
        ensures { IfOk result (λ spare. (v : VerifiedCode) → (p : ℕ) → IsProcessOf v p process.now
            → IsSpareOf v p spare.value) }
    {
        let base = process.copy(alloc)?;
        let state = process.copy(alloc)?;
        Ok(Box::new(
            alloc,
            Spare {
                pick,
                allowance: 0,
                made: 0,
                base,
                state,
            },
        )?)
    }

    /// Sets both processes to one of the same code, for an arm that may make this many picks. No memory is
    /// taken.
    #[inline(always)]
    pub(crate) fn begin(&mut self, process: &Proc, pick: Pick, allowance: u32)
        requires { (v : VerifiedCode) × (p : ℕ) × IsVerified v × IsSpareOf v p self.old × IsProcessOf v p process.now }
        ensures lent { lent_as self.new ≡ record {
          pick = pick;
          allowance = allowance;
          made = 0;
          base = proc_view process.now;
          state = proc_view process.now;
        } }
        ensures spare { (v : VerifiedCode) → (p : ℕ) → IsSpareOf v p self.old → IsProcessOf v p process.now
            → IsSpareOf v p self.new }
    {
        self.pick = pick;
        self.allowance = allowance;
        self.made = 0;
        self.base.set_to(process);
        self.state.set_to(process);
    }

    /// Makes silent picks of the arm, as `Stretch::run` says.
    pub(crate) fn run(&mut self, code: &Verified, max: u32) -> u32
        requires run { IsSilentRun code.now.code (lent_as self.old) }
        requires spare { IsSpareOf code.now self.old.pick.process self.old }
        ensures same { lent_as self.new
            ≡ record (lent_as self.old) { made = self.old.made + result; state = proc_view self.new.state } }
        ensures run { IsSilentRun code.now.code (lent_as self.new) }
        ensures most { result ≤ max }
        ensures stops { (result ≡ max) ⊎ ((self.new.made ≡ self.new.allowance)
            ⊎ StepsAloud code.now.code self.new.pick.process (proc_view self.new.state) self.new.pick.arm) }
        ensures spare { IsSpareOf code.now self.new.pick.process self.new }
    {
        let most = max.min(self.allowance - self.made);
        let count = self.state.run_silent(code, self.pick, most);
        self.made += count;
        count
    }

    /// Exchanges the state for the process of a machine from whose state it comes by silent picks. The base
    /// stays.
    #[inline(always)]
    pub(crate) fn exchange(&mut self, p: usize, machine: &mut Machine)
        requires { p < length (machine_view machine.old).processes }
        ensures base { self.new.base ≡ self.old.base }
        ensures processes { (machine_view machine.new).processes
            ≡ set (machine_view machine.old).processes p (proc_view self.old.state) }
        ensures bank { machine.new.bank ≡ machine.old.bank }
        ensures machine { (v : VerifiedCode) → IsMachineOf v machine.old → ComesFrom v machine.old p self.old.state
            → IsMachineOf v machine.new }
        ensures process { (v : VerifiedCode) → IsMachineOf v machine.old → IsProcessOf v p self.new.state }
    {
        machine.exchange(p, &mut self.state);
    }
}
