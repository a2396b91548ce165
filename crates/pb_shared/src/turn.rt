//! Turns of an arm in the book itself.

ghost use Rattle.std.specs.Prelude.{◌≡◌, ◌<◌, ◌≤◌, IfOk, OnErr, MatchOption};
ghost use Rattle.pb_shared.specs.Turning.{GoesOn, NoTurn, TakesTurn};

use crate::book::Book;
use crate::brand::CodeBrand;
use crate::take::{next_of, set_turn};
use crate::visible::try_visible;
use pb_base::{NoMemory, Pick};

impl<'v, C: CodeBrand> Book<'v, C> {
    /// Lends a ready arm, makes its picks and takes it home, as `take`, `Stretch::run` and `commit` do one
    /// after the other. Since nothing leaves the book, nothing is copied, and nothing is compared. Returns
    /// how many silent picks were made; nothing if `take` would lend none. Out of memory leaves the book as it
    /// was.
    #[inline(always)]
    pub fn turn(&mut self, quantum: u32) -> Result<Option<u32>, NoMemory>
        requires { 0 < quantum }
        ensures ok { IfOk result (λ made. MatchOption made (NoTurn C.code.code self.old self.new)
            (λ made. TakesTurn C.code.code self.old quantum made self.new)) }
        ensures err { OnErr result (self.new ≡ self.old) }
    {
        if self.left == 0 {
            return Ok(None);
        }
        let Some(pick) = self.find_ready() else {
            return Ok(None);
        };
        if let Some(_) = self.outcome_beside(usize::from(pick.process)) {
            return Ok(None);
        }
        let most = quantum.min(self.left);
        let made = self.go_on(pick, most)?;
        self.pass_turn(pick);
        Ok(Some(made))
    }

    /// Makes the silent picks of an arm, at most `most`, and tries its visible pick if fewer were made.
    #[inline(always)]
    fn go_on(&mut self, pick: Pick, most: u32) -> Result<u32, NoMemory>
        requires { most ≤ self.old.left }
        ensures ok { IfOk result (λ made. GoesOn C.code.code self.old pick most made self.new) }
        ensures err { OnErr result (self.new ≡ self.old) }
    {
        if self.trace.reserve(2).is_err() {
            return Err(NoMemory);
        }
        let made = self.machine.run_silent(self.code, pick, most);
        self.trace.push_silent(pick, made);
        self.left -= made;
        if made == most {
            return Ok(made);
        }
        let _answer = try_visible(
            self.code,
            &mut self.machine,
            &mut self.trace,
            &mut self.left,
            &mut self.refused,
            pick,
        );
        Ok(made)
    }

    /// Lets the turn pass to what is after this arm.
    #[inline(always)]
    fn pass_turn(&mut self, pick: Pick)
        ensures { self.new ≡ self.old }
    {
        let next_process = next_of(pick.process, self.processes());
        let next_arm = next_of(pick.arm, self.arms(pick.process));
        self.next_process = next_process;
        set_turn(&mut self.next_arms, usize::from(pick.process), next_arm);
    }
}
