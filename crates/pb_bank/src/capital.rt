//! Another capital of a resource.

ghost use Rattle.std.specs.Prelude.{◌≡◌, ◌<◌, ◌≤◌, ◌++◌, List, OnOk};
ghost use Rattle.pb_base.specs.Banker.{resources};
ghost use Rattle.pb_bank.specs.Capitals as capitals;
ghost use Rattle.pb_bank.specs.Words.{words_of};
ghost use Rattle.pb_bank.specs.declared.said.Said.{Said};

use crate::desk::Desk;
use crate::reason::jobs_of;
use crate::refusal::Refusal;
use crate::said::{Said, say};
use crate::words::{amount_of, first_word, place_of, two_words};
use pb_banker::CapitalSaid;
use pb_base::NoMemory;
use pb_base::limits::MAX_AMOUNT;
use std::mem;

impl Desk {
    /// Changes the capital of a resource, and serves the queue; or says why not.
    fn set_capital(&mut self, out: &mut Vec<Said>, r: usize, amount: u32) -> Result<(), NoMemory>
        requires resource { r < resources self.old.bank.state }
        requires small { amount ≤ MAX_AMOUNT }
        ensures { OnOk result ((said : List Said) × capitals.SetsCapital self.old r amount said self.new
            × (out.new.items ≡ out.old.items ++ said)) }
    {
        match self.bank.set_capital(r, amount) {
            CapitalSaid::Changed => {
                let wishes = mem::replace(&mut self.wishes, Vec::new(self.alloc));
                self.serve(out, wishes)
            }
            CapitalSaid::Claimed(slots) => { say(out, Said::Claimed(jobs_of(&self.bank, &slots))) }
            CapitalSaid::OverCash => { say(out, Said::WaitCash(r, self.bank.cash(r))) }
            CapitalSaid::Rest(slots) => { say(out, Said::WaitRest(jobs_of(&self.bank, &slots))) }
        }
    }

    /// Changes the capital of a resource, or refuses it.
    pub(crate) fn say_capital(&mut self, out: &mut Vec<Said>, text: &[u8]) -> Result<(), NoMemory>
        ensures { OnOk result ((said : List Said) × capitals.AnswersCapital self.old (words_of text.now) said self.new
            × (out.new.items ≡ out.old.items ++ said)) }
    {
        let Some(words) = two_words(text) else {
            return say(out, Said::Refused(Refusal::Command));
        };
        if !first_word(words.rest).word.is_empty() {
            return say(out, Said::Refused(Refusal::Command));
        }
        let Some(r) = place_of(&self.names.resources, words.first) else {
            return say(out, Said::Refused(Refusal::NoResource(0)));
        };
        match amount_of(words.second) {
            Some(amount) => self.set_capital(out, r, amount),
            None => say(out, Said::Refused(Refusal::Amount(1))),
        }
    }
}
