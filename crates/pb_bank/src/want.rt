//! Wishes that join the queue, and that are taken back.

ghost use Rattle.std.specs.Prelude.{◌≡◌, ◌++◌, ◌∷◌, [], List, false, IfOk, OnOk};
ghost use Rattle.pb_base.specs.Banker.{IsAllowed, IsWithinClaim};
ghost use Rattle.pb_banker.specs.Jobs.{HasJob};
ghost use Rattle.pb_bank.specs.Answers as answers;
ghost use Rattle.pb_bank.specs.Desks.{IsRequestOf};
ghost use Rattle.pb_bank.specs.Queues as queue;
ghost use Rattle.pb_bank.specs.Words.{words_of};
ghost use Rattle.pb_bank.specs.declared.said.Said.{Said};
ghost use Rattle.pb_bank.specs.declared.said.Said.TheVariants.{Queued};

use crate::desk::Desk;
use crate::queue::{has_wish, without};
use crate::refusal::Refusal;
use crate::request::Request;
use crate::said::{Said, say};
use crate::words::first_word;
use pb_banker::Reason;
use pb_base::NoMemory;

impl Desk {
    /// Returns what words ask for. A job that has a wish in the queue asks for nothing else.
    pub(crate) fn asked_of(&self, text: &[u8]) -> Result<Request, Refusal>
        ensures said { result ≡ answers.asked_of self.now (words_of text.now) }
        ensures of { IfOk result (IsRequestOf self.now.bank) }
        ensures has { IfOk result (λ w. HasJob self.now.bank w.job) }
        ensures free { IfOk result (λ w. queue.has_wish self.now.wishes w.job ≡ false) }
    {
        match self.request_of(text) {
            Ok(request) => {
                if has_wish(&self.wishes, request.job) {
                    Err(Refusal::HasWish)
                } else {
                    Ok(request)
                }
            }
            Err(refusal) => Err(refusal),
        }
    }

    /// Puts a wish that is not allowed into the queue.
    fn queue(&mut self, out: &mut Vec<Said>, wish: Request) -> Result<(), NoMemory>
        requires of { IsRequestOf self.old.bank wish }
        requires has { HasJob self.old.bank wish.job }
        requires free { queue.has_wish self.old.wishes wish.job ≡ false }
        requires within { IsWithinClaim self.old.bank.state wish.job wish.bundle }
        requires waits { ¬ IsAllowed self.old.bank.state wish.job wish.bundle }
        ensures wishes { OnOk result (self.new ≡ answers.with_wish self.old wish) }
        ensures said { OnOk result (out.new.items ≡ out.old.items ++ Queued ∷ []) }
    {
        // Called for its contract alone, which the proof needs.
        let _ = wish.bundle.len();
        self.wishes.push(wish)?;
        say(out, Said::Queued)
    }

    /// Grants a wish if it is allowed; else it joins the queue, if the claim allows as much.
    fn want(&mut self, out: &mut Vec<Said>, wish: Request) -> Result<(), NoMemory>
        requires of { IsRequestOf self.old.bank wish }
        requires has { HasJob self.old.bank wish.job }
        requires free { queue.has_wish self.old.wishes wish.job ≡ false }
        ensures { OnOk result ((said : List Said) × answers.Wants self.old wish said self.new
            × (out.new.items ≡ out.old.items ++ said)) }
    {
        match self.grant(&wish) {
            Reason::Allowed => say(out, Said::Granted(wish)),
            Reason::OverClaim(r) => say(out, Said::OverClaim(r)),
            Reason::OverCash(_) | Reason::Rest(_) => self.queue(out, wish),
        }
    }

    /// Grants a wish if it is allowed; else it joins the queue.
    pub(crate) fn say_want(&mut self, out: &mut Vec<Said>, text: &[u8]) -> Result<(), NoMemory>
        ensures { OnOk result ((said : List Said) × answers.AnswersWant self.old (words_of text.now) said self.new
            × (out.new.items ≡ out.old.items ++ said)) }
    {
        match self.asked_of(text) {
            Ok(wish) => self.want(out, wish),
            Err(refusal) => say(out, Said::Refused(refusal)),
        }
    }

    /// Takes the wish of a slot out of the queue, if it has one.
    fn drop_wish(&mut self, out: &mut Vec<Said>, p: usize) -> Result<(), NoMemory>
        ensures { OnOk result ((said : List Said)
            × answers.DropsWish (queue.has_wish self.old.wishes p) self.old p said self.new
            × (out.new.items ≡ out.old.items ++ said)) }
    {
        if !has_wish(&self.wishes, p) {
            return say(out, Said::Refused(Refusal::NoWish));
        }
        let others = without(self.alloc, &self.wishes, p)?;
        self.wishes = others;
        Ok(())
    }

    /// Takes the wish of a job out of the queue.
    pub(crate) fn say_drop(&mut self, out: &mut Vec<Said>, text: &[u8]) -> Result<(), NoMemory>
        ensures { OnOk result ((said : List Said) × answers.AnswersDrop self.old (words_of text.now) said self.new
            × (out.new.items ≡ out.old.items ++ said)) }
    {
        let name = first_word(text);
        if name.word.is_empty() || !first_word(name.rest).word.is_empty() {
            return say(out, Said::Refused(Refusal::Command));
        }
        match self.job_of(name.word) {
            Some(p) => self.drop_wish(out, p),
            None => say(out, Said::Refused(Refusal::NoJob(0))),
        }
    }
}
