//! Requests, and what comes back.

ghost use Rattle.std.specs.Prelude.{◌≡◌, ◌++◌, ◌<◌, ◌≤◌, List, All, false, OnOk, IfNone};
ghost use Rattle.pb_base.specs.Banker.{processes, resources, loan};
ghost use Rattle.pb_banker.specs.Jobs.{SaysWhy, state_held};
ghost use Rattle.pb_bank.specs.Answers as answers;
ghost use Rattle.pb_bank.specs.Desks.{IsRequestOf, job_of};
ghost use Rattle.pb_bank.specs.Queues.{has_wish, ServesQueue};
ghost use Rattle.pb_bank.specs.Words.{words_of};
ghost use Rattle.pb_bank.specs.declared.said.Said.{Said};

use crate::desk::Desk;
use crate::queue::without;
use crate::reason::say_reason;
use crate::refusal::Refusal;
use crate::request::Request;
use crate::said::{Said, say};
use crate::words::first_word;
use pb_banker::{Answer, Bank, Reason};
use pb_base::NoMemory;
use std::mem;

/// Returns why a request would be granted or not.
fn reason_of(bank: &Bank, request: &Request) -> Reason
    requires { IsRequestOf bank.now request.now }
    ensures why { SaysWhy bank.now.state request.now.job request.now.bundle result }
    ensures among { answers.IsReasonOf bank.now.state result }
{
    // Called for its contract alone, which the proof needs.
    let _ = request.bundle.len();
    bank.why(request.job, &request.bundle)
}

/// Makes a loan if it is allowed, and returns why it is made or not.
fn lend(bank: &mut Bank, request: &Request) -> Reason
    requires { IsRequestOf bank.old request.now }
    ensures why { SaysWhy bank.old.state request.now.job request.now.bundle result }
    ensures state { bank.new.state ≡ state_held bank.old.state request.now.job request.now.bundle result }
    ensures used { bank.new.used ≡ bank.old.used }
    ensures among { answers.IsReasonOf bank.old.state result }
{
    // Called for its contract alone, which the proof needs.
    let _ = request.bundle.len();
    match bank.ask(request.job, &request.bundle) {
        Answer::Granted => Reason::Allowed,
        Answer::NotNow | Answer::OverClaim => reason_of(bank, request),
    }
}

/// Returns what is said of a request that is granted: that it is held, or granted.
fn grant_said(held: bool, request: &Request) -> Said
    ensures { result ≡ answers.grant_said held request.now }
{
    if held {
        Said::Held(*request)
    } else {
        Said::Granted(*request)
    }
}

/// Returns the first resource of which a job does not hold as much.
fn unheld(bank: &Bank, request: &Request) -> Option<usize>
    requires { IsRequestOf bank.now request.now }
    ensures first { result ≡ answers.unheld bank.now.state request.now.job request.now.bundle }
    ensures none { IfNone result (All (λ pair. pair.amount ≤ loan bank.now.state request.now.job pair.resource) request.now.bundle) }
{
    for i in 0..request.bundle.len() {
        let pair = request.bundle.get(i);
        if bank.loan(request.job, pair.resource as usize) < pair.amount {
            return Some(pair.resource as usize);
        }
    }
    None
}

impl Desk {
    /// Grants a request of a job that has no wish, if it is allowed, and returns why it is granted or not.
    pub(crate) fn grant(&mut self, request: &Request) -> Reason
        requires of { IsRequestOf self.old.bank request.now }
        requires free { has_wish self.old.wishes request.now.job ≡ false }
        ensures why { SaysWhy self.old.bank.state request.now.job request.now.bundle result }
        ensures state { self.new ≡ answers.with_state self.old
            (state_held self.old.bank.state request.now.job request.now.bundle result) }
        ensures among { answers.IsReasonOf self.old.bank.state result }
        ensures of { IsRequestOf self.new.bank request.now }
    {
        // Called for its contract alone, which the proof needs.
        let _ = self.bank.slots();
        lend(&mut self.bank, request)
    }

    /// Grants a request if it is allowed, and says so; `held` says it in another word.
    pub(crate) fn say_ask(
        &mut self,
        out: &mut Vec<Said>,
        held: bool,
        text: &[u8],
    ) -> Result<(), NoMemory>
        ensures { OnOk result ((said : List Said)
            × answers.OfRequest (answers.Grants held self.old)
            (answers.asked_of self.old (words_of text.now)) self.old said self.new
            × (out.new.items ≡ out.old.items ++ said)) }
    {
        match self.asked_of(text) {
            Ok(request) => self.tell_grant(out, held, &request),
            Err(refusal) => say(out, Said::Refused(refusal)),
        }
    }

    /// Grants a request if it is allowed, and appends a line that says so, or why not,.
    fn tell_grant(
        &mut self,
        out: &mut Vec<Said>,
        held: bool,
        request: &Request,
    ) -> Result<(), NoMemory>
        requires of { IsRequestOf self.old.bank request.now }
        requires free { has_wish self.old.wishes request.now.job ≡ false }
        ensures { OnOk result ((said : List Said) × answers.Grants held self.old request.now said self.new
            × (out.new.items ≡ out.old.items ++ said)) }
    {
        let reason = self.grant(request);
        say_reason(out, grant_said(held, request), &self.bank, &reason)
    }

    /// Says why a request would be granted or not.
    pub(crate) fn say_why(&self, out: &mut Vec<Said>, text: &[u8]) -> Result<(), NoMemory>
        ensures { OnOk result ((said : List Said) × answers.AnswersWhy self.now (words_of text.now) said self.now
            × (out.new.items ≡ out.old.items ++ said)) }
    {
        match self.request_of(text) {
            Ok(request) => {
                let reason = reason_of(&self.bank, &request);
                say_reason(out, Said::Allowed, &self.bank, &reason)
            }
            Err(refusal) => say(out, Said::Refused(refusal)),
        }
    }

    /// Takes back what a job gives, if it holds as much, and serves the queue.
    fn give(&mut self, out: &mut Vec<Said>, request: &Request) -> Result<(), NoMemory>
        requires { IsRequestOf self.old.bank request.now }
        ensures { OnOk result ((said : List Said) × answers.Gives self.old request.now said self.new
            × (out.new.items ≡ out.old.items ++ said)) }
    {
        if let Some(r) = unheld(&self.bank, request) {
            return say(out, Said::Refused(Refusal::NotHeld(r)));
        }
        // Called for its contract alone, which the proof needs.
        let _ = self.bank.slots();
        let wishes = mem::replace(&mut self.wishes, Vec::new(self.alloc));
        self.bank.give(request.job, &request.bundle);
        self.serve(out, wishes)
    }

    /// Takes back what a job gives, and serves the queue.
    pub(crate) fn say_give(&mut self, out: &mut Vec<Said>, text: &[u8]) -> Result<(), NoMemory>
        ensures { OnOk result ((said : List Said) × answers.AnswersGive self.old (words_of text.now) said self.new
            × (out.new.items ≡ out.old.items ++ said)) }
    {
        match self.request_of(text) {
            Ok(request) => self.give(out, &request),
            Err(refusal) => say(out, Said::Refused(refusal)),
        }
    }

    /// Takes back all that a job holds, frees its slot and its name, and serves the queue.
    pub(crate) fn say_leave(&mut self, out: &mut Vec<Said>, text: &[u8]) -> Result<(), NoMemory>
        ensures { OnOk result ((said : List Said) × answers.AnswersLeave self.old (words_of text.now) said self.new
            × (out.new.items ≡ out.old.items ++ said)) }
    {
        let name = first_word(text);
        if name.word.is_empty() || !first_word(name.rest).word.is_empty() {
            return say(out, Said::Refused(Refusal::Command));
        }
        match self.job_of(name.word) {
            Some(p) => self.leave(out, p),
            None => say(out, Said::Refused(Refusal::NoJob(0))),
        }
    }

    /// Takes back all that a slot holds, frees it and its name, and serves the queue.
    fn leave(&mut self, out: &mut Vec<Said>, p: usize) -> Result<(), NoMemory>
        requires { p < processes self.old.bank.state }
        ensures { OnOk result ((said : List Said) × ServesQueue (answers.desk_left self.old p) said self.new
            × (out.new.items ≡ out.old.items ++ said)) }
    {
        // Called for its contract alone, which the proof needs.
        let _ = self.bank.slots();
        let wishes = without(self.alloc, &self.wishes, p)?;
        self.wishes = Vec::new(self.alloc);
        self.bank.leave(p);
        self.names.processes[p] = Vec::new(self.alloc);
        self.serve(out, wishes)
    }
}
