//! Another claim of a job.

ghost use Rattle.std.specs.Prelude.{◌≡◌, ◌+◌, ◌<◌, ◌≤◌, ◌++◌, List, OnOk, IfNone};
ghost use Rattle.pb_base.specs.Banker.{processes, resources, capital, loan};
ghost use Rattle.pb_banker.specs.Jobs.{HasJob};
ghost use Rattle.pb_bank.specs.Claims as claims;
ghost use Rattle.pb_bank.specs.Desks.{IsRequestOf};
ghost use Rattle.pb_bank.specs.Words.{words_of};
ghost use Rattle.pb_bank.specs.declared.said.Said.{Said};

use crate::desk::Desk;
use crate::reason::jobs_of;
use crate::refusal::Refusal;
use crate::request::Request;
use crate::said::{Said, say};
use pb_banker::ClaimSaid;
use pb_base::{Bundle, NoMemory, Pair};
use std::mem;

/// Returns the amount of the first pair of a resource, 0 if there is none.
fn amount_for(bundle: &Bundle, resource: u8) -> u32
    ensures { result ≡ claims.amount_for bundle.now resource }
{
    for i in 0..bundle.len() {
        let pair = bundle.get(i);
        if pair.resource == resource {
            return pair.amount;
        }
    }
    0
}

/// Returns how much of a resource the wish of a job asks for, 0 if it has none.
fn wished(wishes: &[Request], job: usize, resource: u8) -> u32
    ensures { result ≡ claims.wished wishes.now job resource }
{
    for wish in wishes {
        if wish.job == job {
            return amount_for(&wish.bundle, resource);
        }
    }
    0
}

impl Desk {
    /// Returns why a claim is refused, if it is: it is over the capital, or below what the job holds and waits for.
    fn claim_refusal(&self, job: usize, pair: Pair) -> Option<Refusal>
        requires job { job < processes self.now.bank.state }
        requires resource { pair.resource < resources self.now.bank.state }
        ensures said { result ≡ claims.claim_refusal self.now job pair }
        ensures enough { IfNone result
            (loan self.now.bank.state job pair.resource + claims.wished self.now.wishes job pair.resource ≤ pair.amount) }
        ensures within { IfNone result (pair.amount ≤ capital self.now.bank.state pair.resource) }
    {
        let r = pair.resource as usize;
        if pair.amount > self.bank.capital(r) {
            return Some(Refusal::OverCapital(r));
        }
        let loan = self.bank.loan(job, r);
        if pair.amount < loan {
            return Some(Refusal::InUse(r));
        }
        if pair.amount - loan < wished(&self.wishes, job, pair.resource) {
            return Some(Refusal::InUse(r));
        }
        None
    }

    /// Changes the claim of a job if the state with it is safe, and serves the queue; or says why not.
    fn change_claim(&mut self, out: &mut Vec<Said>, job: usize, pair: Pair) -> Result<(), NoMemory>
        requires job { HasJob self.old.bank job }
        requires row { job < processes self.old.bank.state }
        requires resource { pair.resource < resources self.old.bank.state }
        requires enough { loan self.old.bank.state job pair.resource + claims.wished self.old.wishes job pair.resource
            ≤ pair.amount }
        requires within { pair.amount ≤ capital self.old.bank.state pair.resource }
        ensures { OnOk result ((said : List Said) × claims.AsksForClaim self.old job pair said self.new
            × (out.new.items ≡ out.old.items ++ said)) }
    {
        // Called for its contract alone, which the proof needs.
        let _ = self.bank.slots();
        match self
            .bank
            .set_claim(job, pair.resource as usize, pair.amount)
        {
            ClaimSaid::Changed => {
                let wishes = mem::replace(&mut self.wishes, Vec::new(self.alloc));
                self.serve(out, wishes)
            }
            ClaimSaid::Rest(slots) => { say(out, Said::WaitRest(jobs_of(&self.bank, &slots))) }
        }
    }

    /// Changes the claim of a job, if it is in its range; or refuses it.
    fn set_claim(&mut self, out: &mut Vec<Said>, job: usize, pair: Pair) -> Result<(), NoMemory>
        requires job { HasJob self.old.bank job }
        requires row { job < processes self.old.bank.state }
        requires resource { pair.resource < resources self.old.bank.state }
        ensures { OnOk result ((said : List Said)
            × claims.SetsClaim (claims.claim_refusal self.old job pair) self.old job pair said self.new
            × (out.new.items ≡ out.old.items ++ said)) }
    {
        match self.claim_refusal(job, pair) {
            Some(refusal) => say(out, Said::Refused(refusal)),
            None => self.change_claim(out, job, pair),
        }
    }

    /// Changes the claim that a request names, if it names one.
    fn claim(&mut self, out: &mut Vec<Said>, request: &Request) -> Result<(), NoMemory>
        requires of { IsRequestOf self.old.bank request.now }
        requires has { HasJob self.old.bank request.now.job }
        ensures { OnOk result ((said : List Said)
            × claims.SetsClaims self.old request.now.job request.now.bundle said self.new
            × (out.new.items ≡ out.old.items ++ said)) }
    {
        if request.bundle.len() == 1 {
            self.set_claim(out, request.job, request.bundle.get(0))
        } else {
            say(out, Said::Refused(Refusal::Command))
        }
    }

    /// Changes the claim of a job, or refuses it.
    pub(crate) fn say_claim(&mut self, out: &mut Vec<Said>, text: &[u8]) -> Result<(), NoMemory>
        ensures { OnOk result ((said : List Said) × claims.AnswersClaim self.old (words_of text.now) said self.new
            × (out.new.items ≡ out.old.items ++ said)) }
    {
        match self.request_of(text) {
            Ok(request) => self.claim(out, &request),
            Err(refusal) => say(out, Said::Refused(refusal)),
        }
    }
}
