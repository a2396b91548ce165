//! Resources, and jobs that join.

ghost use Rattle.std.specs.Prelude.{◌≡◌, ◌++◌, ◌<◌, ◌≤◌, ◌∷◌, [], List, length, All, None, false, OnOk, IfOk, IfNone, OnErr, take, map, option_map, replicate};
ghost use Rattle.pb_base.specs.Banker.{processes, resources, capital};
ghost use Rattle.pb_base.specs.Lines.{names_view};
ghost use Rattle.pb_banker.specs.Value.{start_state};
ghost use Rattle.pb_bank.specs.Answers as answers;
ghost use Rattle.pb_bank.specs.Desks.{IsUsableName, place_of};
ghost use Rattle.pb_bank.specs.Requests.{pairs_of};
ghost use Rattle.pb_bank.specs.Words.{words_of, amount_of};
ghost use Rattle.pb_bank.specs.declared.said.Said.{Said};

use crate::desk::Desk;
use crate::refusal::Refusal;
use crate::request::bundle_of;
use crate::said::{Said, say};
use crate::words::{amount_of, first_word, is_name, place_of, two_words};
use pb_banker::{Bank, Joined};
use pb_base::limits::{MAX_AMOUNT, MAX_PROCESSES, MAX_RESOURCES};
use pb_base::{Bundle, Capital, NoMemory};
use std::alloc::Global;
use std::mem;

/// A row of claims.
type Row = [u32; MAX_RESOURCES];

/// Returns a row with the amounts of a bundle.
fn row_of(bundle: &Bundle) -> Row
    requires { All (λ pair. pair.resource < MAX_RESOURCES) bundle.now }
    ensures { result ≡ answers.with_amounts (replicate MAX_RESOURCES 0) bundle.now }
{
    let mut row = [0; MAX_RESOURCES];
    for i in 0..bundle.len() {
        let pair = bundle.get(i);
        row[pair.resource as usize] = pair.amount;
    }
    row
}

/// Returns a copy of a name.
fn owned(alloc: Global, name: &[u8]) -> Result<Vec<u8>, NoMemory>
    ensures { IfOk result (λ copy. copy.items ≡ name.now) }
{
    let copy = name.to_vec(alloc)?;
    Ok(copy)
}

/// Returns the capital of a bank with one more resource.
fn amounts_with(alloc: Global, bank: &Bank, amount: u32) -> Result<Vec<u32>, NoMemory>
    requires few { resources bank.now.state < MAX_RESOURCES }
    requires small { amount ≤ MAX_AMOUNT }
    ensures amounts { IfOk result (λ v. v.items ≡ bank.now.state.capital ++ amount ∷ []) }
    ensures few { IfOk result (λ v. length v.items ≤ MAX_RESOURCES) }
    ensures small { IfOk result (λ v. All (λ n. n ≤ MAX_AMOUNT) v.items) }
{
    let mut amounts = Vec::with_capacity(alloc, MAX_RESOURCES)?;
    for r in 0..bank.resources() {
        amounts.push(bank.capital(r))?;
    }
    amounts.push(amount)?;
    Ok(amounts)
}

/// Returns a bank with one more resource, and no jobs.
fn bank_with(alloc: Global, bank: &Bank, amount: u32) -> Result<Bank, NoMemory>
    requires few { resources bank.now.state < MAX_RESOURCES }
    requires small { amount ≤ MAX_AMOUNT }
    ensures state { IfOk result (λ b. b.state ≡ start_state (bank.now.state.capital ++ amount ∷ []) []) }
    ensures used { IfOk result (λ b. b.used ≡ replicate MAX_PROCESSES false) }
{
    let amounts = amounts_with(alloc, bank, amount)?;
    let capital = Capital::new(alloc, &amounts)?;
    Ok(Bank::new(&capital))
}

impl Desk {
    /// Returns why a resource is refused, if it is.
    fn resource_refusal(&self, name: &[u8], amount: Option<u32>) -> Option<Refusal>
        requires { 0 < length name.now }
        ensures said { result ≡ answers.resource_refusal self.now name.now amount }
        ensures name { IfNone result (IsUsableName name.now) }
        ensures new { IfNone result (place_of self.now.names.resources name.now ≡ None) }
        ensures early { IfNone result (processes self.now.bank.state ≡ 0) }
    {
        if amount.is_none() {
            return Some(Refusal::Amount(1));
        }
        if !is_name(name) {
            return Some(Refusal::Name);
        }
        if 0 < self.bank.slots() {
            return Some(Refusal::Late);
        }
        if place_of(&self.names.resources, name).is_some() {
            return Some(Refusal::Taken);
        }
        if self.bank.resources() < MAX_RESOURCES {
            None
        } else {
            Some(Refusal::Full)
        }
    }

    /// Adds a resource.
    fn add_resource(&mut self, name: &[u8], amount: u32) -> Result<(), NoMemory>
        requires few { resources self.old.bank.state < MAX_RESOURCES }
        requires small { amount ≤ MAX_AMOUNT }
        requires name { IsUsableName name.now }
        requires new { place_of self.old.names.resources name.now ≡ None }
        requires early { processes self.old.bank.state ≡ 0 }
        ensures { OnOk result (self.new ≡ answers.with_resource self.old name.now amount) }
    {
        let bank = bank_with(self.alloc, &self.bank, amount)?;
        let name = owned(self.alloc, name)?;
        self.names.resources.push(name)?;
        self.bank = bank;
        self.wishes = Vec::new(self.alloc);
        Ok(())
    }

    /// Adds a resource, or refuses it.
    pub(crate) fn say_resource(&mut self, out: &mut Vec<Said>, text: &[u8]) -> Result<(), NoMemory>
        ensures { OnOk result ((said : List Said) × answers.AnswersResource self.old (words_of text.now) said self.new
            × (out.new.items ≡ out.old.items ++ said)) }
    {
        let Some(words) = two_words(text) else {
            return say(out, Said::Refused(Refusal::Command));
        };
        if !first_word(words.rest).word.is_empty() {
            return say(out, Said::Refused(Refusal::Command));
        }
        let amount = amount_of(words.second);
        if let Some(refusal) = self.resource_refusal(words.first, amount) {
            return say(out, Said::Refused(refusal));
        }
        match amount {
            Some(amount) => self.add_resource(words.first, amount),
            None => say(out, Said::Refused(Refusal::Amount(1))),
        }
    }

    /// Returns the claims of a job of this name, if it may have it.
    fn claims_for(&self, name: &[u8], text: &[u8]) -> Result<Bundle, Refusal>
        requires { 0 < length name.now }
        ensures said { result ≡ answers.job_for self.now name.now (pairs_of self.now.names.resources (words_of text.now)) }
        ensures below { IfOk result (All (λ pair. pair.resource < resources self.now.bank.state)) }
        ensures name { IfOk result (λ _. IsUsableName name.now) }
        ensures new { IfOk result (λ _. place_of self.now.names.processes name.now ≡ None) }
    {
        // Called for its contract alone, which the proof needs.
        let _ = self.bank.resources();
        if !is_name(name) {
            return Err(Refusal::Name);
        }
        if place_of(&self.names.processes, name).is_some() {
            return Err(Refusal::Taken);
        }
        bundle_of(&self.names.resources, text)
    }

    /// Has a job of this name join, and serves the queue; or is refused.
    fn join(&mut self, out: &mut Vec<Said>, name: &[u8], bundle: &Bundle) -> Result<(), NoMemory>
        requires below { All (λ pair. pair.resource < resources self.old.bank.state) bundle.now }
        requires name { IsUsableName name.now }
        requires new { place_of self.old.names.processes name.now ≡ None }
        ensures { OnOk result ((said : List Said) × answers.JoinsWith self.old name.now bundle.now said self.new
            × (out.new.items ≡ out.old.items ++ said)) }
    {
        // Called for their contracts alone, which the proof needs.
        let _ = self.bank.slots();
        let _ = bundle.len();
        let resources = self.bank.resources();
        let row = row_of(bundle);
        let name = owned(self.alloc, name)?;
        match self.bank.join(&row[..resources]) {
            Joined::In(p) => {
                let wishes = mem::replace(&mut self.wishes, Vec::new(self.alloc));
                self.names.processes[p] = name;
                self.serve(out, wishes)
            }
            Joined::OverCapital(r) => say(out, Said::Refused(Refusal::OverCapital(r))),
            Joined::Full => say(out, Said::Refused(Refusal::Full)),
        }
    }

    /// Has a job join, or refuses it.
    pub(crate) fn say_job(&mut self, out: &mut Vec<Said>, text: &[u8]) -> Result<(), NoMemory>
        ensures { OnOk result ((said : List Said) × answers.AnswersJob self.old (words_of text.now) said self.new
            × (out.new.items ≡ out.old.items ++ said)) }
    {
        let name = first_word(text);
        if name.word.is_empty() {
            return say(out, Said::Refused(Refusal::Command));
        }
        match self.claims_for(name.word, name.rest) {
            Ok(bundle) => self.join(out, name.word, &bundle),
            Err(refusal) => say(out, Said::Refused(refusal)),
        }
    }
}
