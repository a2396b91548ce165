//! A desk: a bank whose jobs and resources have names.

ghost use Rattle.std.specs.Prelude.{◌≡◌, ◌<◌, ◌≤◌, ◌==◌, ◌∷◌, [], ℕ, length, map, filter, not, replicate, false, All, IfOk, IfSome, OnOk};
ghost use Rattle.pb_base.specs.Banker.{processes, resources, IsWellFormed, IsSafe};
ghost use Rattle.pb_base.specs.Lines.{names_view};
ghost use Rattle.pb_banker.specs.Jobs.{HasJob};
ghost use Rattle.pb_bank.specs.Requests.{request_of};
ghost use Rattle.pb_bank.specs.Words.{words_of};

use crate::refusal::Refusal;
use crate::request::{Request, bundle_of};
use crate::words::{first_word, place_of};
use pb_banker::Bank;
use pb_base::limits::MAX_PROCESSES;
use pb_base::{Capital, Names, NoMemory};
use std::alloc::Global;
use std::marker::Model;

/// A bank whose jobs and resources have names, with a queue of wishes. After each command the state is safe, and
/// no wish of the queue is allowed.
#[derive(Drop)]
pub struct Desk {
    pub(crate) alloc: Global,
    pub(crate) bank: Bank,
    pub(crate) names: Names,
    pub(crate) wishes: Vec<Request>,
}

impl Model for Desk {
    ghost use Rattle.pb_bank.specs.Desks.{DeskValue, IsDesk};
    ghost use Rattle.pb_base.specs.Lines.{names_view};

    ghost Value = { DeskValue };

    ghost view = { λ d. record { bank = d.bank; names = names_view d.names; wishes = d.wishes.items } };

    ghost invariant = { λ d. IsDesk (record { bank = d.bank; names = names_view d.names; wishes = d.wishes.items }) };
}

/// Returns this many empty names.
fn no_names(alloc: Global, count: usize) -> Result<Vec<Vec<u8>>, NoMemory>
    ensures { IfOk result (λ names. map (λ name. name.items) names.items ≡ replicate count []) }
{
    let mut names = Vec::with_capacity(alloc, count)?;
    for _ in 0..count {
        names.push(Vec::new(alloc))?;
    }
    Ok(names)
}

impl Desk {
    ghost use Rattle.pb_bank.specs.Desks.{job_of, IsFirstDesk, IsQueueOf, IsRequestOf, NoneIsAllowed};

    /// Returns a desk with no resources, no jobs and no wishes.
    pub fn new(alloc: Global) -> Result<Desk, NoMemory>
        ensures { IfOk result IsFirstDesk }
    {
        let capital = Capital::new(alloc, &[])?;
        let bank = Bank::new(&capital);
        let processes = no_names(alloc, MAX_PROCESSES)?;
        let names = Names {
            processes,
            resources: Vec::new(alloc),
        };
        Ok(Desk {
            alloc,
            bank,
            names,
            wishes: Vec::new(alloc),
        })
    }

    /// Returns the number of wishes in the queue: one of a job at most, each within its claim, and none is allowed.
    pub fn waiting(&self) -> usize
        ensures number { result ≡ length self.now.wishes }
        ensures queue { IsQueueOf self.now.bank self.now.wishes }
        ensures waits { NoneIsAllowed self.now.bank.state self.now.wishes }
    {
        self.wishes.len()
    }

    /// Returns the names of jobs and resources.
    pub fn names(&self) -> &Names
        ensures { names_view result.now ≡ self.now.names }
    {
        &self.names
    }

    /// Returns the slot of the job of this name.
    pub(crate) fn job_of(&self, word: &[u8]) -> Option<usize>
        ensures job { result ≡ job_of self.now word.now }
        ensures row { IfSome result (λ p. p < processes self.now.bank.state) }
        ensures has { IfSome result (HasJob self.now.bank) }
        ensures slot { IfSome result (λ p. p < MAX_PROCESSES) }
    {
        let p = place_of(&self.names.processes, word)?;
        if self.bank.has_job(p) { Some(p) } else { None }
    }

    /// Returns the request that words say.
    #[tactic(auto, using(crate::proofs::WordLemmas::before_some, crate::proofs::WordLemmas::before_none), unfolding(crate::specs::Requests::request_of))]
    pub(crate) fn request_of(&self, text: &[u8]) -> Result<Request, Refusal>
        ensures said { result ≡ request_of self.now (words_of text.now) }
        ensures of { IfOk result (IsRequestOf self.now.bank) }
        ensures has { IfOk result (λ w. HasJob self.now.bank w.job) }
    {
        let name = first_word(text);
        if name.word.is_empty() {
            return Err(Refusal::Command);
        }
        // Called for its contract alone, which the proof needs.
        let _ = self.bank.resources();
        let Some(job) = self.job_of(name.word) else {
            return Err(Refusal::NoJob(0));
        };
        let bundle = bundle_of(&self.names.resources, name.rest)?;
        Ok(Request { job, bundle })
    }
}
