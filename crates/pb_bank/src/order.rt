//! Orders in which jobs finish.

ghost use Rattle.std.specs.Prelude.{◌≡◌, ◌<◌, ◌≤◌, ◌+◌, ◌++◌, List, Ok, Err, length, All, IfOk, IfErr, OnOk};
ghost use Rattle.pb_bank.specs.Answers as answers;
ghost use Rattle.pb_bank.specs.Words.{words_of};
ghost use Rattle.pb_bank.specs.declared.said.Said.{Said};

use crate::desk::Desk;
use crate::refusal::Refusal;
use crate::said::{Said, say};
use crate::slots::Slots;
use crate::words::first_word;
use pb_banker::{Bank, OrderSaid};
use pb_base::NoMemory;
use pb_base::limits::MAX_PROCESSES;

/// Adds a slot, if a job has it.
fn add_slot(slots: &mut Slots, bank: &Bank, p: u8)
    requires slot { p < MAX_PROCESSES }
    requires room { length slots.old < MAX_PROCESSES }
    ensures slots { slots.new ≡ slots.old ++ answers.slot_if_in bank.now.used p }
    ensures few { length slots.new ≤ length slots.old + 1 }
{
    if bank.has_job(p as usize) {
        slots.push(p);
    }
}

/// Returns the slots of an order that jobs have.
fn order_slots(bank: &Bank, order: &[u8]) -> Slots
    requires slots { All (λ p. p < MAX_PROCESSES) order.now }
    requires few { length order.now ≤ MAX_PROCESSES }
    ensures { result ≡ answers.order_slots bank.now.used order.now }
{
    let mut slots = Slots::new();
    for k in 0..order.len() {
        add_slot(&mut slots, bank, order[k]);
    }
    slots
}

/// Returns what is said of an order.
fn finish_order_said(slots: &[u8], said: OrderSaid) -> Said
    requires { answers.IsAmong (length slots.now) said }
    ensures { result ≡ answers.finish_order_said slots.now said }
{
    match said {
        OrderSaid::Finishing => Said::Finishes,
        OrderSaid::NoJob(k) => Said::Refused(Refusal::NoJob(k)),
        OrderSaid::Twice(k) => Said::Twice(slots[k] as usize),
        OrderSaid::Lacks(k, r) => Said::Lacks(slots[k] as usize, r),
        OrderSaid::Missing(p) => Said::Missing(p),
    }
}

impl Desk {
    /// Says the order in which each next job is the first that fits.
    fn tell_order(&self, out: &mut Vec<Said>) -> Result<(), NoMemory>
        ensures { OnOk result ((said : List Said) × answers.TellsOrder self.now said self.now
            × (out.new.items ≡ out.old.items ++ said)) }
    {
        let order = self.bank.order();
        let slots = self.bank.slots();
        say(out, Said::Order(order_slots(&self.bank, &order[..slots])))
    }

    /// Returns the slots of the jobs that words name, or the first word that names none.
    #[tactic(auto, using(crate::proofs::WordLemmas::before_some, crate::proofs::WordLemmas::before_none))]
    fn slots_of(&self, text: &[u8]) -> Result<Result<Vec<u8>, Refusal>, NoMemory>
        ensures some { IfOk result (λ found. IfOk found (λ slots. answers.slots_of self.now (words_of text.now) ≡ Ok slots.items)) }
        ensures below { IfOk result (λ found. IfOk found (λ slots. All (λ p. p < MAX_PROCESSES) slots.items)) }
        ensures none { IfOk result (λ found. IfErr found (λ refusal. answers.slots_of self.now (words_of text.now) ≡ Err refusal)) }
    {
        let mut slots = Vec::new(self.alloc);
        let mut rest = text;
        loop {
            let name = first_word(rest);
            if name.word.is_empty() {
                return Ok(Ok(slots));
            }
            let Some(p) = self.job_of(name.word) else {
                return Ok(Err(Refusal::NoJob(slots.len())));
            };
            slots.push(p as u8)?;
            rest = name.rest;
        }
    }

    /// Says whether all jobs finish in an order of slots, and why not.
    fn tell_whether(&self, out: &mut Vec<Said>, slots: &[u8]) -> Result<(), NoMemory>
        requires { All (λ p. p < MAX_PROCESSES) slots.now }
        ensures { OnOk result ((said : List Said) × answers.SaysWhether self.now slots.now said self.now
            × (out.new.items ≡ out.old.items ++ said)) }
    {
        let said = self.bank.check_order(slots);
        say(out, finish_order_said(slots, said))
    }

    /// Says an order in which all jobs finish, or what is to be said of the order that words name.
    #[tactic(auto, using(crate::proofs::WordLemmas::before_some, crate::proofs::WordLemmas::before_none))]
    pub(crate) fn say_order(&self, out: &mut Vec<Said>, text: &[u8]) -> Result<(), NoMemory>
        ensures { OnOk result ((said : List Said) × answers.AnswersOrder self.now (words_of text.now) said self.now
            × (out.new.items ≡ out.old.items ++ said)) }
    {
        if first_word(text).word.is_empty() {
            return self.tell_order(out);
        }
        match self.slots_of(text)? {
            Ok(slots) => self.tell_whether(out, &slots),
            Err(refusal) => say(out, Said::Refused(refusal)),
        }
    }
}
