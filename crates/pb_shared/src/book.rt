//! The book of a machine: what was picked, what is out, and what is left.

ghost use Rattle.std.specs.Prelude.{◌≡◌, ◌≤◌, ◌*◌, length, replicate, false, Some, None, IfOk};
ghost use Rattle.pb_machine.specs.Views.{machine_view, IsMachineOf};
ghost use Rattle.pb_shared.specs.Ledgers.{IsLegal, HasOutcome, new_ledger, all_home};
ghost use Rattle.pb_shared.specs.declared.outcome.Outcome.TheVariants.{Limit};

use crate::brand::CodeBrand;
use crate::outcome::Outcome;
use crate::slip::Slip;
use crate::spare::Spare;
use pb_base::NoMemory;
use pb_base::limits::{MAX_ARMS, MAX_PICKS, MAX_PROCESSES};
use pb_history::Trace;
use pb_machine::Machine;
use pb_verifier::Verified;
use std::alloc::Global;
use std::marker::{Model, PhantomData};

/// The book of one machine. It refers to its code, which is that of its brand. What each stretch changes is
/// side by side, so that little memory goes from one processor to another.
#[derive(Drop)]
pub struct Book<'v, C: CodeBrand> {
    pub(crate) code: &'v Verified,
    pub(crate) left: u32,
    pub(crate) limit: u32,
    pub(crate) next_process: u8,
    pub(crate) trace: Trace,
    pub(crate) slips: Vec<Option<Slip>>,
    pub(crate) spares: Vec<Option<Box<Spare>>>,
    pub(crate) refused: Vec<bool>,
    pub(crate) next_arms: Vec<u8>,
    pub(crate) machine: Machine,
    pub(crate) brand: PhantomData<C>,
}

impl<'v, C: CodeBrand> Model for Book<'v, C> {
    ghost use Rattle.pb_shared.specs.Ledgers.{Ledger};

    ghost Value = { Ledger };

    ghost use Rattle.pb_shared.specs.Books.{ledger_of, IsSound};

    ghost view = { ledger_of };

    ghost invariant = { λ b. IsSound C.code b };
}

impl<'v, C: CodeBrand> Book<'v, C> {
    /// Opens a book at the start of the brand's code, for at most `limit` picks. A limit is at most
    /// 10,000,000.
    pub fn new(alloc: Global, code: &'v Verified, limit: u32) -> Result<Book<'v, C>, NoMemory>
        requires brand { code.now ≡ C.code }
        requires limit { limit ≤ MAX_PICKS }
        ensures { IfOk result (λ b. b ≡ new_ledger C.code limit) }
    {
        // Called for its contract alone, which the proof needs.
        let _ = code.code();
        let machine = Machine::new(alloc, code)?;
        let count = machine.processes();
        let slips = no_slips(alloc, count)?;
        let spares = no_spares(alloc, count)?;
        let refused = no_marks(alloc, count)?;
        let next_arms: Vec<u8> = vec![in alloc; 0; count]?;
        Ok(Book {
            code,
            machine,
            trace: Trace::new(alloc),
            limit,
            left: limit,
            slips,
            spares,
            refused,
            next_process: 0,
            next_arms,
            brand: PhantomData,
        })
    }

    /// Returns the outcome, if there is one: done if all processes have ended or faulted, else the limit if
    /// no pick is left and no process is out.
    pub fn outcome(&self) -> Option<Outcome>
        ensures outcome { HasOutcome self.now result }
        ensures limit { result ≡ Some Limit → length self.now.entries ≡ self.now.limit }
    {
        if self.machine.finished() {
            Some(Outcome::Done)
        } else if self.left == 0 && self.all_home() {
            Some(Outcome::Limit)
        } else {
            None
        }
    }

    /// Returns whether no process is out.
    pub(crate) fn all_home(&self) -> bool
        ensures { result ≡ all_home self.now.slips }
    {
        self.slips.iter().all(|slip| slip.is_none())
    }

    /// Returns the code, which is that of the brand.
    pub fn code(&self) -> &'v Verified
        ensures { result.now ≡ C.code }
    {
        self.code
    }

    /// Returns how many picks may be made in all.
    pub fn limit(&self) -> u32
        ensures { result ≡ self.now.limit }
    {
        self.limit
    }

    /// Returns the machine.
    pub fn machine(&self) -> &Machine
        ensures state { machine_view result.now ≡ self.now.machine }
        ensures machine { IsMachineOf C.code result.now }
    {
        &self.machine
    }

    /// Returns the picks that were made.
    pub fn trace(&self) -> &Trace
        ensures { result.now.entries ≡ self.now.entries }
    {
        &self.trace
    }

    /// Returns its trace: picks from the start to the machine, each of which made just what is beside it.
    pub fn into_trace(self) -> Trace
        ensures entries { result.entries ≡ self.entry.entries }
        ensures legal { IsLegal C.code self.entry }
    {
        self.trace
    }
}

/// Returns the slips of `count` processes, all of which are at home.
fn no_slips(alloc: Global, count: usize) -> Result<Vec<Option<Slip>>, NoMemory>
    ensures { IfOk result (λ v. v.items ≡ replicate count None) }
{
    let mut slips = Vec::new(alloc);
    slips.resize(count, None)?;
    Ok(slips)
}

/// Returns the spares of `count` processes, none of which was lent yet.
fn no_spares(alloc: Global, count: usize) -> Result<Vec<Option<Box<Spare>>>, NoMemory>
    ensures { IfOk result (λ v. v.items ≡ replicate count None) }
{
    let mut spares = Vec::with_capacity(alloc, count)?;
    for process in 0..count {
        spares.push(None)?;
    }
    Ok(spares)
}

/// Returns the marks of `count` processes, none of which is set.
fn no_marks(alloc: Global, count: usize) -> Result<Vec<bool>, NoMemory>
    requires { count ≤ MAX_PROCESSES }
    ensures { IfOk result (λ v. v.items ≡ replicate (MAX_ARMS * count) false) }
{
    let mut marks = Vec::new(alloc);
    marks.resize(MAX_ARMS * count, false)?;
    Ok(marks)
}
