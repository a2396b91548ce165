//! All processes of the source together.

ghost use Rattle.std.specs.Prelude.{◌≡◌, ◌↔◌, ◌<◌, ◌≤◌, length, map, All, IfOk, IsTrue, OnErr, slice_get, Some, option_and_then};
ghost use Rattle.pb_base.specs.Steppers.{IsFinished, opening};
ghost use Rattle.pb_base.specs.Steps.{IsStepOf};
ghost use Rattle.pb_base.specs.declared.lending.Lending.TheVariants.{ByBanker};
ghost use Rattle.pb_names.specs.Meaning.{source_bank_by};
ghost use Rattle.pb_names.specs.Source.{SourceProcess as SourceState, source_over, source_process, source_step};
ghost use Rattle.pb_names.specs.View.{resolved_view};
ghost use Rattle.pb_names.specs.View.{process_view as program_process};
ghost use Rattle.pb_rewrite.specs.Found.{line_in};
ghost use Rattle.pb_rewrite.specs.View.{process_view};

use crate::copies::copy_list;
use crate::process::SourceProcess;
use pb_banker::Banker;
use pb_base::{Claims, NoMemory, Pick, Step};
use pb_names::{Process, Resolved};
use std::alloc::{Allocator, Global};

/// What is left of a program: of each process its integers and its run, and all loans.
#[derive(Drop)]
pub struct Source<A: Allocator> {
    processes: Vec<SourceProcess<A>>,
    banker: Banker,
}

impl<A: Allocator> Source<A> {
    ghost use Rattle.pb_rewrite.specs.Sources.{source_view, source_banker};

    /// Returns how many processes there are.
    pub fn processes(&self) -> usize
        ensures { result ≡ length (source_view self.now).processes }
    {
        self.processes.len()
    }

    /// Returns the integers of a process, by number.
    pub fn vars(&self, p: usize) -> &[i64]
        requires { p < length (source_view self.now).processes }
        ensures { (process : SourceState) → slice_get (source_view self.now).processes p ≡ Some process
            → result.now ≡ process.vars }
    {
        self.processes[p].vars()
    }

    /// Returns the banker, who knows all loans.
    pub fn banker(&self) -> &Banker
        ensures { result.now ≡ source_banker self.now }
    {
        &self.banker
    }

    /// Returns whether every process has ended or faulted.
    pub fn finished(&self) -> bool
        ensures { IsTrue result ↔ IsFinished source_over (source_view self.now) }
    {
        for process in &self.processes {
            if !process.is_over() {
                return false;
            }
        }
        true
    }

    /// Returns the line of the first item of an arm: running arms have that of their parbegin, and what is to
    /// be given back that of its hold. None if there is no such process or arm, if its list is empty,
    /// or after a fault.
    pub fn head_line(&self, p: usize, arm: usize) -> Option<u32>
        ensures { result ≡ option_and_then (λ process. line_in process arm)
            (slice_get (source_view self.now).processes p) }
    {
        if p >= self.processes.len() {
            return None;
        }
        self.processes[p].head_line(arm)
    }
}

impl<A: Allocator + Clone> Source<A> {
    ghost use Rattle.pb_rewrite.specs.Sources.{source_view, source_bank, IsSource, FitsClaims};

    /// Returns the program before its first step, its statements copied into `trees`. The error comes only if
    /// `alloc` or `trees` is out of memory.
    pub fn new(
        alloc: Global,
        trees: A,
        program: &Resolved<A>,
        claims: &Claims,
    ) -> Result<Source<A>, NoMemory>
        requires { FitsClaims (resolved_view program.now) claims.now }
        ensures opening { IfOk result (λ s. source_view s
            ≡ opening (source_bank_by ByBanker (resolved_view program.now) claims.now)
            (map source_process (resolved_view program.now).processes)) }
        ensures bank { IfOk result (λ s. source_bank s
            ≡ source_bank_by ByBanker (resolved_view program.now) claims.now) }
        ensures source { IfOk result IsSource }
    {
        let capital = program.capital(alloc)?;
        let banker = Banker::new(alloc, &capital, claims)?;
        let processes = processes_for(alloc, &trees, &program.processes)?;
        Ok(Source { processes, banker })
    }

    /// Makes a pick. One that is not enabled, or of a process or an arm that is not there, changes nothing;
    /// neither does any if out of memory.
    pub fn step(&mut self, alloc: A, pick: Pick) -> Result<Step, NoMemory>
        requires { IsSource self.old }
        ensures step { IfOk result (λ answer. IsStepOf (source_bank self.old) source_step (source_view self.old)
            pick answer (source_view self.new)) }
        ensures same { OnErr result (source_view self.new ≡ source_view self.old) }
        ensures bank { source_bank self.new ≡ source_bank self.old }
        ensures source { IsSource self.new }
    {
        // Called for its contract alone, which the proof needs.
        let _ = self.banker.processes();
        let p = pick.process as usize;
        if p >= self.processes.len() {
            return Ok(Step::NotEnabled);
        }
        self.processes[p].step(&mut self.banker, &alloc, pick)
    }
}

/// Returns the processes before their first step.
fn processes_for<A: Allocator + Clone>(
    alloc: Global,
    trees: &A,
    processes: &Vec<Process<A>, A>,
) -> Result<Vec<SourceProcess<A>>, NoMemory>
    ensures { IfOk result (λ made. map process_view made.items
        ≡ map source_process (map program_process processes.now.items)) }
{
    let mut made = Vec::with_capacity(alloc, processes.len())?;
    for process in processes {
        let body = copy_list(&process.body, trees)?;
        made.push(SourceProcess::new(alloc, process.integers.len(), body)?)?;
    }
    Ok(made)
}
