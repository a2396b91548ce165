//! What a program has too many of.

ghost use Rattle.std.specs.Prelude.{◌≡◌, ◌+◌, length, map, max, IfSome, IfNone};
ghost use Rattle.pb_tree.specs.Measure.{saturated};
ghost use Rattle.pb_tree.specs.View.{stmt_view, stmts_view, arms_view, process_view, program_view};
ghost use Rattle.pb_names.specs.Limits.{widest_in_stmt, widest_in, widest_in_arms};
ghost use Rattle.pb_names.specs.Limits.{inner_arms_of_stmt, inner_arms, inner_arms_of_arms};
ghost use Rattle.pb_names.specs.Limits.{most, IsTooMany, IsWithinLimits};

use crate::fault::Kind;
use pb_base::limits::{MAX_ARMS, MAX_FORK, MAX_INTEGERS, MAX_PROCESSES, MAX_RESOURCES};
use pb_tree::{Process, Program, Stmt};
use std::alloc::Allocator;

/// The most arms that one parbegin has, and how many arms all parbegins have together. Both stay at the
/// greatest `usize`.
#[derive(Clone, Copy)]
struct Forks {
    widest: usize,
    arms: usize,
}

const NO_FORKS: Forks = Forks { widest: 0, arms: 0 };

/// Returns, of two parts, the wider parbegin and the arms of both.
fn both(a: Forks, b: Forks) -> Forks
    ensures widest { result.widest ≡ max a.widest b.widest }
    ensures arms { result.arms ≡ saturated (a.arms + b.arms) }
{
    Forks {
        widest: a.widest.max(b.widest),
        arms: a.arms.saturating_add(b.arms),
    }
}

/// Returns the parbegins of a statement.
#[cycle(forks)]
#[tactic(auto, using(pb_tree::proofs::Views::stmt_views))]
fn forks_of_stmt<A: Allocator>(stmt: &Stmt<A>) -> Forks
    ensures widest { result.widest ≡ widest_in_stmt (stmt_view stmt.now) }
    ensures arms { result.arms ≡ saturated (inner_arms_of_stmt (stmt_view stmt.now)) }
{
    match stmt {
        Stmt::Assign { .. } | Stmt::Print { .. } => NO_FORKS,
        Stmt::If {
            on_true,
            on_false,
            ..
        } => both(forks_of_list(on_true), forks_of_list(on_false)),
        Stmt::While { body, .. } => forks_of_list(body),
        Stmt::Hold { body, .. } => forks_of_list(body),
        Stmt::Parbegin { arms, .. } => {
            let own = Forks {
                widest: arms.len(),
                arms: arms.len(),
            };
            both(own, forks_of_arms(arms))
        }
    }
}

/// Returns the parbegins of a list.
#[cycle(forks)]
#[tactic(auto, using(pb_tree::proofs::Views::stmt_views))]
fn forks_of_list<A: Allocator>(stmts: &Vec<Stmt<A>, A>) -> Forks
    ensures widest { result.widest ≡ widest_in (stmts_view stmts.now.items) }
    ensures arms { result.arms ≡ saturated (inner_arms (stmts_view stmts.now.items)) }
{
    let mut forks = NO_FORKS;
    for stmt in stmts {
        forks = both(forks, forks_of_stmt(stmt));
    }
    forks
}

/// Returns the parbegins in arms.
#[cycle(forks)]
#[tactic(auto, using(pb_tree::proofs::Views::stmt_views))]
fn forks_of_arms<A: Allocator>(arms: &Vec<Vec<Stmt<A>, A>, A>) -> Forks
    ensures widest { result.widest ≡ widest_in_arms (arms_view arms.now.items) }
    ensures arms { result.arms ≡ saturated (inner_arms_of_arms (arms_view arms.now.items)) }
{
    let mut forks = NO_FORKS;
    for arm in arms {
        forks = both(forks, forks_of_list(arm));
    }
    forks
}

/// The most integers, the widest parbegin and the most arms of a process; the last stays at the greatest
/// `usize`.
#[derive(Clone, Copy)]
struct Most {
    integers: usize,
    fork: usize,
    arms: usize,
}

/// Returns the most of each kind that one process has.
fn most_of<A: Allocator>(processes: &Vec<Process<A>, A>) -> Most
    ensures integers { result.integers
        ≡ most (λ process. length process.integers) (map process_view processes.now.items) }
    ensures fork { result.fork
        ≡ most (λ process. widest_in process.body) (map process_view processes.now.items) }
    ensures arms { result.arms
        ≡ saturated (most (λ process. 1 + inner_arms process.body) (map process_view processes.now.items)) }
{
    let mut most = Most {
        integers: 0,
        fork: 0,
        arms: 0,
    };
    for process in processes {
        let forks = forks_of_list(&process.body);
        most.integers = most.integers.max(process.integers.len());
        most.fork = most.fork.max(forks.widest);
        most.arms = most.arms.max(forks.arms.saturating_add(1));
    }
    most
}

/// Returns the first kind of which a program has too many.
pub fn too_many<A: Allocator>(program: &Program<A>) -> Option<Kind>
    ensures passed { IfSome result (λ kind. IsTooMany (program_view program.now) kind) }
    ensures within { IfNone result (IsWithinLimits (program_view program.now)) }
{
    let most = most_of(&program.processes);
    if program.processes.len() > MAX_PROCESSES {
        return Some(Kind::Processes);
    }
    if program.resources.len() > MAX_RESOURCES {
        return Some(Kind::Resources);
    }
    if most.integers > MAX_INTEGERS {
        return Some(Kind::Integers);
    }
    if most.fork > MAX_FORK {
        return Some(Kind::Fork);
    }
    if most.arms > MAX_ARMS {
        return Some(Kind::Arms);
    }
    None
}
