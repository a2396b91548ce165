//! Whether a tree has the parts that the grammar asks for.

ghost use Rattle.std.specs.Prelude.{◌↔◌, IsTrue};
ghost use Rattle.pb_tree.specs.View.{stmt_view, stmts_view, arms_view, program_view};
ghost use Rattle.pb_names.specs.Ready.{IsCompleteStmt, AreComplete, AreCompleteArms, IsComplete};

use pb_tree::{Program, Stmt};
use std::alloc::Allocator;

/// Returns whether each hold of a statement has a pair, and each parbegin an arm.
#[cycle(complete)]
#[tactic(auto, using(pb_tree::proofs::Views::stmt_views))]
fn is_complete_stmt<A: Allocator>(stmt: &Stmt<A>) -> bool
    ensures { IsTrue result ↔ IsCompleteStmt (stmt_view stmt.now) }
{
    match stmt {
        Stmt::Assign { .. } | Stmt::Print { .. } => true,
        Stmt::If {
            on_true,
            on_false,
            ..
        } => are_complete(on_true) && are_complete(on_false),
        Stmt::While { body, .. } => are_complete(body),
        Stmt::Hold { demands, body, .. } => !demands.is_empty() && are_complete(body),
        Stmt::Parbegin { arms, .. } => !arms.is_empty() && are_complete_arms(arms),
    }
}

/// Returns whether each hold of a list has a pair, and each parbegin an arm.
#[cycle(complete)]
#[tactic(auto, using(pb_tree::proofs::Views::stmt_views))]
fn are_complete<A: Allocator>(stmts: &Vec<Stmt<A>, A>) -> bool
    ensures { IsTrue result ↔ AreComplete (stmts_view stmts.now.items) }
{
    for stmt in stmts {
        if !is_complete_stmt(stmt) {
            return false;
        }
    }
    true
}

/// Returns whether each hold of the arms of a parbegin has a pair, and each parbegin in them an arm.
#[cycle(complete)]
#[tactic(auto, using(pb_tree::proofs::Views::stmt_views))]
fn are_complete_arms<A: Allocator>(arms: &Vec<Vec<Stmt<A>, A>, A>) -> bool
    ensures { IsTrue result ↔ AreCompleteArms (arms_view arms.now.items) }
{
    for arm in arms {
        if !are_complete(arm) {
            return false;
        }
    }
    true
}

/// Returns whether a program has a process, a pair in each of its holds and an arm in each of its parbegins,
/// as every tree that was read from a text.
pub fn is_complete<A: Allocator>(program: &Program<A>) -> bool
    ensures { IsTrue result ↔ IsComplete (program_view program.now) }
{
    if program.processes.is_empty() {
        return false;
    }
    for process in &program.processes {
        if !are_complete(&process.body) {
            return false;
        }
    }
    true
}
