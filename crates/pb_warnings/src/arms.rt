//! The parbegins with one arm.

ghost use Rattle.std.specs.Prelude.{◌≡◌, ◌++◌, OnOk, map};
ghost use Rattle.pb_tree.specs.View.{arms_view, stmt_view, stmts_view};
ghost use Rattle.pb_warnings.specs.Warnings.{lone_arm, lone_in, lone_in_arms, lone_in_stmt, warning};

use crate::warning::Warning;
use pb_base::NoMemory;
use pb_tree::Stmt;
use std::alloc::Allocator;

/// Appends the warning of a parbegin, if it has one arm.
fn add_lone<A: Allocator>(
    out: &mut Vec<Warning>,
    line: u32,
    arms: &Vec<Vec<Stmt<A>, A>, A>,
) -> Result<(), NoMemory>
    ensures { OnOk result (map warning out.new.items
        ≡ map warning out.old.items ++ lone_arm line (arms_view arms.now.items)) }
{
    if arms.len() == 1 {
        out.push(Warning::OneArm {
            line: line as usize,
        })?;
    }
    Ok(())
}

/// Appends the warnings of the parbegins in a statement.
#[cycle(walk)]
#[tactic(auto, using(pb_tree::proofs::Views::stmt_views))]
fn add_stmt<A: Allocator>(out: &mut Vec<Warning>, stmt: &Stmt<A>) -> Result<(), NoMemory>
    ensures { OnOk result (map warning out.new.items ≡ map warning out.old.items ++ lone_in_stmt (stmt_view stmt.now)) }
{
    match stmt {
        Stmt::Assign { .. } | Stmt::Print { .. } => Ok(()),
        Stmt::If {
            on_true,
            on_false,
            ..
        } => {
            add_list(out, on_true)?;
            add_list(out, on_false)
        }
        Stmt::While { body, .. } | Stmt::Hold { body, .. } => add_list(out, body),
        Stmt::Parbegin { line, arms } => {
            add_lone(out, *line, arms)?;
            add_arms(out, arms)
        }
    }
}

/// Appends the warnings of the parbegins in a list of statements.
#[cycle(walk)]
#[tactic(auto, using(pb_tree::proofs::Views::stmt_views))]
pub(crate) fn add_list<A: Allocator>(
    out: &mut Vec<Warning>,
    stmts: &Vec<Stmt<A>, A>,
) -> Result<(), NoMemory>
    ensures { OnOk result (map warning out.new.items
        ≡ map warning out.old.items ++ lone_in (stmts_view stmts.now.items)) }
{
    for stmt in stmts {
        add_stmt(out, stmt)?;
    }
    Ok(())
}

/// Appends the warnings of the parbegins in the arms of a parbegin.
#[cycle(walk)]
#[tactic(auto, using(pb_tree::proofs::Views::stmt_views))]
fn add_arms<A: Allocator>(
    out: &mut Vec<Warning>,
    arms: &Vec<Vec<Stmt<A>, A>, A>,
) -> Result<(), NoMemory>
    ensures { OnOk result (map warning out.new.items
        ≡ map warning out.old.items ++ lone_in_arms (arms_view arms.now.items)) }
{
    for arm in arms {
        add_list(out, arm)?;
    }
    Ok(())
}
