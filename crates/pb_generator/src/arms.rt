//! The arms of a process, by number.

ghost use Rattle.std.specs.Prelude.{◌≡◌, ◌++◌, map, IfOk, OnOk};
ghost use Rattle.pb_names.specs.Program.{arms_in, arms_in_arms, arms_in_stmt, arms_list, arms_of};
ghost use Rattle.pb_names.specs.View.{arms_view, block_view, process_view, stmt_view};

use pb_base::NoMemory;
use pb_names::{Process, Stmt};
use std::alloc::{Allocator, Global};

/// Returns the arms of a process: its body, and then the arms inside.
pub(crate) fn arms_of<'a, A: Allocator>(
    alloc: Global,
    process: &'a Process<A>,
) -> Result<Vec<&'a Vec<Stmt<A>, A>>, NoMemory>
    ensures { IfOk result (λ arms. map (λ arm. block_view arm.now.items) arms.items ≡ arms_of (process_view process.now)) }
{
    let mut arms = Vec::new(alloc);
    arms.push(&process.body)?;
    add_arms_in(&mut arms, &process.body)?;
    Ok(arms)
}

/// Adds the arms inside a list.
#[cycle(arms)]
fn add_arms_in<'a, A: Allocator>(
    arms: &mut Vec<&'a Vec<Stmt<A>, A>>,
    stmts: &'a Vec<Stmt<A>, A>,
) -> Result<(), NoMemory>
    ensures { OnOk result (map (λ arm. block_view arm.now.items) arms.new.items
        ≡ map (λ arm. block_view arm.now.items) arms.old.items ++ arms_in (block_view stmts.now.items)) }
{
    for stmt in stmts {
        add_arms_in_stmt(arms, stmt)?;
    }
    Ok(())
}

/// Adds the arms inside a statement.
#[cycle(arms)]
fn add_arms_in_stmt<'a, A: Allocator>(
    arms: &mut Vec<&'a Vec<Stmt<A>, A>>,
    stmt: &'a Stmt<A>,
) -> Result<(), NoMemory>
    ensures { OnOk result (map (λ arm. block_view arm.now.items) arms.new.items
        ≡ map (λ arm. block_view arm.now.items) arms.old.items ++ arms_in_stmt (stmt_view stmt.now)) }
{
    match stmt {
        Stmt::Assign { .. } | Stmt::Print { .. } => {}
        Stmt::If {
            on_true,
            on_false,
            ..
        } => {
            add_arms_in(arms, on_true)?;
            add_arms_in(arms, on_false)?;
        }
        Stmt::While { body, .. } => add_arms_in(arms, body)?,
        Stmt::Hold { body, .. } => add_arms_in(arms, body)?,
        Stmt::Parbegin { arms: own, .. } => {
            add_arms(arms, own)?;
            add_arms_in_each(arms, own)?;
        }
    }
    Ok(())
}

/// Adds the arms of a parbegin, without those inside.
fn add_arms<'a, A: Allocator>(
    arms: &mut Vec<&'a Vec<Stmt<A>, A>>,
    own: &'a Vec<Vec<Stmt<A>, A>, A>,
) -> Result<(), NoMemory>
    ensures { OnOk result (map (λ arm. block_view arm.now.items) arms.new.items
        ≡ map (λ arm. block_view arm.now.items) arms.old.items ++ arms_list (arms_view own.now.items)) }
{
    for arm in own {
        arms.push(arm)?;
    }
    Ok(())
}

/// Adds the arms inside the arms of a parbegin, arm by arm.
#[cycle(arms)]
fn add_arms_in_each<'a, A: Allocator>(
    arms: &mut Vec<&'a Vec<Stmt<A>, A>>,
    own: &'a Vec<Vec<Stmt<A>, A>, A>,
) -> Result<(), NoMemory>
    ensures { OnOk result (map (λ arm. block_view arm.now.items) arms.new.items
        ≡ map (λ arm. block_view arm.now.items) arms.old.items ++ arms_in_arms (arms_view own.now.items)) }
{
    for arm in own {
        add_arms_in(arms, arm)?;
    }
    Ok(())
}
