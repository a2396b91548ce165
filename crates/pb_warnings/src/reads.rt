//! Which statements read an integer.

ghost use Rattle.std.specs.Prelude.{◌≡◌};
ghost use Rattle.pb_tree.specs.View.{arms_view, expr_view, stmt_view, stmts_view};
ghost use Rattle.pb_warnings.specs.Warnings as spec;

use pb_tree::{Expr, Stmt};
use std::alloc::Allocator;

/// Returns whether the integer of this name stands in an expression.
fn expr_reads<A: Allocator>(expr: &Expr<A>, name: &[u8]) -> bool
    ensures { result ≡ spec.expr_reads name.now (expr_view expr.now) }
{
    match expr {
        Expr::Number(_) => false,
        Expr::Variable(x) => x.text.as_slice() == name,
        Expr::Unary(_, operand) => expr_reads(operand, name),
        Expr::Binary(_, left, right) => expr_reads(left, name) || expr_reads(right, name),
    }
}

/// Returns whether a statement reads the integer of this name.
#[cycle(reads)]
#[tactic(auto, using(pb_tree::proofs::Views::stmt_views))]
fn stmt_reads<A: Allocator>(stmt: &Stmt<A>, name: &[u8]) -> bool
    ensures { result ≡ spec.stmt_reads name.now (stmt_view stmt.now) }
{
    match stmt {
        Stmt::Assign { value, .. } | Stmt::Print { value, .. } => expr_reads(value, name),
        Stmt::If {
            test,
            on_true,
            on_false,
            ..
        } => { expr_reads(test, name) || (list_reads(on_true, name) || list_reads(on_false, name)) }
        Stmt::While { test, body, .. } => expr_reads(test, name) || list_reads(body, name),
        Stmt::Hold { body, .. } => list_reads(body, name),
        Stmt::Parbegin { arms, .. } => arms_read(arms, name),
    }
}

/// Returns whether a list of statements reads the integer of this name.
#[cycle(reads)]
#[tactic(auto, using(pb_tree::proofs::Views::stmt_views))]
pub(crate) fn list_reads<A: Allocator>(stmts: &Vec<Stmt<A>, A>, name: &[u8]) -> bool
    ensures { result ≡ spec.stmts_read name.now (stmts_view stmts.now.items) }
{
    let mut reads = false;
    for stmt in stmts {
        reads |= stmt_reads(stmt, name);
    }
    reads
}

/// Returns whether one of the arms of a parbegin reads the integer of this name.
#[cycle(reads)]
#[tactic(auto, using(pb_tree::proofs::Views::stmt_views))]
fn arms_read<A: Allocator>(arms: &Vec<Vec<Stmt<A>, A>, A>, name: &[u8]) -> bool
    ensures { result ≡ spec.arms_read name.now (arms_view arms.now.items) }
{
    let mut read = false;
    for arm in arms {
        read |= list_reads(arm, name);
    }
    read
}
