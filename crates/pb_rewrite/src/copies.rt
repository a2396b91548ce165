//! Copies of numbered statements. The error comes only if `alloc` is out of memory.

ghost use Rattle.std.specs.Prelude.{◌≡◌, IfOk};
ghost use Rattle.pb_names.specs.View.{expr_view, stmt_view, block_view, arms_view};

use pb_base::NoMemory;
use pb_names::{Expr, Stmt};
use std::alloc::Allocator;

/// Returns the same expression once more.
#[cycle(operands)]
#[tactic(auto, using(pb_names::proofs::Views::expr_views))]
pub(crate) fn copy_expr<A: Allocator + Clone>(
    expr: &Expr<A>,
    alloc: &A,
) -> Result<Expr<A>, NoMemory>
    ensures { IfOk result (λ copy. expr_view copy ≡ expr_view expr.now) }
{
    match expr {
        Expr::Number(value) => Ok(Expr::Number(*value)),
        Expr::Variable(x) => Ok(Expr::Variable(*x)),
        Expr::Unary(op, operand) => Ok(Expr::Unary(*op, copy_operand(operand, alloc)?)),
        Expr::Binary(op, left, right) => {
            let left = copy_operand(left, alloc)?;
            Ok(Expr::Binary(*op, left, copy_operand(right, alloc)?))
        }
    }
}

/// Returns the same operand once more.
#[cycle(operands)]
fn copy_operand<A: Allocator + Clone>(
    operand: &Box<Expr<A>, A>,
    alloc: &A,
) -> Result<Box<Expr<A>, A>, NoMemory>
    ensures { IfOk result (λ copy. expr_view copy.value ≡ expr_view operand.now.value) }
{
    let copy = copy_expr(operand, alloc)?;
    Ok(Box::new(alloc.clone()?, copy)?)
}

/// Returns the same statement once more.
#[cycle(copy)]
#[tactic(auto, using(pb_names::proofs::Views::stmt_views))]
fn copy_stmt<A: Allocator + Clone>(stmt: &Stmt<A>, alloc: &A) -> Result<Stmt<A>, NoMemory>
    ensures { IfOk result (λ copy. stmt_view copy ≡ stmt_view stmt.now) }
{
    match stmt {
        Stmt::Assign {
            line,
            target,
            value,
        } => {
            let value = copy_expr(value, alloc)?;
            Ok(Stmt::Assign {
                line: *line,
                target: *target,
                value,
            })
        }
        Stmt::Print { line, value } => {
            let value = copy_expr(value, alloc)?;
            Ok(Stmt::Print { line: *line, value })
        }
        Stmt::If {
            line,
            test,
            on_true,
            on_false,
        } => {
            let test = copy_expr(test, alloc)?;
            let on_true = copy_list(on_true, alloc)?;
            let on_false = copy_list(on_false, alloc)?;
            Ok(Stmt::If {
                line: *line,
                test,
                on_true,
                on_false,
            })
        }
        Stmt::While { line, test, body } => {
            let test = copy_expr(test, alloc)?;
            let body = copy_list(body, alloc)?;
            Ok(Stmt::While {
                line: *line,
                test,
                body,
            })
        }
        Stmt::Hold { line, bundle, body } => {
            let body = copy_list(body, alloc)?;
            Ok(Stmt::Hold {
                line: *line,
                bundle: *bundle,
                body,
            })
        }
        Stmt::Parbegin { line, first, arms } => {
            let arms = copy_arms(arms, alloc)?;
            Ok(Stmt::Parbegin {
                line: *line,
                first: *first,
                arms,
            })
        }
    }
}

/// Returns the same list once more.
#[cycle(copy)]
#[tactic(auto, using(pb_names::proofs::Views::stmt_views))]
pub(crate) fn copy_list<A: Allocator + Clone>(
    stmts: &Vec<Stmt<A>, A>,
    alloc: &A,
) -> Result<Vec<Stmt<A>, A>, NoMemory>
    ensures { IfOk result (λ copy. block_view copy.items ≡ block_view stmts.now.items) }
{
    let mut copy = Vec::new(alloc.clone()?);
    for stmt in stmts {
        copy.push(copy_stmt(stmt, alloc)?)?;
    }
    Ok(copy)
}

/// Returns the same arms once more.
#[cycle(copy)]
#[tactic(auto, using(pb_names::proofs::Views::stmt_views))]
fn copy_arms<A: Allocator + Clone>(
    arms: &Vec<Vec<Stmt<A>, A>, A>,
    alloc: &A,
) -> Result<Vec<Vec<Stmt<A>, A>, A>, NoMemory>
    ensures { IfOk result (λ copy. arms_view copy.items ≡ arms_view arms.now.items) }
{
    let mut copy = Vec::new(alloc.clone()?);
    for arm in arms {
        copy.push(copy_list(arm, alloc)?)?;
    }
    Ok(copy)
}
