//! One step of an expression.

ghost use Rattle.std.specs.Prelude.{◌≡◌};
ghost use Rattle.pb_base.specs.Arithmetic.{is_zero};
ghost use Rattle.pb_names.specs.View.{expr_view};
ghost use Rattle.pb_rewrite.specs.Steps.{IsExprStep, IsReplaced};

use pb_base::{FaultKind, apply, apply_unary};
use pb_names::Expr;
use std::alloc::Allocator;

/// What a step makes of an expression.
#[derive(Clone, Copy)]
pub(crate) enum Progress {
    /// Nothing: it is this number.
    Is(i64),
    /// Its next place became a number.
    Becomes,
    /// The operator at its next place has no result.
    Fails(FaultKind),
}

/// Rewrites the next place of an expression: in the left operand if that is not a number, else in the right
/// one, else the operator itself.
#[tactic(auto, using(pb_names::proofs::Views::expr_views, pb_names::proofs::ExpressionSteps::expr_steps))]
pub(crate) fn rewrite<A: Allocator>(expr: &mut Expr<A>, vars: &[i64]) -> Progress
    ensures { IsExprStep vars.now (expr_view expr.old) result (expr_view expr.new) }
{
    match expr {
        Expr::Number(value) => Progress::Is(*value),
        Expr::Variable(x) => {
            let value = vars.get(usize::from(*x)).copied().unwrap_or(0);
            *expr = Expr::Number(value);
            Progress::Becomes
        }
        Expr::Unary(op, operand) => {
            let op = *op;
            match rewrite(operand, vars) {
                Progress::Is(value) => replace(expr, apply_unary(op, value)),
                Progress::Becomes => Progress::Becomes,
                Progress::Fails(kind) => Progress::Fails(kind),
            }
        }
        Expr::Binary(op, left, right) => {
            let op = *op;
            match rewrite(left, vars) {
                Progress::Is(left) => match rewrite(right, vars) {
                    Progress::Is(right) => replace(expr, apply(op, left, right)),
                    Progress::Becomes => Progress::Becomes,
                    Progress::Fails(kind) => Progress::Fails(kind),
                },
                Progress::Becomes => Progress::Becomes,
                Progress::Fails(kind) => Progress::Fails(kind),
            }
        }
    }
}

/// Puts a result in place of an operator.
#[tactic(auto, using(pb_names::proofs::Views::expr_views))]
fn replace<A: Allocator>(expr: &mut Expr<A>, result_of: Result<i64, FaultKind>) -> Progress
    ensures { IsReplaced result_of result (expr_view expr.new) }
{
    match result_of {
        Ok(value) => {
            *expr = Expr::Number(value);
            Progress::Becomes
        }
        Err(kind) => Progress::Fails(kind),
    }
}

/// Returns whether a value is false: 0 is, and nothing else.
pub(crate) fn is_false(value: i64) -> bool
    ensures { result ≡ is_zero value }
{
    value == 0
}
