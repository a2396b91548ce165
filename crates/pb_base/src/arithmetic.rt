//! The results of the operators.

ghost use Rattle.std.specs.Prelude.{◌≡◌};
ghost use Rattle.pb_base.specs.Arithmetic.{apply as value_of, apply_unary as value_of_unary};

use crate::operators::{BinaryOp, FaultKind, UnaryOp};

/// Returns the result of an operator on two numbers of 64 bits: of a comparison, of `and` and of `or` 1 or 0.
/// A divisor of zero is the fault `Divide`, and a result beyond 64 bits the fault `Overflow`.
#[inline]
#[tactic(auto, unfolding(crate::specs::Arithmetic::apply))]
pub fn apply(op: BinaryOp, left: i64, right: i64) -> Result<i64, FaultKind>
    ensures { result ≡ value_of op left right }
{
    match op {
        BinaryOp::Add => left.checked_add(right).ok_or(FaultKind::Overflow),
        BinaryOp::Subtract => left.checked_sub(right).ok_or(FaultKind::Overflow),
        BinaryOp::Multiply => left.checked_mul(right).ok_or(FaultKind::Overflow),
        BinaryOp::Quotient => quotient(left, right),
        BinaryOp::Remainder => remainder(left, right),
        BinaryOp::Equal => Ok(i64::from(left == right)),
        BinaryOp::Unequal => Ok(i64::from(left != right)),
        BinaryOp::Less => Ok(i64::from(left < right)),
        BinaryOp::AtMost => Ok(i64::from(left <= right)),
        BinaryOp::Greater => Ok(i64::from(left > right)),
        BinaryOp::AtLeast => Ok(i64::from(left >= right)),
        BinaryOp::And => Ok(i64::from(left != 0 && right != 0)),
        BinaryOp::Or => Ok(i64::from(left != 0 || right != 0)),
    }
}

/// Returns the result of an operator on one number of 64 bits: of `not` 1 or 0. The least number has no
/// negation, which is the fault `Overflow`.
#[inline]
#[tactic(auto, unfolding(crate::specs::Arithmetic::apply_unary))]
pub fn apply_unary(op: UnaryOp, operand: i64) -> Result<i64, FaultKind>
    ensures { result ≡ value_of_unary op operand }
{
    match op {
        UnaryOp::Negate => operand.checked_neg().ok_or(FaultKind::Overflow),
        UnaryOp::Not => Ok(i64::from(operand == 0)),
    }
}

/// Returns the quotient, cut toward zero.
#[inline]
#[tactic(auto, unfolding(crate::specs::Arithmetic::apply))]
fn quotient(left: i64, right: i64) -> Result<i64, FaultKind>
    ensures { result ≡ value_of BinaryOp.Quotient left right }
{
    if right == 0 {
        return Err(FaultKind::Divide);
    }
    left.checked_div(right).ok_or(FaultKind::Overflow)
}

/// Returns the remainder, with the sign of the dividend.
#[inline]
#[tactic(auto, unfolding(crate::specs::Arithmetic::apply))]
fn remainder(left: i64, right: i64) -> Result<i64, FaultKind>
    ensures { result ≡ value_of BinaryOp.Remainder left right }
{
    if right == 0 {
        return Err(FaultKind::Divide);
    }
    if right == -1 {
        // nothing is left, also of the least number, whose quotient would not fit
        return Ok(0);
    }
    Ok(left % right)
}
