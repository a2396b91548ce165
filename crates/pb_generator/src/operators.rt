//! The instruction of each operator.

ghost use Rattle.std.specs.Prelude.{◌≡◌, List};
ghost use Rattle.pb_base.specs.Steppers.{Bundle};
ghost use Rattle.pb_code.specs.Code.{Compute1, Compute2};
ghost use Rattle.pb_code.specs.Bundles.{IsPlain};
ghost use Rattle.pb_code.specs.View.{instr_view};

use pb_base::{BinaryOp, UnaryOp};
use pb_code::Instr;

pub(crate) fn unary_instr(op: UnaryOp) -> Instr
    ensures plain { IsPlain result }
    ensures code { (bundles : List Bundle) → instr_view bundles result ≡ Compute1 op }
{
    match op {
        UnaryOp::Negate => Instr::Neg,
        UnaryOp::Not => Instr::Not,
    }
}

pub(crate) fn binary_instr(op: BinaryOp) -> Instr
    ensures plain { IsPlain result }
    ensures code { (bundles : List Bundle) → instr_view bundles result ≡ Compute2 op }
{
    match op {
        BinaryOp::Add => Instr::Add,
        BinaryOp::Subtract => Instr::Sub,
        BinaryOp::Multiply => Instr::Mul,
        BinaryOp::Quotient => Instr::Div,
        BinaryOp::Remainder => Instr::Mod,
        BinaryOp::Equal => Instr::Eq,
        BinaryOp::Unequal => Instr::Ne,
        BinaryOp::Less => Instr::Lt,
        BinaryOp::AtMost => Instr::Le,
        BinaryOp::Greater => Instr::Gt,
        BinaryOp::AtLeast => Instr::Ge,
        BinaryOp::And => Instr::And,
        BinaryOp::Or => Instr::Or,
    }
}
