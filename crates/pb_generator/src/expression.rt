//! The instructions of expressions.

ghost use Rattle.std.specs.Prelude.{OnOk, Some, length, replicate};
ghost use Rattle.pb_generator.specs.Emitted.{Adds, IsSound};
ghost use Rattle.pb_generator.specs.Generate.{expr_code};
ghost use Rattle.pb_names.specs.View.{expr_view};

use crate::operators::{binary_instr, unary_instr};
use crate::writer::Writer;
use pb_base::NoMemory;
use pb_code::Instr;
use pb_names::Expr;
use std::alloc::Allocator;

impl Writer {
    /// Appends the instructions of an expression, which leave its value on the stack.
    pub(crate) fn put_expr<A: Allocator>(
        &mut self,
        line: u32,
        expr: &Expr<A>,
    ) -> Result<(), NoMemory>
        requires { IsSound self.old }
        ensures { OnOk result (Adds self.old self.new (expr_code (expr_view expr.now))
            (replicate (length (expr_code (expr_view expr.now))) (Some line))) }
    {
        match expr {
            Expr::Number(value) => self.put(Some(line), Instr::Push(*value))?,
            Expr::Variable(x) => self.put(Some(line), Instr::Load(*x))?,
            Expr::Unary(op, operand) => {
                self.put_expr(line, operand)?;
                self.put(Some(line), unary_instr(*op))?;
            }
            Expr::Binary(op, left, right) => {
                self.put_expr(line, left)?;
                self.put_expr(line, right)?;
                self.put(Some(line), binary_instr(*op))?;
            }
        }
        Ok(())
    }
}
