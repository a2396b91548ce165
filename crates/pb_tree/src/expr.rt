//! Names, numbers and expressions.

ghost use Rattle.std.specs.Prelude.{◌≡◌, ◌↔◌, IfOk, IsTrue};

use pb_base::{BinaryOp, NoMemory, UnaryOp};
use std::alloc::Allocator;

/// A name, and where it is in the text.
#[derive(Drop)]
pub struct Name<A: Allocator> {
    /// Its bytes.
    pub text: Vec<u8, A>,
    /// The byte offset of its first byte, from 0.
    pub at: usize,
}

/// A number, and where it is in the text.
#[derive(Clone, Copy, Debug, PartialEq, Eq)]
pub struct Number {
    /// Its value.
    pub value: i64,
    /// The byte offset of its first byte, from 0.
    pub at: usize,
}

/// An expression, whose parts are in memory of `A`. Brackets leave no trace.
#[derive(Drop)]
pub enum Expr<A: Allocator> {
    /// A number.
    Number(Number),
    /// A variable, by its name.
    Variable(Name<A>),
    /// An operator on one operand.
    Unary(UnaryOp, Box<Expr<A>, A>),
    /// An operator on a left and a right operand.
    Binary(BinaryOp, Box<Expr<A>, A>, Box<Expr<A>, A>),
}

impl<A: Allocator> Name<A> {
    ghost use Rattle.pb_tree.specs.View.{name_view};

    /// Returns the same name in memory of `alloc`. The error comes only if `alloc` is out of memory.
    pub fn copy_into<B: Allocator + Clone>(&self, alloc: &B) -> Result<Name<B>, NoMemory>
        ensures { IfOk result (λ name. name_view name ≡ name_view self.now) }
    {
        Ok(Name {
            text: Vec::from_slice(alloc.clone()?, &self.text)?,
            at: self.at,
        })
    }

    /// Returns whether the other name has the same bytes and the same offset.
    pub fn same<B: Allocator>(&self, other: &Name<B>) -> bool
        ensures { IsTrue result ↔ (name_view self.now ≡ name_view other.now) }
    {
        self.at == other.at && self.text.as_slice() == other.text.as_slice()
    }
}

impl<A: Allocator> Expr<A> {
    ghost use Rattle.pb_tree.specs.Measure.{saturated, expr_nodes, expr_height};
    ghost use Rattle.pb_tree.specs.View.{expr_view};

    /// Returns the same expression in memory of `alloc`. The error comes only if `alloc` is out of memory.
    #[cycle(copy)]
    pub fn copy_into<B: Allocator + Clone>(&self, alloc: &B) -> Result<Expr<B>, NoMemory>
        ensures { IfOk result (λ expr. expr_view expr ≡ expr_view self.now) }
    {
        match self {
            Expr::Number(number) => Ok(Expr::Number(*number)),
            Expr::Variable(name) => Ok(Expr::Variable(name.copy_into(alloc)?)),
            Expr::Unary(op, operand) => Ok(Expr::Unary(*op, Expr::copy_operand(operand, alloc)?)),
            Expr::Binary(op, left, right) => {
                let left = Expr::copy_operand(left, alloc)?;
                Ok(Expr::Binary(*op, left, Expr::copy_operand(right, alloc)?))
            }
        }
    }

    /// Returns the same operand in memory of `alloc`.
    #[cycle(copy)]
    fn copy_operand<B: Allocator + Clone>(
        operand: &Box<Expr<A>, A>,
        alloc: &B,
    ) -> Result<Box<Expr<B>, B>, NoMemory>
        ensures { IfOk result (λ copy. expr_view copy.value ≡ expr_view operand.now.value) }
    {
        let copy = operand.copy_into(alloc)?;
        Ok(Box::new(alloc.clone()?, copy)?)
    }

    /// Returns whether the other expression is the same, offsets included, in whatever memory it is.
    pub fn same<B: Allocator>(&self, other: &Expr<B>) -> bool
        ensures { IsTrue result ↔ (expr_view self.now ≡ expr_view other.now) }
    {
        match (self, other) {
            (Expr::Number(a), Expr::Number(b)) => a == b,
            (Expr::Variable(a), Expr::Variable(b)) => a.same(b),
            (Expr::Unary(op, a), Expr::Unary(other_op, b)) => op == other_op && a.same(b),
            (Expr::Binary(op, a1, a2), Expr::Binary(other_op, b1, b2)) => {
                op == other_op && (a1.same(b1) && a2.same(b2))
            }
            _ => false,
        }
    }

    /// Returns the number of its nodes, itself included, or the greatest `u64` if there are more.
    pub fn nodes(&self) -> u64
        ensures { result ≡ saturated (expr_nodes (expr_view self.now)) }
    {
        match self {
            Expr::Number(_) | Expr::Variable(_) => 1,
            Expr::Unary(_, operand) => operand.nodes().saturating_add(1),
            Expr::Binary(_, left, right) => {
                left.nodes().saturating_add(right.nodes()).saturating_add(1)
            }
        }
    }

    /// Returns its height: 1 of a number or a name, of an operator one more than of its highest operand. It
    /// stays at the greatest `u64`.
    pub fn height(&self) -> u64
        ensures { result ≡ saturated (expr_height (expr_view self.now)) }
    {
        match self {
            Expr::Number(_) | Expr::Variable(_) => 1,
            Expr::Unary(_, operand) => operand.height().saturating_add(1),
            Expr::Binary(_, left, right) => { left.height().max(right.height()).saturating_add(1) }
        }
    }
}
