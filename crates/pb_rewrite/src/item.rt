//! What is in the list of an arm.

ghost use Rattle.std.specs.Prelude.{◌≡◌};
ghost use Rattle.pb_names.specs.HeadLines.{item_line};
ghost use Rattle.pb_rewrite.specs.View.{item_view};

use pb_base::Bundle;
use pb_names::{Expr, Stmt};
use std::alloc::Allocator;

/// What an arm has yet to do.
#[derive(Drop)]
pub enum Item<A: Allocator> {
    /// A statement, with what is left of its expression. A loop is here before its test has begun.
    Left(Stmt<A>),
    /// A loop whose test has begun: its whole test, what is left of it, and its body.
    While {
        line: u32,
        test: Expr<A>,
        left: Expr<A>,
        body: Vec<Stmt<A>, A>,
    },
    /// A hold, whose amounts are to be given back.
    GiveBack {
        line: u32,
        bundle: Bundle,
    },
}

/// Returns the line of an item: a hold that is to be given back has that of its hold.
pub(crate) fn line_of<A: Allocator>(item: &Item<A>) -> u32
    ensures { result ≡ item_line (item_view item.now) }
{
    match item {
        Item::Left(stmt) => stmt.line(),
        Item::While { line, .. } => *line,
        Item::GiveBack { line, .. } => *line,
    }
}
