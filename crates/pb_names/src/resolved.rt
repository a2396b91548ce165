//! A numbered program in the memory of any allocator: numbers replace names.

ghost use Rattle.std.specs.Prelude.{◌≡◌, ◌≤◌, All, IfOk, length};
ghost use Rattle.pb_base.specs.declared.limits.TheConstants.{MAX_AMOUNT as MOST, MAX_RESOURCES as MOST_RESOURCES};
ghost use Rattle.pb_names.specs.HeadLines.{stmt_line};
ghost use Rattle.pb_names.specs.Program.{capital_of};
ghost use Rattle.pb_names.specs.View.{resolved_view, stmt_view};

use pb_base::{BinaryOp, Bundle, Capital, NoMemory, UnaryOp};
use std::alloc::{Allocator, Global};

/// An expression. A variable is the number of an integer of its process.
#[derive(Drop)]
pub enum Expr<A: Allocator> {
    Number(i64),
    Variable(u8),
    Unary(UnaryOp, Box<Expr<A>, A>),
    Binary(BinaryOp, Box<Expr<A>, A>, Box<Expr<A>, A>),
}

/// A statement, with the line of its first token, from 1. A target is the number of an integer of its
/// process; the arms of a parbegin have consecutive numbers from `first` on.
// To add one: first Stmt of pb_tree, and specs/{Program,Source,Claims} here; docs/CHANGING.md.
#[derive(Drop)]
pub enum Stmt<A: Allocator> {
    Assign {
        line: u32,
        target: u8,
        value: Expr<A>,
    },
    Print {
        line: u32,
        value: Expr<A>,
    },
    If {
        line: u32,
        test: Expr<A>,
        on_true: Vec<Stmt<A>, A>,
        on_false: Vec<Stmt<A>, A>,
    },
    While {
        line: u32,
        test: Expr<A>,
        body: Vec<Stmt<A>, A>,
    },
    Hold {
        line: u32,
        bundle: Bundle,
        body: Vec<Stmt<A>, A>,
    },
    Parbegin {
        line: u32,
        first: u8,
        arms: Vec<Vec<Stmt<A>, A>, A>,
    },
}

impl<A: Allocator> Stmt<A> {
    /// Returns the line of its first token.
    #[tactic(auto, using(crate::proofs::Views::stmt_views))]
    pub fn line(&self) -> u32
        ensures { result ≡ stmt_line (stmt_view self.now) }
    {
        match self {
            Stmt::Assign { line, .. }
            | Stmt::Print { line, .. }
            | Stmt::If { line, .. }
            | Stmt::While { line, .. }
            | Stmt::Hold { line, .. }
            | Stmt::Parbegin { line, .. } => *line,
        }
    }
}

/// A process: its name, the names of its integers by number, and its body.
#[derive(Drop)]
pub struct Process<A: Allocator> {
    pub name: Vec<u8, A>,
    pub integers: Vec<Vec<u8, A>, A>,
    pub body: Vec<Stmt<A>, A>,
}

/// A resource, and how much of it there is, at most 1,000,000.
#[derive(Drop)]
pub struct Resource<A: Allocator> {
    pub name: Vec<u8, A>,
    pub capital: u32,
}

/// A program: its resources and its processes, by number.
#[derive(Drop)]
pub struct Resolved<A: Allocator> {
    pub resources: Vec<Resource<A>, A>,
    pub processes: Vec<Process<A>, A>,
}

impl<A: Allocator> Resolved<A> {
    /// Returns the capital of each resource, by its number. The error comes only if `alloc` is out of memory.
    pub fn capital(&self, alloc: Global) -> Result<Capital, NoMemory>
        requires few { length (resolved_view self.now).resources ≤ MOST_RESOURCES }
        requires small { All (λ amount. amount ≤ MOST) (capital_of (resolved_view self.now)) }
        ensures { IfOk result (λ capital. capital ≡ capital_of (resolved_view self.now)) }
    {
        let mut amounts = Vec::new(alloc);
        for resource in &self.resources {
            amounts.push(resource.capital)?;
        }
        Capital::new(alloc, &amounts)
    }
}
