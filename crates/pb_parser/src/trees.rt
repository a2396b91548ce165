//! A builder that makes the tree, in memory of an allocator.

ghost use Rattle.std.specs.Prelude.{◌≡◌, ◌++◌, ◌∷◌, [], map, IfOk, OnOk};
ghost use Rattle.pb_tree.specs.View.{name_view, expr_view, demand_view, stmts_view, arms_view};
ghost use Rattle.pb_tree.specs.View.{resource_view, process_view, program_view};
ghost use Rattle.pb_parser.specs.Parts.{part_view};

use pb_base::{BinaryOp, NoMemory, UnaryOp};
use pb_grammar::Builder;
use pb_tree::{Demand, Expr, Name, Number, Process, Program, Resource, Stmt};
use std::alloc::Allocator;

/// An expression on its way into the tree. It is small, since the parser of a deep program keeps many on the
/// stack.
#[derive(Drop)]
pub(crate) enum Part<A: Allocator> {
    /// A number.
    Number(Number),
    /// An expression that is in memory already.
    Made(Box<Expr<A>, A>),
}

impl<A: Allocator> Part<A> {
    /// Returns the expression itself.
    #[tactic(auto, using(pb_tree::proofs::Views::expr_views))]
    fn whole(self) -> Expr<A>
        ensures { expr_view result ≡ part_view self }
    {
        match self {
            Part::Number(number) => Expr::Number(number),
            Part::Made(expr) => Box::into_inner(expr),
        }
    }
}

/// Makes trees in memory of `alloc`.
#[derive(Drop)]
pub(crate) struct Trees<A: Allocator + Clone> {
    pub(crate) alloc: A,
}

impl<A: Allocator + Clone> Trees<A> {
    fn name(&self, text: &[u8], at: usize) -> Result<Name<A>, NoMemory>
        ensures { IfOk result (λ x. name_view x ≡ record { text = text.now; at = at }) }
    {
        Ok(Name {
            text: Vec::from_slice(self.alloc.clone()?, text)?,
            at,
        })
    }

    /// Returns an empty list.
    fn list<T>(&self) -> Result<Vec<T, A>, NoMemory>
        ensures { IfOk result (λ list. list.items ≡ []) }
    {
        Ok(Vec::new(self.alloc.clone()?))
    }

    /// Returns an expression in memory.
    #[tactic(auto, using(pb_tree::proofs::Views::expr_views))]
    fn boxed(&self, part: Part<A>) -> Result<Box<Expr<A>, A>, NoMemory>
        ensures { IfOk result (λ expr. expr_view expr.value ≡ part_view part) }
    {
        match part {
            Part::Number(number) => Ok(Box::new(self.alloc.clone()?, Expr::Number(number))?),
            Part::Made(expr) => Ok(expr),
        }
    }
}

/// Adds an item to a list.
fn put<T: Drop, A: Allocator>(list: &mut Vec<T, A>, item: T) -> Result<(), NoMemory>
    ensures { OnOk result (list.new.items ≡ list.old.items ++ item ∷ []) }
{
    list.push(item)?;
    Ok(())
}

// The calls that build what nests are not inlined: their locals would be in each frame of the parser's
// recursion, and a deep program would need more stack.
#[tactic(auto, using(pb_tree::proofs::Views::stmt_views))]
impl<A: Allocator + Clone> Builder for Trees<A> {
    type Expr = Part<A>;

    type Stmts = Vec<Stmt<A>, A>;

    type Arms = Vec<Vec<Stmt<A>, A>, A>;

    type Names = Vec<Name<A>, A>;

    type Demands = Vec<Demand<A>, A>;

    type Resources = Vec<Resource<A>, A>;

    type Processes = Vec<Process<A>, A>;

    type Program = Program<A>;

    ghost wants = { Unit {0} };

    ghost is_expr = { λ x e. part_view x ≡ e };

    ghost is_stmts = { λ x a. stmts_view x.items ≡ a };

    ghost is_arms = { λ x a. arms_view x.items ≡ a };

    ghost is_names = { λ x xs. map name_view x.items ≡ xs };

    ghost is_demands = { λ x ds. map demand_view x.items ≡ ds };

    ghost is_resources = { λ x rs. map resource_view x.items ≡ rs };

    ghost is_processes = { λ x ps. map process_view x.items ≡ ps };

    ghost is_program = { λ x p. program_view x ≡ p };

    fn number(&self, number: Number) -> Part<A> {
        Part::Number(number)
    }

    #[tactic(auto, using(pb_tree::proofs::Views::expr_views))]
    #[inline(never)]
    fn variable(&self, text: &[u8], at: usize) -> Result<Part<A>, NoMemory> {
        let name = self.name(text, at)?;
        Ok(Part::Made(Box::new(self.alloc.clone()?, Expr::Variable(name))?))
    }

    #[tactic(auto, using(pb_tree::proofs::Views::expr_views))]
    #[inline(never)]
    fn unary(&self, op: UnaryOp, operand: Part<A>) -> Result<Part<A>, NoMemory> {
        let operand = self.boxed(operand)?;
        Ok(Part::Made(Box::new(self.alloc.clone()?, Expr::Unary(op, operand))?))
    }

    #[tactic(auto, using(pb_tree::proofs::Views::expr_views))]
    #[inline(never)]
    fn binary(&self, op: BinaryOp, left: Part<A>, right: Part<A>) -> Result<Part<A>, NoMemory> {
        let left = self.boxed(left)?;
        let right = self.boxed(right)?;
        Ok(Part::Made(Box::new(self.alloc.clone()?, Expr::Binary(op, left, right))?))
    }

    fn no_stmts(&self) -> Result<Vec<Stmt<A>, A>, NoMemory> {
        self.list()
    }

    #[inline(never)]
    fn assign(
        &self,
        out: &mut Vec<Stmt<A>, A>,
        line: u32,
        text: &[u8],
        at: usize,
        value: Part<A>,
    ) -> Result<(), NoMemory> {
        let value = value.whole();
        let target = self.name(text, at)?;
        put(
            out,
            Stmt::Assign {
                line,
                target,
                value,
            },
        )
    }

    #[inline(never)]
    fn print(&self, out: &mut Vec<Stmt<A>, A>, line: u32, value: Part<A>) -> Result<(), NoMemory> {
        let value = value.whole();
        put(out, Stmt::Print { line, value })
    }

    #[inline(never)]
    fn if_else(
        &self,
        out: &mut Vec<Stmt<A>, A>,
        line: u32,
        test: Part<A>,
        on_true: Vec<Stmt<A>, A>,
        on_false: Vec<Stmt<A>, A>,
    ) -> Result<(), NoMemory> {
        let test = test.whole();
        put(
            out,
            Stmt::If {
                line,
                test,
                on_true,
                on_false,
            },
        )
    }

    #[inline(never)]
    fn while_do(
        &self,
        out: &mut Vec<Stmt<A>, A>,
        line: u32,
        test: Part<A>,
        body: Vec<Stmt<A>, A>,
    ) -> Result<(), NoMemory> {
        let test = test.whole();
        put(out, Stmt::While { line, test, body })
    }

    #[inline(never)]
    fn hold(
        &self,
        out: &mut Vec<Stmt<A>, A>,
        line: u32,
        demands: Vec<Demand<A>, A>,
        body: Vec<Stmt<A>, A>,
    ) -> Result<(), NoMemory> {
        put(
            out,
            Stmt::Hold {
                line,
                demands,
                body,
            },
        )
    }

    #[inline(never)]
    fn parbegin(
        &self,
        out: &mut Vec<Stmt<A>, A>,
        line: u32,
        arms: Vec<Vec<Stmt<A>, A>, A>,
    ) -> Result<(), NoMemory> {
        put(out, Stmt::Parbegin { line, arms })
    }

    fn no_arms(&self) -> Result<Vec<Vec<Stmt<A>, A>, A>, NoMemory> {
        self.list()
    }

    #[inline(never)]
    fn add_arm(
        &self,
        out: &mut Vec<Vec<Stmt<A>, A>, A>,
        body: Vec<Stmt<A>, A>,
    ) -> Result<(), NoMemory> {
        put(out, body)
    }

    fn no_demands(&self) -> Result<Vec<Demand<A>, A>, NoMemory> {
        self.list()
    }

    fn add_demand(
        &self,
        out: &mut Vec<Demand<A>, A>,
        amount: Number,
        text: &[u8],
        at: usize,
    ) -> Result<(), NoMemory> {
        let resource = self.name(text, at)?;
        put(out, Demand { amount, resource })
    }

    fn no_names(&self) -> Result<Vec<Name<A>, A>, NoMemory> {
        self.list()
    }

    fn add_name(&self, out: &mut Vec<Name<A>, A>, text: &[u8], at: usize) -> Result<(), NoMemory> {
        let name = self.name(text, at)?;
        put(out, name)
    }

    fn no_resources(&self) -> Result<Vec<Resource<A>, A>, NoMemory> {
        self.list()
    }

    fn add_resource(
        &self,
        out: &mut Vec<Resource<A>, A>,
        text: &[u8],
        at: usize,
        capital: Number,
    ) -> Result<(), NoMemory> {
        let name = self.name(text, at)?;
        put(out, Resource { name, capital })
    }

    fn no_processes(&self) -> Result<Vec<Process<A>, A>, NoMemory> {
        self.list()
    }

    fn add_process(
        &self,
        out: &mut Vec<Process<A>, A>,
        text: &[u8],
        at: usize,
        integers: Vec<Name<A>, A>,
        body: Vec<Stmt<A>, A>,
    ) -> Result<(), NoMemory> {
        let name = self.name(text, at)?;
        put(
            out,
            Process {
                name,
                integers,
                body,
            },
        )
    }

    fn program(&self, resources: Vec<Resource<A>, A>, processes: Vec<Process<A>, A>) -> Program<A> {
        Program {
            resources,
            processes,
        }
    }
}
