//! A builder that makes no tree: it says how high the tree would be, and how many nodes it would have.

ghost use Rattle.std.specs.Prelude.{◌≡◌};
ghost use Rattle.pb_tree.specs.Measure.{expr_height, expr_nodes, stmts_height, stmts_nodes, arms_height};
ghost use Rattle.pb_tree.specs.Measure.{arms_nodes};
ghost use Rattle.pb_tree.specs.Measure.{processes_height, processes_nodes, program_height, program_nodes};
ghost use Rattle.pb_parser.specs.Measured.{IsMeasure};

use crate::measure::Measure;
use pb_base::{BinaryOp, NoMemory, UnaryOp};
use pb_grammar::Builder;
use pb_tree::Number;

/// Makes nothing but measures, and so needs no memory.
#[derive(Drop)]
pub(crate) struct Measures;

impl Builder for Measures {
    type Expr = Measure;

    type Stmts = Measure;

    type Arms = Measure;

    type Names = ();

    type Demands = ();

    type Resources = ();

    type Processes = Measure;

    type Program = Measure;

    ghost wants = { ⊥ };

    ghost is_expr = { λ x e. IsMeasure x (expr_height e) (expr_nodes e) };

    ghost is_stmts = { λ x a. IsMeasure x (stmts_height a) (stmts_nodes a) };

    ghost is_arms = { λ x a. IsMeasure x (arms_height a) (arms_nodes a) };

    ghost is_names = { λ _ _. Unit {0} };

    ghost is_demands = { λ _ _. Unit {0} };

    ghost is_resources = { λ _ _. Unit {0} };

    ghost is_processes = { λ x ps. IsMeasure x (processes_height ps) (processes_nodes ps) };

    ghost is_program = { λ x p. IsMeasure x (program_height p) (program_nodes p) };

    fn number(&self, _number: Number) -> Measure {
        Measure::LEAF
    }

    fn variable(&self, _text: &[u8], _at: usize) -> Result<Measure, NoMemory> {
        Ok(Measure::LEAF)
    }

    fn unary(&self, _op: UnaryOp, operand: Measure) -> Result<Measure, NoMemory> {
        Ok(operand.under_node())
    }

    fn binary(&self, _op: BinaryOp, left: Measure, right: Measure) -> Result<Measure, NoMemory> {
        Ok(left.beside(right).under_node())
    }

    fn no_stmts(&self) -> Result<Measure, NoMemory> {
        Ok(Measure::NOTHING)
    }

    fn assign(
        &self,
        out: &mut Measure,
        _line: u32,
        _text: &[u8],
        _at: usize,
        value: Measure,
    ) -> Result<(), NoMemory> {
        *out = out.beside(value.under_node());
        Ok(())
    }

    fn print(&self, out: &mut Measure, _line: u32, value: Measure) -> Result<(), NoMemory> {
        *out = out.beside(value.under_node());
        Ok(())
    }

    fn if_else(
        &self,
        out: &mut Measure,
        _line: u32,
        test: Measure,
        on_true: Measure,
        on_false: Measure,
    ) -> Result<(), NoMemory> {
        *out = out.beside(test.beside(on_true.beside(on_false)).under_node());
        Ok(())
    }

    fn while_do(
        &self,
        out: &mut Measure,
        _line: u32,
        test: Measure,
        body: Measure,
    ) -> Result<(), NoMemory> {
        *out = out.beside(test.beside(body).under_node());
        Ok(())
    }

    fn hold(
        &self,
        out: &mut Measure,
        _line: u32,
        _demands: (),
        body: Measure,
    ) -> Result<(), NoMemory> {
        *out = out.beside(body.under_node());
        Ok(())
    }

    fn parbegin(&self, out: &mut Measure, _line: u32, arms: Measure) -> Result<(), NoMemory> {
        *out = out.beside(arms.under_node());
        Ok(())
    }

    fn no_arms(&self) -> Result<Measure, NoMemory> {
        Ok(Measure::NOTHING)
    }

    fn add_arm(&self, out: &mut Measure, body: Measure) -> Result<(), NoMemory> {
        *out = out.beside(body);
        Ok(())
    }

    fn no_demands(&self) -> Result<(), NoMemory> {
        Ok(())
    }

    fn add_demand(
        &self,
        _out: &mut (),
        _amount: Number,
        _text: &[u8],
        _at: usize,
    ) -> Result<(), NoMemory> {
        Ok(())
    }

    fn no_names(&self) -> Result<(), NoMemory> {
        Ok(())
    }

    fn add_name(&self, _out: &mut (), _text: &[u8], _at: usize) -> Result<(), NoMemory> {
        Ok(())
    }

    fn no_resources(&self) -> Result<(), NoMemory> {
        Ok(())
    }

    fn add_resource(
        &self,
        _out: &mut (),
        _text: &[u8],
        _at: usize,
        _capital: Number,
    ) -> Result<(), NoMemory> {
        Ok(())
    }

    fn no_processes(&self) -> Result<Measure, NoMemory> {
        Ok(Measure::NOTHING)
    }

    fn add_process(
        &self,
        out: &mut Measure,
        _text: &[u8],
        _at: usize,
        _integers: (),
        body: Measure,
    ) -> Result<(), NoMemory> {
        *out = out.beside(body.with_node());
        Ok(())
    }

    fn program(&self, _resources: (), processes: Measure) -> Measure {
        processes
    }
}
