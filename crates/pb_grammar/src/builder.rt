//! The trait by which the parser makes something of what it reads.

ghost use Rattle.std.specs.Prelude.{◌≡◌, List, [], ◌∷◌, Ok, Err, IfOk, IfErr};
ghost use Rattle.pb_tree.specs.Syntax as tree;
ghost use Rattle.pb_tree.specs.Syntax.{NameSyntax, ExprSyntax, DemandSyntax, StmtsSyntax, ArmsSyntax};
ghost use Rattle.pb_tree.specs.Syntax.{ResourceSyntax, ProcessSyntax, ProgramSyntax};
ghost use Rattle.pb_tree.specs.View.{number_view};
ghost use Rattle.pb_grammar.specs.Lists.{append, append_arms, single, single_arm};
ghost use Rattle.pb_grammar.specs.StatementReader.{concat};
ghost use Rattle.pb_grammar.specs.Making.{Adds};
ghost use Rattle.pb_grammar.specs.declared.fault.ParseFault.TheVariants as faults;

use crate::fault::ParseFault;
use pb_base::{BinaryOp, NoMemory, UnaryOp};
use pb_tree::Number;

/// What the parser makes of the parts of a program: the parser reads the grammar, and a builder says what
/// an expression, a list of statements and so on are made into.
///
/// Each `is_` says of which plain syntax something was made, and `wants` whether it may be out of memory.
pub trait Builder: Drop {
    type Expr: Drop;

    type Stmts: Drop;

    type Arms: Drop;

    type Names: Drop;

    type Demands: Drop;

    type Resources: Drop;

    type Processes: Drop;

    type Program: Drop;

    ghost wants: { Type 0 };

    ghost is_expr: { Self.Expr → ExprSyntax → Type 0 };

    ghost is_stmts: { Self.Stmts → StmtsSyntax → Type 0 };

    ghost is_arms: { Self.Arms → ArmsSyntax → Type 0 };

    ghost is_names: { Self.Names → List NameSyntax → Type 0 };

    ghost is_demands: { Self.Demands → List DemandSyntax → Type 0 };

    ghost is_resources: { Self.Resources → List ResourceSyntax → Type 0 };

    ghost is_processes: { Self.Processes → List ProcessSyntax → Type 0 };

    ghost is_program: { Self.Program → ProgramSyntax → Type 0 };

    /// Returns a number as an expression.
    fn number(&self, number: Number) -> Self::Expr
        ensures { is_expr result (tree.number (number_view number)) };

    /// Returns a name as an expression.
    fn variable(&self, text: &[u8], at: usize) -> Result<Self::Expr, NoMemory>
        ensures made { IfOk result (λ x. is_expr x (tree.variable (record { text = text.now; at = at }))) }
        ensures fault { IfErr result (λ _. wants) };

    /// Returns an operand after a prefix operator.
    fn unary(&self, op: UnaryOp, operand: Self::Expr) -> Result<Self::Expr, NoMemory>
        ensures made { (e : ExprSyntax) → is_expr operand e → IfOk result (λ x. is_expr x (tree.unary op e)) }
        ensures fault { IfErr result (λ _. wants) };

    /// Returns two operands with an operator between them.
    fn binary(
        &self,
        op: BinaryOp,
        left: Self::Expr,
        right: Self::Expr,
    ) -> Result<Self::Expr, NoMemory>
        ensures made { (a b : ExprSyntax) → is_expr left a → is_expr right b
            → IfOk result (λ x. is_expr x (tree.binary op a b)) }
        ensures fault { IfErr result (λ _. wants) };

    /// Returns a list of no statement.
    fn no_stmts(&self) -> Result<Self::Stmts, NoMemory>
        ensures made { IfOk result (λ x. is_stmts x tree.no_stmt) }
        ensures fault { IfErr result (λ _. wants) };

    /// Adds an assignment.
    fn assign(
        &self,
        out: &mut Self::Stmts,
        line: u32,
        text: &[u8],
        at: usize,
        value: Self::Expr,
    ) -> Result<(), NoMemory>
        ensures made { (e : ExprSyntax) → is_expr value e
            → IfOk result (λ _. Adds is_stmts append out.old out.new
            (single (tree.assign line (record { text = text.now; at = at }) e))) }
        ensures fault { IfErr result (λ _. wants) };

    /// Adds a statement that prints.
    fn print(&self, out: &mut Self::Stmts, line: u32, value: Self::Expr) -> Result<(), NoMemory>
        ensures made { (e : ExprSyntax) → is_expr value e
            → IfOk result (λ _. Adds is_stmts append out.old out.new (single (tree.print line e))) }
        ensures fault { IfErr result (λ _. wants) };

    /// Adds a statement that runs one of two lists.
    fn if_else(
        &self,
        out: &mut Self::Stmts,
        line: u32,
        test: Self::Expr,
        on_true: Self::Stmts,
        on_false: Self::Stmts,
    ) -> Result<(), NoMemory>
        ensures made { (e : ExprSyntax) (a b : StmtsSyntax)
            → is_expr test e → is_stmts on_true a → is_stmts on_false b
            → IfOk result (λ _. Adds is_stmts append out.old out.new (single (tree.if_else line e a b))) }
        ensures fault { IfErr result (λ _. wants) };

    /// Adds a loop.
    fn while_do(
        &self,
        out: &mut Self::Stmts,
        line: u32,
        test: Self::Expr,
        body: Self::Stmts,
    ) -> Result<(), NoMemory>
        ensures made { (e : ExprSyntax) (a : StmtsSyntax) → is_expr test e → is_stmts body a
            → IfOk result (λ _. Adds is_stmts append out.old out.new (single (tree.while_do line e a))) }
        ensures fault { IfErr result (λ _. wants) };

    /// Adds a statement that holds resources.
    fn hold(
        &self,
        out: &mut Self::Stmts,
        line: u32,
        demands: Self::Demands,
        body: Self::Stmts,
    ) -> Result<(), NoMemory>
        ensures made { (ds : List DemandSyntax) (a : StmtsSyntax) → is_demands demands ds → is_stmts body a
            → IfOk result (λ _. Adds is_stmts append out.old out.new (single (tree.hold line ds a))) }
        ensures fault { IfErr result (λ _. wants) };

    /// Adds a statement whose arms run side by side.
    fn parbegin(&self, out: &mut Self::Stmts, line: u32, arms: Self::Arms) -> Result<(), NoMemory>
        ensures made { (a : ArmsSyntax) → is_arms arms a
            → IfOk result (λ _. Adds is_stmts append out.old out.new (single (tree.parbegin line a))) }
        ensures fault { IfErr result (λ _. wants) };

    /// Returns a list of no arm.
    fn no_arms(&self) -> Result<Self::Arms, NoMemory>
        ensures made { IfOk result (λ x. is_arms x tree.no_arm) }
        ensures fault { IfErr result (λ _. wants) };

    /// Adds an arm.
    fn add_arm(&self, out: &mut Self::Arms, body: Self::Stmts) -> Result<(), NoMemory>
        ensures made { (a : StmtsSyntax) → is_stmts body a
            → IfOk result (λ _. Adds is_arms append_arms out.old out.new (single_arm a)) }
        ensures fault { IfErr result (λ _. wants) };

    /// Returns a list of no demand.
    fn no_demands(&self) -> Result<Self::Demands, NoMemory>
        ensures made { IfOk result (λ x. is_demands x []) }
        ensures fault { IfErr result (λ _. wants) };

    /// Adds a demand, of this amount of the resource of this name.
    fn add_demand(
        &self,
        out: &mut Self::Demands,
        amount: Number,
        text: &[u8],
        at: usize,
    ) -> Result<(), NoMemory>
        ensures made { IfOk result (λ _. Adds is_demands concat out.old out.new
            (record { amount = number_view amount; resource = record { text = text.now; at = at } } ∷ [])) }
        ensures fault { IfErr result (λ _. wants) };

    /// Returns a list of no name.
    fn no_names(&self) -> Result<Self::Names, NoMemory>
        ensures made { IfOk result (λ x. is_names x []) }
        ensures fault { IfErr result (λ _. wants) };

    /// Adds a name.
    fn add_name(&self, out: &mut Self::Names, text: &[u8], at: usize) -> Result<(), NoMemory>
        ensures made { IfOk result (λ _. Adds is_names concat out.old out.new
            (record { text = text.now; at = at } ∷ [])) }
        ensures fault { IfErr result (λ _. wants) };

    /// Returns a list of no resource.
    fn no_resources(&self) -> Result<Self::Resources, NoMemory>
        ensures made { IfOk result (λ x. is_resources x []) }
        ensures fault { IfErr result (λ _. wants) };

    /// Adds a resource of this name and amount.
    fn add_resource(
        &self,
        out: &mut Self::Resources,
        text: &[u8],
        at: usize,
        capital: Number,
    ) -> Result<(), NoMemory>
        ensures made { IfOk result (λ _. Adds is_resources concat out.old out.new
            (record { name = record { text = text.now; at = at }; capital = number_view capital } ∷ [])) }
        ensures fault { IfErr result (λ _. wants) };

    /// Returns a list of no process.
    fn no_processes(&self) -> Result<Self::Processes, NoMemory>
        ensures made { IfOk result (λ x. is_processes x []) }
        ensures fault { IfErr result (λ _. wants) };

    /// Adds a process of this name, with its integers and statements.
    fn add_process(
        &self,
        out: &mut Self::Processes,
        text: &[u8],
        at: usize,
        integers: Self::Names,
        body: Self::Stmts,
    ) -> Result<(), NoMemory>
        ensures made { (xs : List NameSyntax) (a : StmtsSyntax) → is_names integers xs → is_stmts body a
            → IfOk result (λ _. Adds is_processes concat out.old out.new
            (record { name = record { text = text.now; at = at }; integers = xs; body = a } ∷ [])) }
        ensures fault { IfErr result (λ _. wants) };

    /// Returns a program of these resources and processes.
    fn program(&self, resources: Self::Resources, processes: Self::Processes) -> Self::Program
        ensures { (rs : List ResourceSyntax) (ps : List ProcessSyntax) → is_resources resources rs
            → is_processes processes ps → is_program result (record { resources = rs; processes = ps }) };
}

/// Returns what was built, or the fault `NoMemory`.
pub(crate) fn built<T>(made: Result<T, NoMemory>) -> Result<T, ParseFault>
    ensures made { IfOk made (λ x. result ≡ Ok x) }
    ensures fault { IfErr made (λ _. result ≡ Err faults.NoMemory) }
{
    Ok(made?)
}
