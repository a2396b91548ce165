//! How a syntax tree becomes a numbered program.

ghost use Rattle.std.specs.Prelude.{◌≡◌, ℕ, ◌+◌, ◌≤◌, pos, List, length, map, All, IfOk, IfErr, OnOk};
ghost use Rattle.std.specs.List.{AllZip};
ghost use Rattle.pb_tree.specs.Syntax as tree;
ghost use Rattle.pb_tree.specs.View.{name_view, number_view, expr_view, demand_view, stmt_view, stmts_view};
ghost use Rattle.pb_tree.specs.View.{arms_view, process_view, resource_view, program_view};
ghost use Rattle.pb_resolver.specs.Adds.{Adds};
ghost use Rattle.pb_names.specs.Causes.{IsUnknown, IsOutside, InExpr, InDemand, InsideProcess, InProgram, Among};
ghost use Rattle.pb_names.specs.Causes.{InResource, InProcess};
ghost use Rattle.pb_names.specs.Faults.{IsFault};
ghost use Rattle.pb_names.specs.Limits.{IsTooMany, IsWithinLimits, width, widest_in, inner_arms_of_stmt, inner_arms};
ghost use Rattle.pb_names.specs.Limits.{inner_arms_of_arms};
ghost use Rattle.pb_names.specs.Program as plain;
ghost use Rattle.pb_names.specs.Program.{IsNumbered, AreNumbered};
ghost use Rattle.pb_names.specs.Ready.{IsReadyStmt, AreNumberable, AreReadyArms, AreComplete, IsFitting};
ghost use Rattle.pb_names.specs.Ready.{IsComplete};
ghost use Rattle.pb_names.specs.Resolves.{Resolves, ResolvesExpr, ResolvesStmts, ResolvesArms};
ghost use Rattle.pb_names.specs.Resolves.{ResolvesDemand, ResolvesDemands, ResolvesProcess, ResolvesResource};
ghost use Rattle.pb_names.specs.Resolves.{IsNumber, texts};
ghost use Rattle.pb_names.specs.Search.{IsFree, names_in};
ghost use Rattle.pb_names.specs.View.{resolved_view};
ghost use Rattle.pb_names.specs.View.{expr_view as expr_of, block_view};
ghost use Rattle.pb_names.specs.View.{arms_view as arms_of, process_view as process_of};
ghost use Rattle.pb_names.specs.View.{resource_view as resource_of};

use pb_base::limits::{MAX_AMOUNT, MAX_ARMS, MAX_FORK, MAX_INTEGERS, MAX_RESOURCES};
use pb_base::{BinaryOp, Bundle, NoMemory, Pair, UnaryOp};
use pb_names::limits::too_many;
use pb_names::{
    Declared, Expr, Kind, NameFault, Process, Resolved, Resource, Stmt, amount_from, fault_of,
    first_cause,
};
use pb_tree::{Demand, Name, Number};
use std::alloc::Allocator;

/// Returns the number of a name that is declared.
fn number_in<A: Allocator, B: Allocator>(declared: &Declared<'_, A>, name: &Name<B>) -> u8
    requires few { length (names_in declared.now) ≤ MAX_INTEGERS }
    requires known { IsFree (IsUnknown (names_in declared.now) (name_view name.now)) }
    ensures { IsNumber (names_in declared.now) (name_view name.now) result }
{
    match declared.number_of(&name.text) {
        Some(i) => i as u8,
        None => unreachable!(),
    }
}

/// Returns an expression in memory of its own.
fn boxed<A: Allocator + Clone>(alloc: &A, expr: Expr<A>) -> Result<Box<Expr<A>, A>, NoMemory>
    ensures { IfOk result (λ made. made.value ≡ expr) }
{
    Ok(Box::new(alloc.clone()?, expr)?)
}

/// Returns an operator on one operand.
fn unary<A: Allocator + Clone>(
    alloc: &A,
    op: UnaryOp,
    operand: Expr<A>,
) -> Result<Expr<A>, NoMemory>
    ensures { IfOk result (λ e. expr_of e ≡ plain.Unary op (expr_of operand)) }
{
    let operand = boxed(alloc, operand)?;
    Ok(Expr::Unary(op, operand))
}

/// Returns an operator on a left and a right operand.
fn binary<A: Allocator + Clone>(
    alloc: &A,
    op: BinaryOp,
    left: Expr<A>,
    right: Expr<A>,
) -> Result<Expr<A>, NoMemory>
    ensures { IfOk result (λ e. expr_of e ≡ plain.Binary op (expr_of left) (expr_of right)) }
{
    let left = boxed(alloc, left)?;
    let right = boxed(alloc, right)?;
    Ok(Expr::Binary(op, left, right))
}

/// Returns an expression with numbers in place of its names.
fn number_expr<A: Allocator + Clone>(
    alloc: &A,
    integers: &Declared<'_, A>,
    expr: &pb_tree::Expr<A>,
) -> Result<Expr<A>, NoMemory>
    requires few { length (names_in integers.now) ≤ MAX_INTEGERS }
    requires known { IsFree (InExpr (names_in integers.now) (expr_view expr.now)) }
    ensures { IfOk result (λ e. ResolvesExpr (names_in integers.now) (expr_view expr.now) (expr_of e)) }
{
    match expr {
        pb_tree::Expr::Number(number) => {
            let number = *number;
            Ok(Expr::Number(number.value))
        }
        pb_tree::Expr::Variable(name) => Ok(Expr::Variable(number_in(integers, name))),
        pb_tree::Expr::Unary(op, operand) => {
            let operand = number_expr(alloc, integers, operand)?;
            unary(alloc, *op, operand)
        }
        pb_tree::Expr::Binary(op, left, right) => {
            let left = number_expr(alloc, integers, left)?;
            let right = number_expr(alloc, integers, right)?;
            binary(alloc, *op, left, right)
        }
    }
}

/// Returns an amount that is within its range.
fn amount_of(least: u32, number: Number) -> u32
    requires { IsFree (IsOutside least (number_view number)) }
    ensures value { number.value ≡ pos result }
    ensures least { least ≤ result }
    ensures most { result ≤ MAX_AMOUNT }
{
    match amount_from(least, number) {
        Some(amount) => amount,
        None => unreachable!(),
    }
}

/// Returns a pair of a hold with the number of its resource.
fn number_demand<A: Allocator, B: Allocator>(
    resources: &Declared<'_, A>,
    demand: &Demand<B>,
) -> Pair
    requires few { length (names_in resources.now) ≤ MAX_RESOURCES }
    requires amount { IsFree (IsOutside 1 (number_view demand.now.amount)) }
    requires known { IsFree (IsUnknown (names_in resources.now) (name_view demand.now.resource)) }
    ensures { ResolvesDemand (names_in resources.now) (demand_view demand.now) result }
{
    Pair {
        resource: number_in(resources, &demand.resource),
        amount: amount_of(1, demand.amount),
    }
}

/// Returns the pairs of a hold with the numbers of their resources.
fn number_hold<A: Allocator, B: Allocator>(
    resources: &Declared<'_, A>,
    demands: &Vec<Demand<B>, B>,
) -> Bundle
    requires few { length (names_in resources.now) ≤ MAX_RESOURCES }
    requires some { 1 ≤ length demands.now.items }
    requires free { IsFree (Among (InDemand (names_in resources.now)) (map demand_view demands.now.items)) }
    ensures { ResolvesDemands (names_in resources.now) (map demand_view demands.now.items) result }
{
    let first = number_demand(resources, &demands[0]);
    let mut bundle = Bundle::one(first.resource, first.amount);
    for i in 1..demands.len() {
        bundle.push(number_demand(resources, &demands[i]));
    }
    bundle
}

// Each of the next calls adds one statement to a list. They are not inlined, and they number the expressions
// and the pairs of the statement: those locals would otherwise be in each frame of the recursion of
// statements, and a deep program would need more stack.

/// Adds an assignment to `out`.
#[inline(never)]
fn add_assign<A: Allocator + Clone>(
    alloc: &A,
    integers: &Declared<'_, A>,
    line: u32,
    target: &Name<A>,
    value: &pb_tree::Expr<A>,
    out: &mut Vec<Stmt<A>, A>,
) -> Result<(), NoMemory>
    requires few { length (names_in integers.now) ≤ MAX_INTEGERS }
    requires known { IsFree (IsUnknown (names_in integers.now) (name_view target.now)) }
    requires free { IsFree (InExpr (names_in integers.now) (expr_view value.now)) }
    ensures { (rs : List plain.Name) (n : ℕ) → IfOk result (λ _. Adds (names_in integers.now) rs n
        (tree.assign line (name_view target.now) (expr_view value.now)) out.old.items out.new.items) }
{
    let target = number_in(integers, target);
    let value = number_expr(alloc, integers, value)?;
    out.push(Stmt::Assign {
        line,
        target,
        value,
    })?;
    Ok(())
}

/// Adds a statement that prints to `out`.
#[inline(never)]
fn add_print<A: Allocator + Clone>(
    alloc: &A,
    integers: &Declared<'_, A>,
    line: u32,
    value: &pb_tree::Expr<A>,
    out: &mut Vec<Stmt<A>, A>,
) -> Result<(), NoMemory>
    requires few { length (names_in integers.now) ≤ MAX_INTEGERS }
    requires free { IsFree (InExpr (names_in integers.now) (expr_view value.now)) }
    ensures { (rs : List plain.Name) (n : ℕ) → IfOk result (λ _. Adds (names_in integers.now) rs n
        (tree.print line (expr_view value.now)) out.old.items out.new.items) }
{
    let value = number_expr(alloc, integers, value)?;
    out.push(Stmt::Print { line, value })?;
    Ok(())
}

/// Adds a choice between two lists to `out`.
#[inline(never)]
fn add_if<A: Allocator + Clone>(
    alloc: &A,
    integers: &Declared<'_, A>,
    line: u32,
    test: &pb_tree::Expr<A>,
    on_true: Vec<Stmt<A>, A>,
    on_false: Vec<Stmt<A>, A>,
    out: &mut Vec<Stmt<A>, A>,
) -> Result<(), NoMemory>
    requires few { length (names_in integers.now) ≤ MAX_INTEGERS }
    requires free { IsFree (InExpr (names_in integers.now) (expr_view test.now)) }
    ensures { (rs : List plain.Name) (n m : ℕ) (a b : tree.StmtsSyntax)
        → ResolvesStmts (names_in integers.now) rs a (block_view on_true.items)
        → ResolvesStmts (names_in integers.now) rs b (block_view on_false.items)
        → IsNumbered n (block_view on_true.items)
        → m ≡ n + inner_arms a → IsNumbered m (block_view on_false.items)
        → IfOk result (λ _. Adds (names_in integers.now) rs n
        (tree.if_else line (expr_view test.now) a b) out.old.items out.new.items) }
{
    let test = number_expr(alloc, integers, test)?;
    out.push(Stmt::If {
        line,
        test,
        on_true,
        on_false,
    })?;
    Ok(())
}

/// Adds a loop to `out`.
#[inline(never)]
fn add_while<A: Allocator + Clone>(
    alloc: &A,
    integers: &Declared<'_, A>,
    line: u32,
    test: &pb_tree::Expr<A>,
    body: Vec<Stmt<A>, A>,
    out: &mut Vec<Stmt<A>, A>,
) -> Result<(), NoMemory>
    requires few { length (names_in integers.now) ≤ MAX_INTEGERS }
    requires free { IsFree (InExpr (names_in integers.now) (expr_view test.now)) }
    ensures { (rs : List plain.Name) (n : ℕ) (a : tree.StmtsSyntax)
        → ResolvesStmts (names_in integers.now) rs a (block_view body.items)
        → IsNumbered n (block_view body.items)
        → IfOk result (λ _. Adds (names_in integers.now) rs n
        (tree.while_do line (expr_view test.now) a) out.old.items out.new.items) }
{
    let test = number_expr(alloc, integers, test)?;
    out.push(Stmt::While { line, test, body })?;
    Ok(())
}

/// Adds a hold to `out`.
#[inline(never)]
fn add_hold<A: Allocator>(
    resources: &Declared<'_, A>,
    line: u32,
    demands: &Vec<Demand<A>, A>,
    body: Vec<Stmt<A>, A>,
    out: &mut Vec<Stmt<A>, A>,
) -> Result<(), NoMemory>
    requires few { length (names_in resources.now) ≤ MAX_RESOURCES }
    requires some { 1 ≤ length demands.now.items }
    requires free { IsFree (Among (InDemand (names_in resources.now)) (map demand_view demands.now.items)) }
    ensures { (is : List plain.Name) (n : ℕ) (a : tree.StmtsSyntax)
        → ResolvesStmts is (names_in resources.now) a (block_view body.items)
        → IsNumbered n (block_view body.items)
        → IfOk result (λ _. Adds is (names_in resources.now) n
        (tree.hold line (map demand_view demands.now.items) a) out.old.items out.new.items) }
{
    let bundle = number_hold(resources, demands);
    out.push(Stmt::Hold { line, bundle, body })?;
    Ok(())
}

/// Adds a parbegin, whose arms have the numbers from `first` on, to `out`.
#[inline(never)]
fn add_parbegin<A: Allocator>(
    line: u32,
    first: u8,
    arms: Vec<Vec<Stmt<A>, A>, A>,
    out: &mut Vec<Stmt<A>, A>,
) -> Result<(), NoMemory>
    ensures { (is rs : List plain.Name) (a : tree.ArmsSyntax) (m : ℕ) → 1 ≤ width a → width a ≤ MAX_FORK
        → ResolvesArms is rs a (arms_of arms.items) → m ≡ first + width a → AreNumbered m (arms_of arms.items)
        → IfOk result (λ _. Adds is rs first (tree.parbegin line a) out.old.items out.new.items) }
{
    out.push(Stmt::Parbegin { line, first, arms })?;
    Ok(())
}

/// Adds a statement with numbers in place of its names to `out`. Its arms get the numbers from `next` on,
/// which is left past them.
#[cycle(numbering)]
#[tactic(auto, using(pb_tree::proofs::Views::stmt_views))]
fn number_stmt<A: Allocator + Clone>(
    alloc: &A,
    integers: &Declared<'_, A>,
    resources: &Declared<'_, A>,
    next: &mut usize,
    stmt: &pb_tree::Stmt<A>,
    out: &mut Vec<Stmt<A>, A>,
) -> Result<(), NoMemory>
    requires few_integers { length (names_in integers.now) ≤ MAX_INTEGERS }
    requires few_resources { length (names_in resources.now) ≤ MAX_RESOURCES }
    requires ready { IsReadyStmt (names_in integers.now) (names_in resources.now) next.old (stmt_view stmt.now) }
    ensures added { IfOk result (λ _. Adds (names_in integers.now) (names_in resources.now) next.old
        (stmt_view stmt.now) out.old.items out.new.items) }
    ensures next { OnOk result (next.new ≡ next.old + inner_arms_of_stmt (stmt_view stmt.now)) }
{
    match stmt {
        pb_tree::Stmt::Assign {
            line,
            target,
            value,
        } => add_assign(alloc, integers, *line, target, value, out),
        pb_tree::Stmt::Print { line, value } => add_print(alloc, integers, *line, value, out),
        pb_tree::Stmt::If {
            line,
            test,
            on_true,
            on_false,
        } => {
            let on_true = number_list(alloc, integers, resources, next, on_true)?;
            let on_false = number_list(alloc, integers, resources, next, on_false)?;
            add_if(alloc, integers, *line, test, on_true, on_false, out)
        }
        pb_tree::Stmt::While { line, test, body } => {
            let body = number_list(alloc, integers, resources, next, body)?;
            add_while(alloc, integers, *line, test, body, out)
        }
        pb_tree::Stmt::Hold {
            line,
            demands,
            body,
        } => {
            let body = number_list(alloc, integers, resources, next, body)?;
            add_hold(resources, *line, demands, body, out)
        }
        pb_tree::Stmt::Parbegin { line, arms } => {
            let first = *next as u8;
            *next += arms.len();
            let arms = number_arms(alloc, integers, resources, next, arms)?;
            add_parbegin(*line, first, arms, out)
        }
    }
}

/// Returns a list of statements with numbers in place of its names. Its arms get the numbers from `next` on,
/// which is left past them.
#[cycle(numbering)]
#[tactic(auto, using(pb_tree::proofs::Views::stmt_views))]
fn number_list<A: Allocator + Clone>(
    alloc: &A,
    integers: &Declared<'_, A>,
    resources: &Declared<'_, A>,
    next: &mut usize,
    stmts: &Vec<pb_tree::Stmt<A>, A>,
) -> Result<Vec<Stmt<A>, A>, NoMemory>
    requires few_integers { length (names_in integers.now) ≤ MAX_INTEGERS }
    requires few_resources { length (names_in resources.now) ≤ MAX_RESOURCES }
    requires ready { AreNumberable (names_in integers.now) (names_in resources.now) next.old
        (stmts_view stmts.now.items) }
    ensures resolves { IfOk result (λ list. ResolvesStmts (names_in integers.now) (names_in resources.now)
        (stmts_view stmts.now.items) (block_view list.items)) }
    ensures numbered { IfOk result (λ list. IsNumbered next.old (block_view list.items)) }
    ensures next { OnOk result (next.new ≡ next.old + inner_arms (stmts_view stmts.now.items)) }
{
    let mut list = Vec::with_capacity(alloc.clone()?, stmts.len())?;
    for stmt in stmts {
        number_stmt(alloc, integers, resources, next, stmt, &mut list)?;
    }
    Ok(list)
}

/// Returns the arms of a parbegin with numbers in place of their names. The arms inside them get the numbers
/// from `next` on, which is left past them.
#[cycle(numbering)]
#[tactic(auto, using(pb_tree::proofs::Views::stmt_views))]
fn number_arms<A: Allocator + Clone>(
    alloc: &A,
    integers: &Declared<'_, A>,
    resources: &Declared<'_, A>,
    next: &mut usize,
    arms: &Vec<Vec<pb_tree::Stmt<A>, A>, A>,
) -> Result<Vec<Vec<Stmt<A>, A>, A>, NoMemory>
    requires few_integers { length (names_in integers.now) ≤ MAX_INTEGERS }
    requires few_resources { length (names_in resources.now) ≤ MAX_RESOURCES }
    requires ready { AreReadyArms (names_in integers.now) (names_in resources.now) next.old
        (arms_view arms.now.items) }
    ensures resolves { IfOk result (λ list. ResolvesArms (names_in integers.now) (names_in resources.now)
        (arms_view arms.now.items) (arms_of list.items)) }
    ensures numbered { IfOk result (λ list. AreNumbered next.old (arms_of list.items)) }
    ensures next { OnOk result (next.new ≡ next.old + inner_arms_of_arms (arms_view arms.now.items)) }
{
    let mut list = Vec::with_capacity(alloc.clone()?, arms.len())?;
    for arm in arms {
        list.push(number_list(alloc, integers, resources, next, arm)?)?;
    }
    Ok(list)
}

/// Returns the text of a name.
fn copy_text<A: Allocator + Clone>(alloc: &A, name: &Name<A>) -> Result<Vec<u8, A>, NoMemory>
    ensures { IfOk result (λ copy. copy.items ≡ name.now.text.items) }
{
    Ok(Vec::from_slice(alloc.clone()?, &name.text)?)
}

/// Returns the texts of names.
fn copy_texts<A: Allocator + Clone>(
    alloc: &A,
    names: &Vec<Name<A>, A>,
) -> Result<Vec<Vec<u8, A>, A>, NoMemory>
    ensures { IfOk result (λ copies. map (λ copy. copy.items) copies.items ≡ texts (map name_view names.now.items)) }
{
    let mut copies = Vec::with_capacity(alloc.clone()?, names.len())?;
    for name in names {
        copies.push(copy_text(alloc, name)?)?;
    }
    Ok(copies)
}

/// Returns a process with numbers in place of its names.
fn number_process<A: Allocator + Clone>(
    alloc: &A,
    resources: &Declared<'_, A>,
    process: &pb_tree::Process<A>,
) -> Result<Process<A>, NoMemory>
    requires few_resources { length (names_in resources.now) ≤ MAX_RESOURCES }
    requires few_integers { length process.now.integers.items ≤ MAX_INTEGERS }
    requires free { IsFree (InsideProcess (names_in resources.now) (process_view process.now)) }
    requires complete { AreComplete (stmts_view process.now.body.items) }
    requires narrow { widest_in (stmts_view process.now.body.items) ≤ MAX_FORK }
    requires room { 1 + inner_arms (stmts_view process.now.body.items) ≤ MAX_ARMS }
    ensures { IfOk result
        (λ p. ResolvesProcess (names_in resources.now) (process_view process.now) (process_of p)) }
{
    let name = copy_text(alloc, &process.name)?;
    let integers = copy_texts(alloc, &process.integers)?;
    let names = Declared::integers(alloc, &process.integers)?;
    let mut next = 1;
    let body = number_list(alloc, &names, resources, &mut next, &process.body)?;
    Ok(Process {
        name,
        integers,
        body,
    })
}

/// Processes with numbers in place of their names.
fn number_processes<A: Allocator + Clone>(
    alloc: &A,
    resources: &Declared<'_, A>,
    processes: &Vec<pb_tree::Process<A>, A>,
) -> Result<Vec<Process<A>, A>, NoMemory>
    requires few_resources { length (names_in resources.now) ≤ MAX_RESOURCES }
    requires free { IsFree
        (Among (InProcess (names_in resources.now)) (map process_view processes.now.items)) }
    requires fitting { All IsFitting (map process_view processes.now.items) }
    ensures { IfOk result (λ list. AllZip (ResolvesProcess (names_in resources.now))
        (map process_view processes.now.items) (map process_of list.items)) }
{
    let mut list = Vec::with_capacity(alloc.clone()?, processes.len())?;
    for process in processes {
        list.push(number_process(alloc, resources, process)?)?;
    }
    Ok(list)
}

/// Returns a resource with its name and its capital.
fn number_resource<A: Allocator + Clone>(
    alloc: &A,
    resource: &pb_tree::Resource<A>,
) -> Result<Resource<A>, NoMemory>
    requires { IsFree (IsOutside 0 (number_view resource.now.capital)) }
    ensures { IfOk result (λ r. ResolvesResource (resource_view resource.now) (resource_of r)) }
{
    Ok(Resource {
        name: copy_text(alloc, &resource.name)?,
        capital: amount_of(0, resource.capital),
    })
}

/// Resources with their names and capitals.
fn number_resources<A: Allocator + Clone>(
    alloc: &A,
    resources: &Vec<pb_tree::Resource<A>, A>,
) -> Result<Vec<Resource<A>, A>, NoMemory>
    requires { IsFree (Among InResource (map resource_view resources.now.items)) }
    ensures { IfOk result (λ list.
        AllZip ResolvesResource (map resource_view resources.now.items) (map resource_of list.items)) }
{
    let mut list = Vec::with_capacity(alloc.clone()?, resources.len())?;
    for resource in resources {
        list.push(number_resource(alloc, resource)?)?;
    }
    Ok(list)
}

/// Returns a program with numbers in place of its names.
fn number_program<A: Allocator + Clone>(
    alloc: &A,
    program: &pb_tree::Program<A>,
) -> Result<Resolved<A>, NoMemory>
    requires complete { IsComplete (program_view program.now) }
    requires within { IsWithinLimits (program_view program.now) }
    requires free { IsFree (InProgram (program_view program.now)) }
    ensures { IfOk result (λ resolved. Resolves (program_view program.now) (resolved_view resolved)) }
{
    let names = Declared::resources(alloc, &program.resources)?;
    let resources = number_resources(alloc, &program.resources)?;
    let processes = number_processes(alloc, &names, &program.processes)?;
    Ok(Resolved {
        resources,
        processes,
    })
}

/// Returns the numbered form of a program, in memory of `alloc`. The program has a process, each of its holds
/// a pair and each of its parbegins an arm, as every tree that was read from a text.
///
/// `TooMany` comes first, with the first kind of these that the program has too many of: processes,
/// resources, integers of a process, arms of one parbegin, arms of a process. Then comes the fault of least
/// offset: `Twice` at a resource, a process or an integer of a process whose name is declared before,
/// `Unknown` at a name that is not declared, `Amount` at a capital or an amount out of range, `Repeated` at a
/// resource that its hold names before. `NoMemory` comes if `alloc` is out of memory, and never for a program
/// that has too many of a kind.
pub fn resolve<A: Allocator + Clone>(
    alloc: A,
    program: &pb_tree::Program<A>,
) -> Result<Resolved<A>, NameFault>
    requires { IsComplete (program_view program.now) }
    ensures resolves { IfOk result (λ resolved. Resolves (program_view program.now) (resolved_view resolved)) }
    ensures fault { IfErr result (λ fault. IsFault (program_view program.now) fault) }
    // What there is too much of is counted without memory.
    ensures too_many { (kind : Kind) → IsTooMany (program_view program.now) kind
        → result ≡ Err (NameFault.TooMany kind) }
{
    if let Some(kind) = too_many(program) {
        return Err(NameFault::TooMany(kind));
    }
    match first_cause(&alloc, program)? {
        Some(cause) => Err(fault_of(cause)),
        None => Ok(number_program(&alloc, program)?),
    }
}
