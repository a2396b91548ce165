//! What is wrong with the names and amounts of a program, and where.

ghost use Rattle.std.specs.Prelude.{◌≡◌, ◌≢◌, ℕ, ◌<◌, ◌≤◌, pos, length, map, take, slice_get, Some, IfOk, IfSome, IfNone};
ghost use Rattle.pb_tree.specs.View.{name_view, number_view, expr_view, demand_view, stmt_view, stmts_view};
ghost use Rattle.pb_tree.specs.View.{arms_view, process_view, resource_view, program_view};
ghost use Rattle.pb_names.specs.Causes.{IsUnknown, IsAgain, IsOutside, InExpr, InDemand, InStmt, InStmts};
ghost use Rattle.pb_names.specs.Causes.{InArms, InInteger, InResource, InsideProcess, InProcess, InProgram};
ghost use Rattle.pb_names.specs.Causes.{Among};
ghost use Rattle.pb_names.specs.Faults.{told};
ghost use Rattle.pb_names.specs.Resolves.{texts};
ghost use Rattle.pb_names.specs.Search.{IsFirst, earlier_of, names_in};
ghost use Rattle.pb_names.specs.declared.causes.Wrong.TheVariants.{Twice as twice, Repeated as repeated};

use crate::declared::Declared;
use crate::fault::NameFault;
use pb_base::NoMemory;
use pb_base::limits::MAX_AMOUNT;
use pb_tree::{Demand, Expr, Name, Number, Process, Program, Resource, Stmt};
use std::alloc::Allocator;

/// What is wrong at an offset.
#[derive(Clone, Copy, Debug, PartialEq, Eq)]
pub enum Wrong {
    /// A name that is declared before.
    Twice,
    /// A name that is not declared.
    Unknown,
    /// A capital or an amount out of range.
    Amount,
    /// A resource that its hold names before.
    Repeated,
}

/// A cause of a fault: an offset into the text, from 0, and what is wrong there.
#[derive(Clone, Copy, Debug, PartialEq, Eq)]
pub struct Cause {
    pub at: usize,
    pub wrong: Wrong,
}

/// Returns the fault that tells of a cause.
pub fn fault_of(cause: Cause) -> NameFault
    ensures { result ≡ told cause.wrong cause.at }
{
    match cause.wrong {
        Wrong::Twice => NameFault::Twice(cause.at),
        Wrong::Unknown => NameFault::Unknown(cause.at),
        Wrong::Amount => NameFault::Amount(cause.at),
        Wrong::Repeated => NameFault::Repeated(cause.at),
    }
}

/// Returns the cause of the lesser offset.
fn earlier(a: Option<Cause>, b: Option<Cause>) -> Option<Cause>
    ensures { result ≡ earlier_of a b }
{
    match (a, b) {
        (Some(x), Some(y)) => { if x.at <= y.at { Some(x) } else { Some(y) } }
        (Some(x), None) => Some(x),
        (None, b) => b,
    }
}

/// Returns a number as an amount from `least` to 1,000,000, if it is one.
pub fn amount_from(least: u32, number: Number) -> Option<u32>
    ensures value { IfSome result (λ amount. number.value ≡ pos amount) }
    ensures range { IfSome result (λ amount. (least ≤ amount) × (amount ≤ MAX_AMOUNT)) }
    ensures outside { IfNone result
        ((amount : ℕ) → least ≤ amount → amount ≤ MAX_AMOUNT → number.value ≢ pos amount) }
{
    if number.value < i64::from(least) || number.value > i64::from(MAX_AMOUNT) {
        return None;
    }
    Some(number.value as u32)
}

/// Returns a number that is none from `least` to 1,000,000.
fn first_in_number(least: u32, number: Number) -> Option<Cause>
    ensures { IsFirst (IsOutside least (number_view number)) result }
{
    match amount_from(least, number) {
        Some(_) => None,
        None => Some(Cause {
            at: number.at,
            wrong: Wrong::Amount,
        }),
    }
}

/// Returns a name that is not declared.
fn first_in_name<A: Allocator, B: Allocator>(
    declared: &Declared<'_, A>,
    name: &Name<B>,
) -> Option<Cause>
    ensures { IsFirst (IsUnknown (names_in declared.now) (name_view name.now)) result }
{
    match declared.number_of(&name.text) {
        Some(_) => None,
        None => Some(Cause {
            at: name.at,
            wrong: Wrong::Unknown,
        }),
    }
}

/// Returns the name numbered `i`, if it is declared before.
fn first_again<A: Allocator, B: Allocator>(
    declared: &Declared<'_, A>,
    i: usize,
    name: &Name<B>,
) -> Option<Cause>
    requires { slice_get (names_in declared.now) i ≡ Some name.now.text.items }
    ensures { IsFirst (IsAgain twice (take i (names_in declared.now)) (name_view name.now)) result }
{
    if declared.number_of(&name.text) == Some(i) {
        return None;
    }
    Some(Cause {
        at: name.at,
        wrong: Wrong::Twice,
    })
}

/// Returns the first of the integers that are declared again.
fn first_in_integers<A: Allocator, B: Allocator>(
    names: &Declared<'_, A>,
    integers: &Vec<Name<B>, B>,
) -> Option<Cause>
    requires { names_in names.now ≡ texts (map name_view integers.now.items) }
    ensures { IsFirst (Among InInteger (map name_view integers.now.items)) result }
{
    let mut first = None;
    for (i, name) in integers.iter().enumerate() {
        first = earlier(first, first_again(names, i, name));
    }
    first
}

/// Returns the first name of an expression that is not declared.
fn first_in_expr<A: Allocator, B: Allocator>(
    integers: &Declared<'_, A>,
    expr: &Expr<B>,
) -> Option<Cause>
    ensures { IsFirst (InExpr (names_in integers.now) (expr_view expr.now)) result }
{
    match expr {
        Expr::Number(_) => None,
        Expr::Variable(name) => first_in_name(integers, name),
        Expr::Unary(_, operand) => first_in_expr(integers, operand),
        Expr::Binary(_, left, right) => {
            let in_left = first_in_expr(integers, left);
            earlier(in_left, first_in_expr(integers, right))
        }
    }
}

/// Returns the first of the resources that are declared again or have a capital out of range.
fn first_in_resources<A: Allocator, B: Allocator>(
    names: &Declared<'_, A>,
    resources: &Vec<Resource<B>, B>,
) -> Option<Cause>
    requires { names_in names.now ≡ texts (map (λ r. r.name) (map resource_view resources.now.items)) }
    ensures { IsFirst (Among InResource (map resource_view resources.now.items)) result }
{
    let mut first = None;
    for (i, resource) in resources.iter().enumerate() {
        let again = first_again(names, i, &resource.name);
        let here = earlier(again, first_in_number(0, resource.capital));
        first = earlier(first, here);
    }
    first
}

/// Returns a resource that is in one of the first `n` pairs of a hold.
fn first_repeated<A: Allocator>(
    demands: &Vec<Demand<A>, A>,
    n: usize,
    name: &Name<A>,
) -> Option<Cause>
    requires { n ≤ length demands.now.items }
    ensures { IsFirst
        (IsAgain repeated (texts (map (λ d. d.resource) (take n (map demand_view demands.now.items))))
        (name_view name.now)) result }
{
    for i in 0..n {
        if demands[i].resource.text.as_slice() == name.text.as_slice() {
            return Some(Cause {
                at: name.at,
                wrong: Wrong::Repeated,
            });
        }
    }
    None
}

/// Returns the first thing that is wrong with the pairs of a hold.
fn first_in_hold<A: Allocator, B: Allocator>(
    resources: &Declared<'_, A>,
    demands: &Vec<Demand<B>, B>,
) -> Option<Cause>
    ensures { IsFirst (Among (InDemand (names_in resources.now)) (map demand_view demands.now.items)) result }
{
    let mut first = None;
    for (i, demand) in demands.iter().enumerate() {
        let of_name = earlier(
            first_in_name(resources, &demand.resource),
            first_repeated(demands, i, &demand.resource),
        );
        let here = earlier(first_in_number(1, demand.amount), of_name);
        first = earlier(first, here);
    }
    first
}

/// Returns the first thing that is wrong with a statement.
#[cycle(causes)]
#[tactic(auto, using(pb_tree::proofs::Views::stmt_views))]
fn first_in_stmt<A: Allocator, B: Allocator>(
    integers: &Declared<'_, A>,
    resources: &Declared<'_, A>,
    stmt: &Stmt<B>,
) -> Option<Cause>
    ensures { IsFirst (InStmt (names_in integers.now) (names_in resources.now) (stmt_view stmt.now)) result }
{
    match stmt {
        Stmt::Assign { target, value, .. } => {
            let in_target = first_in_name(integers, target);
            earlier(in_target, first_in_expr(integers, value))
        }
        Stmt::Print { value, .. } => first_in_expr(integers, value),
        Stmt::If {
            test,
            on_true,
            on_false,
            ..
        } => {
            let in_test = first_in_expr(integers, test);
            let in_true = first_in_list(integers, resources, on_true);
            let in_false = first_in_list(integers, resources, on_false);
            earlier(in_test, earlier(in_true, in_false))
        }
        Stmt::While { test, body, .. } => {
            let in_test = first_in_expr(integers, test);
            earlier(in_test, first_in_list(integers, resources, body))
        }
        Stmt::Hold { demands, body, .. } => {
            let in_demands = first_in_hold(resources, demands);
            earlier(in_demands, first_in_list(integers, resources, body))
        }
        Stmt::Parbegin { arms, .. } => first_in_arms(integers, resources, arms),
    }
}

/// Returns the first thing that is wrong with a list of statements.
#[cycle(causes)]
#[tactic(auto, using(pb_tree::proofs::Views::stmt_views))]
fn first_in_list<A: Allocator, B: Allocator>(
    integers: &Declared<'_, A>,
    resources: &Declared<'_, A>,
    stmts: &Vec<Stmt<B>, B>,
) -> Option<Cause>
    ensures { IsFirst
        (InStmts (names_in integers.now) (names_in resources.now) (stmts_view stmts.now.items)) result }
{
    let mut first = None;
    for stmt in stmts {
        first = earlier(first, first_in_stmt(integers, resources, stmt));
    }
    first
}

/// Returns the first thing that is wrong with the arms of a parbegin.
#[cycle(causes)]
#[tactic(auto, using(pb_tree::proofs::Views::stmt_views))]
fn first_in_arms<A: Allocator, B: Allocator>(
    integers: &Declared<'_, A>,
    resources: &Declared<'_, A>,
    arms: &Vec<Vec<Stmt<B>, B>, B>,
) -> Option<Cause>
    ensures { IsFirst
        (InArms (names_in integers.now) (names_in resources.now) (arms_view arms.now.items)) result }
{
    let mut first = None;
    for arm in arms {
        first = earlier(first, first_in_list(integers, resources, arm));
    }
    first
}

/// Returns the first thing that is wrong in a process, its own name left out.
fn first_in_process<A: Allocator + Clone>(
    alloc: &A,
    resources: &Declared<'_, A>,
    process: &Process<A>,
) -> Result<Option<Cause>, NoMemory>
    ensures { IfOk result (λ first. IsFirst
        (InsideProcess (names_in resources.now) (process_view process.now)) first) }
{
    let integers = Declared::integers(alloc, &process.integers)?;
    let in_integers = first_in_integers(&integers, &process.integers);
    Ok(earlier(
        in_integers,
        first_in_list(&integers, resources, &process.body),
    ))
}

/// Returns the first thing that is wrong with processes.
fn first_in_processes<A: Allocator + Clone>(
    alloc: &A,
    resources: &Declared<'_, A>,
    processes: &Vec<Process<A>, A>,
) -> Result<Option<Cause>, NoMemory>
    ensures { IfOk result (λ first. IsFirst
        (Among (InProcess (names_in resources.now)) (map process_view processes.now.items)) first) }
{
    let names = Declared::processes(alloc, processes)?;
    let mut first = None;
    for (i, process) in processes.iter().enumerate() {
        let again = first_again(&names, i, &process.name);
        let inside = first_in_process(alloc, resources, process)?;
        let here = earlier(again, inside);
        first = earlier(first, here);
    }
    Ok(first)
}

/// Returns the first thing that is wrong with a program.
pub fn first_cause<A: Allocator + Clone>(
    alloc: &A,
    program: &Program<A>,
) -> Result<Option<Cause>, NoMemory>
    ensures { IfOk result (λ first. IsFirst (InProgram (program_view program.now)) first) }
{
    let names = Declared::resources(alloc, &program.resources)?;
    let in_resources = first_in_resources(&names, &program.resources);
    let in_processes = first_in_processes(alloc, &names, &program.processes)?;
    Ok(earlier(in_resources, in_processes))
}
