//! The names of a tree, from its first to its last.

ghost use Rattle.std.specs.Prelude.{◌≡◌, ◌++◌, ◌∷◌, [], OnOk, map};
ghost use Rattle.pb_tree.specs.View.{arms_view, demand_view, expr_view, name_view, process_view, resource_view};
ghost use Rattle.pb_tree.specs.View.{stmt_view, stmts_view};
ghost use Rattle.pb_outline.specs.Places.{arms_places, declared, demand_places, expr_places, place, process_places};
ghost use Rattle.pb_outline.specs.Places.{processes_places, resource_places, stmt_places, stmts_places, used};

use crate::place::{Kind, Place};
use pb_base::NoMemory;
use pb_tree::{Demand, Expr, Name, Process, Resource, Stmt};
use std::alloc::Allocator;

/// Appends a name where it is declared.
fn add_declared<'t, A: Allocator>(
    out: &mut Vec<Place<'t>>,
    kind: Kind,
    name: &'t Name<A>,
) -> Result<(), NoMemory>
    ensures { OnOk result (map place out.new.items ≡ map place out.old.items ++ declared kind (name_view name.now) ∷ []) }
{
    out.push(Place {
        kind,
        text: name.text.as_slice(),
        at: name.at,
        declares: true,
    })?;
    Ok(())
}

/// Appends a name where it is used.
fn add_used<'t, A: Allocator>(
    out: &mut Vec<Place<'t>>,
    kind: Kind,
    name: &'t Name<A>,
) -> Result<(), NoMemory>
    ensures { OnOk result (map place out.new.items ≡ map place out.old.items ++ used kind (name_view name.now) ∷ []) }
{
    out.push(Place {
        kind,
        text: name.text.as_slice(),
        at: name.at,
        declares: false,
    })?;
    Ok(())
}

/// Appends the names of an expression in process p.
fn add_expr<'t, A: Allocator>(
    out: &mut Vec<Place<'t>>,
    p: usize,
    expr: &'t Expr<A>,
) -> Result<(), NoMemory>
    ensures { OnOk result (map place out.new.items ≡ map place out.old.items ++ expr_places p (expr_view expr.now)) }
{
    match expr {
        Expr::Number(_) => Ok(()),
        Expr::Variable(name) => add_used(out, Kind::Integer(p), name),
        Expr::Unary(_, operand) => add_expr(out, p, operand),
        Expr::Binary(_, left, right) => {
            add_expr(out, p, left)?;
            add_expr(out, p, right)
        }
    }
}

/// Appends the resources of the pairs of a hold.
fn add_demands<'t, A: Allocator>(
    out: &mut Vec<Place<'t>>,
    demands: &'t Vec<Demand<A>, A>,
) -> Result<(), NoMemory>
    ensures { OnOk result (map place out.new.items
        ≡ map place out.old.items ++ demand_places (map demand_view demands.now.items)) }
{
    for demand in demands {
        add_used(out, Kind::Resource, &demand.resource)?;
    }
    Ok(())
}

/// Appends the names of a statement in process p.
#[cycle(walk)]
#[tactic(auto, using(pb_tree::proofs::Views::stmt_views))]
fn add_stmt<'t, A: Allocator>(
    out: &mut Vec<Place<'t>>,
    p: usize,
    stmt: &'t Stmt<A>,
) -> Result<(), NoMemory>
    ensures { OnOk result (map place out.new.items ≡ map place out.old.items ++ stmt_places p (stmt_view stmt.now)) }
{
    match stmt {
        Stmt::Assign { target, value, .. } => {
            add_used(out, Kind::Integer(p), target)?;
            add_expr(out, p, value)
        }
        Stmt::Print { value, .. } => add_expr(out, p, value),
        Stmt::If {
            test,
            on_true,
            on_false,
            ..
        } => {
            add_expr(out, p, test)?;
            add_list(out, p, on_true)?;
            add_list(out, p, on_false)
        }
        Stmt::While { test, body, .. } => {
            add_expr(out, p, test)?;
            add_list(out, p, body)
        }
        Stmt::Hold { demands, body, .. } => {
            add_demands(out, demands)?;
            add_list(out, p, body)
        }
        Stmt::Parbegin { arms, .. } => add_arms(out, p, arms),
    }
}

/// Appends the names of a list of statements in process p.
#[cycle(walk)]
#[tactic(auto, using(pb_tree::proofs::Views::stmt_views))]
fn add_list<'t, A: Allocator>(
    out: &mut Vec<Place<'t>>,
    p: usize,
    stmts: &'t Vec<Stmt<A>, A>,
) -> Result<(), NoMemory>
    ensures { OnOk result (map place out.new.items
        ≡ map place out.old.items ++ stmts_places p (stmts_view stmts.now.items)) }
{
    for stmt in stmts {
        add_stmt(out, p, stmt)?;
    }
    Ok(())
}

/// Appends the names of the arms of a parbegin in process p.
#[cycle(walk)]
#[tactic(auto, using(pb_tree::proofs::Views::stmt_views))]
fn add_arms<'t, A: Allocator>(
    out: &mut Vec<Place<'t>>,
    p: usize,
    arms: &'t Vec<Vec<Stmt<A>, A>, A>,
) -> Result<(), NoMemory>
    ensures { OnOk result (map place out.new.items
        ≡ map place out.old.items ++ arms_places p (arms_view arms.now.items)) }
{
    for arm in arms {
        add_list(out, p, arm)?;
    }
    Ok(())
}

/// Appends the integers of process p.
fn add_integers<'t, A: Allocator>(
    out: &mut Vec<Place<'t>>,
    p: usize,
    integers: &'t Vec<Name<A>, A>,
) -> Result<(), NoMemory>
    ensures { OnOk result (map place out.new.items
        ≡ map place out.old.items ++ map (declared (Kind.Integer p)) (map name_view integers.now.items)) }
{
    for name in integers {
        add_declared(out, Kind::Integer(p), name)?;
    }
    Ok(())
}

/// Appends the names of process p.
fn add_process<'t, A: Allocator>(
    out: &mut Vec<Place<'t>>,
    p: usize,
    process: &'t Process<A>,
) -> Result<(), NoMemory>
    ensures { OnOk result (map place out.new.items
        ≡ map place out.old.items ++ process_places p (process_view process.now)) }
{
    add_declared(out, Kind::Process, &process.name)?;
    add_integers(out, p, &process.integers)?;
    add_list(out, p, &process.body)
}

/// Appends the names of all processes.
pub(crate) fn add_processes<'t, A: Allocator>(
    out: &mut Vec<Place<'t>>,
    processes: &'t Vec<Process<A>, A>,
) -> Result<(), NoMemory>
    ensures { OnOk result (map place out.new.items
        ≡ map place out.old.items ++ processes_places 0 (map process_view processes.now.items)) }
{
    for p in 0..processes.len() {
        add_process(out, p, &processes[p])?;
    }
    Ok(())
}

/// Appends the names of resources, where they are declared.
pub(crate) fn add_resources<'t, A: Allocator>(
    out: &mut Vec<Place<'t>>,
    resources: &'t Vec<Resource<A>, A>,
) -> Result<(), NoMemory>
    ensures { OnOk result (map place out.new.items
        ≡ map place out.old.items ++ resource_places (map resource_view resources.now.items)) }
{
    for resource in resources {
        add_declared(out, Kind::Resource, &resource.name)?;
    }
    Ok(())
}
