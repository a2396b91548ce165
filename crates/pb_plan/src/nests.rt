//! The first hold of one resource inside a hold of another.

ghost use Rattle.std.specs.Prelude.{◌≡◌, ◌==◌, ◌||◌, None, map};
ghost use Rattle.pb_names.specs.View.{arms_view, block_view, process_view, stmt_view};
ghost use Rattle.pb_plan.specs.Nests.{arms_nest, asks, first, held_inside, nest, nest_among, own_nest, stmt_nest};

use crate::nest::Nest;
use pb_base::{Bundle, Pair};
use pb_names::{Process, Stmt};
use std::alloc::Allocator;

/// Returns whether a pair is of this resource, or another one was.
fn is_one(found: bool, pair: Pair, resource: usize) -> bool
    ensures { result ≡ (found || (pair.resource == resource)) }
{
    found || usize::from(pair.resource) == resource
}

/// Returns whether a bundle asks for a resource.
fn asks(bundle: &Bundle, resource: usize) -> bool
    ensures { result ≡ asks resource bundle.now }
{
    let mut found = false;
    for i in 0..bundle.len() {
        found = is_one(found, bundle.get(i), resource);
    }
    found
}

/// Returns the first of two, or the second.
fn first(a: Option<Nest>, b: Option<Nest>) -> Option<Nest>
    ensures { result ≡ first a b }
{
    match a {
        Some(found) => Some(found),
        None => b,
    }
}

/// Returns the hold at a line, if it asks for the inner resource and stands inside one that asks for the outer.
fn own_nest(
    bundle: &Bundle,
    line: u32,
    outer: usize,
    inner: usize,
    held: Option<u32>,
) -> Option<Nest>
    ensures { result ≡ own_nest outer inner held line bundle.now }
{
    let outer_line = held?;
    if asks(bundle, inner) {
        Some(Nest {
            outer_line,
            outer,
            inner_line: line,
            inner,
        })
    } else {
        None
    }
}

/// Returns the line of the last hold around what is inside a hold that asks for the outer resource.
fn held_inside(bundle: &Bundle, line: u32, outer: usize, held: Option<u32>) -> Option<u32>
    ensures { result ≡ held_inside outer held line bundle.now }
{
    if asks(bundle, outer) {
        Some(line)
    } else {
        held
    }
}

/// Returns the first nest in a statement.
#[cycle(nests)]
#[tactic(auto, using(pb_names::proofs::Views::stmt_views))]
fn nest_of_stmt<A: Allocator>(
    stmt: &Stmt<A>,
    outer: usize,
    inner: usize,
    held: Option<u32>,
) -> Option<Nest>
    ensures { result ≡ stmt_nest outer inner held (stmt_view stmt.now) }
{
    match stmt {
        Stmt::Assign { .. } | Stmt::Print { .. } => None,
        Stmt::If {
            on_true,
            on_false,
            ..
        } => first(
            nest_of_list(on_true, outer, inner, held),
            nest_of_list(on_false, outer, inner, held),
        ),
        Stmt::While { body, .. } => nest_of_list(body, outer, inner, held),
        Stmt::Hold { line, bundle, body } => first(
            own_nest(bundle, *line, outer, inner, held),
            nest_of_list(body, outer, inner, held_inside(bundle, *line, outer, held)),
        ),
        Stmt::Parbegin { arms, .. } => nest_of_arms(arms, outer, inner, held),
    }
}

/// Returns the first nest in a list.
#[cycle(nests)]
#[tactic(auto, using(pb_names::proofs::Views::stmt_views))]
fn nest_of_list<A: Allocator>(
    stmts: &Vec<Stmt<A>, A>,
    outer: usize,
    inner: usize,
    held: Option<u32>,
) -> Option<Nest>
    ensures { result ≡ nest outer inner held (block_view stmts.now.items) }
{
    let mut found = None;
    for stmt in stmts {
        found = first(found, nest_of_stmt(stmt, outer, inner, held));
    }
    found
}

/// Returns the first nest in the arms of a parbegin.
#[cycle(nests)]
#[tactic(auto, using(pb_names::proofs::Views::stmt_views))]
fn nest_of_arms<A: Allocator>(
    arms: &Vec<Vec<Stmt<A>, A>, A>,
    outer: usize,
    inner: usize,
    held: Option<u32>,
) -> Option<Nest>
    ensures { result ≡ arms_nest outer inner held (arms_view arms.now.items) }
{
    let mut found = None;
    for arm in arms {
        found = first(found, nest_of_list(arm, outer, inner, held));
    }
    found
}

/// Returns the first hold in a process that asks for the inner resource inside one that asks for the outer.
pub(crate) fn nest_in<A: Allocator>(
    process: &Process<A>,
    outer: usize,
    inner: usize,
) -> Option<Nest>
    ensures { result ≡ nest outer inner None (block_view process.now.body.items) }
{
    nest_of_list(&process.body, outer, inner, None)
}

/// Returns the first hold in the processes that asks for the inner resource inside one that asks for the outer.
pub(crate) fn find_nest<A: Allocator>(
    processes: &[Process<A>],
    outer: usize,
    inner: usize,
) -> Option<Nest>
    ensures { result ≡ nest_among outer inner (map process_view processes.now) }
{
    let mut found = None;
    for process in processes {
        found = first(found, nest_in(process, outer, inner));
    }
    found
}
