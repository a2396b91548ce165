//! One step of an arm at a loop.

ghost use Rattle.std.specs.Prelude.{◌≡◌, ◌+◌, ◌<◌, ◌≤◌, ◌∷◌, ◌++◌, cond, IfOk, IfErr, vec_len, vec_capacity};
ghost use Rattle.pb_names.specs.Source.{Doing as doing, While as while_item, items_of};
ghost use Rattle.pb_names.specs.View.{block_view, expr_view};
ghost use Rattle.pb_rewrite.specs.Steps.{LeavesArm, StepsItems};
ghost use Rattle.pb_rewrite.specs.View.{arm_view, items_view};

use crate::arm::Arm;
use crate::copies::copy_list;
use crate::expression::{Progress, is_false, rewrite};
use crate::item::Item;
use crate::lists::{with_body, with_first};
use crate::stepping::{Outcome, Stepped};
use pb_names::{Expr, Stmt};
use std::alloc::Allocator;

/// Steps an arm at a loop, with what is left of its test.
pub(crate) fn step_loop<A: Allocator + Clone>(
    items: Vec<Item<A>, A>,
    line: u32,
    test: Expr<A>,
    left: Expr<A>,
    body: Vec<Stmt<A>, A>,
    vars: &[i64],
    alloc: &A,
) -> Result<Stepped<A>, Arm<A>>
    requires { vec_len items < vec_capacity items }
    ensures ok { IfOk result (λ s. StepsItems vars.now
        (while_item line (expr_view test) (expr_view left) (block_view body.items) ∷ items_view items.items)
        s vars.now) }
    ensures err { IfErr result (λ arm. arm_view arm ≡ doing
        (while_item line (expr_view test) (expr_view left) (block_view body.items) ∷ items_view items.items)) }
{
    let mut left = left;
    match rewrite(&mut left, vars) {
        Progress::Is(value) => decide(items, line, test, left, is_false(value), body, alloc),
        Progress::Becomes => {
            let item = Item::While {
                line,
                test,
                left,
                body,
            };
            Ok(Stepped {
                arm: Arm::Doing(with_first(items, item)),
                outcome: Outcome::Silent,
            })
        }
        Progress::Fails(kind) => Ok(Stepped {
            arm: Arm::Ended,
            outcome: Outcome::Faults(kind),
        }),
    }
}

/// Ends a loop whose test failed, and repeats any other.
fn decide<A: Allocator + Clone>(
    items: Vec<Item<A>, A>,
    line: u32,
    test: Expr<A>,
    left: Expr<A>,
    fails: bool,
    body: Vec<Stmt<A>, A>,
    alloc: &A,
) -> Result<Stepped<A>, Arm<A>>
    requires { vec_len items < vec_capacity items }
    ensures ok { IfOk result (λ s. LeavesArm s (doing (cond fails (items_view items.items)
        (items_of (block_view body.items)
        ++ while_item line (expr_view test) (expr_view test) (block_view body.items) ∷ items_view items.items)))) }
    ensures err { IfErr result (λ arm. arm_view arm ≡ doing
        (while_item line (expr_view test) (expr_view left) (block_view body.items) ∷ items_view items.items)) }
{
    if fails {
        return Ok(Stepped {
            arm: Arm::Doing(items),
            outcome: Outcome::Silent,
        });
    }
    match copy_list(&body, alloc) {
        Ok(copy) => repeat(items, line, test, left, body, copy),
        Err(_) => Err(unrepeated(items, line, test, left, body)),
    }
}

/// Puts a copy of the body in front, and after it the loop with its whole test.
fn repeat<A: Allocator>(
    items: Vec<Item<A>, A>,
    line: u32,
    test: Expr<A>,
    left: Expr<A>,
    body: Vec<Stmt<A>, A>,
    copy: Vec<Stmt<A>, A>,
) -> Result<Stepped<A>, Arm<A>>
    requires room { vec_len items < vec_capacity items }
    requires same { block_view copy.items ≡ block_view body.items }
    ensures ok { IfOk result (λ s. LeavesArm s (doing (items_of (block_view body.items)
        ++ while_item line (expr_view test) (expr_view test) (block_view body.items) ∷ items_view items.items))) }
    ensures err { IfErr result (λ arm. arm_view arm ≡ doing
        (while_item line (expr_view test) (expr_view left) (block_view body.items) ∷ items_view items.items)) }
{
    let mut items = items;
    match items.reserve(copy.len() + 1) {
        Ok(()) => {
            let items = with_first(items, Item::Left(Stmt::While { line, test, body }));
            Ok(Stepped {
                arm: Arm::Doing(with_body(items, copy)),
                outcome: Outcome::Silent,
            })
        }
        Err(_) => Err(unrepeated(items, line, test, left, body)),
    }
}

/// Returns the loop as it was, for which there is room.
fn unrepeated<A: Allocator>(
    items: Vec<Item<A>, A>,
    line: u32,
    test: Expr<A>,
    left: Expr<A>,
    body: Vec<Stmt<A>, A>,
) -> Arm<A>
    requires { vec_len items < vec_capacity items }
    ensures { arm_view result ≡ doing
        (while_item line (expr_view test) (expr_view left) (block_view body.items) ∷ items_view items.items) }
{
    let item = Item::While {
        line,
        test,
        left,
        body,
    };
    Arm::Doing(with_first(items, item))
}
