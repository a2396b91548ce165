//! One step of an arm at a test of two lists.

ghost use Rattle.std.specs.Prelude.{◌≡◌, ◌<◌, ◌∷◌, ◌++◌, cond, IfOk, IfErr, vec_len, vec_capacity};
ghost use Rattle.pb_names.specs.Source.{If as if_item, Doing as doing, items_of};
ghost use Rattle.pb_names.specs.View.{block_view, expr_view};
ghost use Rattle.pb_rewrite.specs.Steps.{LeavesArm, StepsItems};
ghost use Rattle.pb_rewrite.specs.View.{arm_view, items_view};

use crate::arm::Arm;
use crate::expression::{Progress, is_false, rewrite};
use crate::item::Item;
use crate::lists::{with_body, with_first};
use crate::stepping::{Outcome, Stepped};
use pb_names::{Expr, Stmt};
use std::alloc::Allocator;

/// Steps an arm at an `if`.
pub(crate) fn choose<A: Allocator>(
    items: Vec<Item<A>, A>,
    line: u32,
    test: Expr<A>,
    on_true: Vec<Stmt<A>, A>,
    on_false: Vec<Stmt<A>, A>,
    vars: &[i64],
) -> Result<Stepped<A>, Arm<A>>
    requires { vec_len items < vec_capacity items }
    ensures ok { IfOk result (λ s. StepsItems vars.now
        (if_item line (expr_view test) (block_view on_true.items) (block_view on_false.items)
        ∷ items_view items.items) s vars.now) }
    ensures err { IfErr result (λ arm. arm_view arm ≡ doing
        (if_item line (expr_view test) (block_view on_true.items) (block_view on_false.items)
        ∷ items_view items.items)) }
{
    let mut test = test;
    match rewrite(&mut test, vars) {
        Progress::Is(value) => enter_list(items, line, test, is_false(value), on_true, on_false),
        Progress::Becomes => {
            let stmt = Stmt::If {
                line,
                test,
                on_true,
                on_false,
            };
            Ok(Stepped {
                arm: Arm::Doing(with_first(items, Item::Left(stmt))),
                outcome: Outcome::Silent,
            })
        }
        Progress::Fails(kind) => Ok(Stepped {
            arm: Arm::Ended,
            outcome: Outcome::Faults(kind),
        }),
    }
}

/// Puts the list that a test chooses in front, the second if it fails.
fn enter_list<A: Allocator>(
    items: Vec<Item<A>, A>,
    line: u32,
    test: Expr<A>,
    fails: bool,
    on_true: Vec<Stmt<A>, A>,
    on_false: Vec<Stmt<A>, A>,
) -> Result<Stepped<A>, Arm<A>>
    requires { vec_len items < vec_capacity items }
    ensures ok { IfOk result (λ s. LeavesArm s (doing
        (items_of (cond fails (block_view on_false.items) (block_view on_true.items))
        ++ items_view items.items))) }
    ensures err { IfErr result (λ arm. arm_view arm ≡ doing
        (if_item line (expr_view test) (block_view on_true.items) (block_view on_false.items)
        ∷ items_view items.items)) }
{
    let mut items = items;
    match items.reserve(chosen_len(fails, &on_true, &on_false)) {
        Ok(()) => Ok(Stepped {
            arm: Arm::Doing(with_body(items, chosen(fails, on_true, on_false))),
            outcome: Outcome::Silent,
        }),
        Err(_) => {
            let stmt = Stmt::If {
                line,
                test,
                on_true,
                on_false,
            };
            Err(Arm::Doing(with_first(items, Item::Left(stmt))))
        }
    }
}

/// Returns the list that a test chooses, the second if it fails.
fn chosen<A: Allocator>(
    fails: bool,
    on_true: Vec<Stmt<A>, A>,
    on_false: Vec<Stmt<A>, A>,
) -> Vec<Stmt<A>, A>
    ensures { result ≡ cond fails on_false on_true }
{
    if fails {
        return on_false;
    }
    on_true
}

/// Returns the length of the list that a test chooses.
fn chosen_len<A: Allocator>(
    fails: bool,
    on_true: &Vec<Stmt<A>, A>,
    on_false: &Vec<Stmt<A>, A>,
) -> usize
    ensures { result ≡ vec_len (cond fails on_false.now on_true.now) }
{
    if fails {
        return on_false.len();
    }
    on_true.len()
}
