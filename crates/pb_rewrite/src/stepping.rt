//! One step of one arm, which is taken out of its run meanwhile.

ghost use Rattle.std.specs.Prelude.{◌≡◌, ◌+◌, ◌<◌, ◌≤◌, ℤ, List, [], ◌∷◌, Some, IfOk, IfErr, set, vec_len, vec_capacity};
ghost use Rattle.pb_base.specs.Banker.{processes, resources};
ghost use Rattle.pb_names.specs.Source.{Assign as assign_item, Print as print_item, Hold as hold_item};
ghost use Rattle.pb_names.specs.Source.{Parbegin as parbegin_item, Doing as doing, Waiting as waiting};
ghost use Rattle.pb_names.specs.Source.{begin, item_of, items_of};
ghost use Rattle.pb_names.specs.View.{arms_view, block_view, expr_view, stmt_view};
ghost use Rattle.pb_rewrite.specs.Steps.{AreBelow, AsksBelow, IsArmStep, IsUnchanged, LeavesArm, StepsItems};
ghost use Rattle.pb_rewrite.specs.View.{arm_view, item_view, items_view};

use crate::arm::{Arm, all_ended};
use crate::choosing::choose;
use crate::copies::copy_expr;
use crate::expression::{Progress, rewrite};
use crate::item::Item;
use crate::lists::{fresh_arms, with_body, with_first};
use crate::looping::step_loop;
use pb_banker::{Answer, Banker};
use pb_base::{Bundle, FaultKind, NoMemory};
use pb_names::{Expr, Stmt};
use std::alloc::Allocator;

/// What a step of an arm did.
#[derive(Clone, Copy)]
pub(crate) enum Outcome {
    /// Nothing that is seen outside its process.
    Silent,
    /// It printed a number.
    Prints(i64),
    /// The banker lent the amounts.
    Takes(Bundle),
    /// The amounts are to be given back.
    Returns(Bundle),
    /// An operator has no result.
    Faults(FaultKind),
    /// The arm has come to its end.
    Ends,
    /// Nothing: the arm cannot step now.
    Waits,
}

/// The arm after a step, and what it did.
pub(crate) struct Stepped<A: Allocator> {
    pub(crate) arm: Arm<A>,
    pub(crate) outcome: Outcome,
}

/// Steps an arm of process `p`, whose integers these are. If out of memory, the arm comes back and nothing
/// has changed.
pub(crate) fn step_arm<A: Allocator + Clone>(
    arm: Arm<A>,
    vars: &mut [i64],
    banker: &mut Banker,
    p: usize,
    alloc: &A,
) -> Result<Stepped<A>, Arm<A>>
    requires process { p < processes banker.old.state }
    requires below { AsksBelow (resources banker.old.state) vars.old (arm_view arm) }
    ensures ok { IfOk result (λ s. IsArmStep banker.old.state p vars.old (arm_view arm) s.outcome
        vars.new (arm_view s.arm) banker.new.state) }
    ensures err { IfErr result (λ arm'. IsUnchanged banker.old.state vars.old (arm_view arm)
        vars.new (arm_view arm') banker.new.state) }
{
    match arm {
        Arm::Fresh(body) => step_fresh(body, vars, banker, p, alloc),
        Arm::Doing(items) => step_items(items, vars, banker, p, alloc),
        Arm::Waiting {
            line,
            first,
            arms,
            rest,
        } => {
            if all_ended(&arms) {
                return Ok(Stepped {
                    arm: Arm::Doing(rest),
                    outcome: Outcome::Silent,
                });
            }
            let arm = Arm::Waiting {
                line,
                first,
                arms,
                rest,
            };
            Ok(Stepped {
                arm,
                outcome: Outcome::Waits,
            })
        }
        Arm::Ended => Ok(Stepped {
            arm: Arm::Ended,
            outcome: Outcome::Waits,
        }),
    }
}

/// Steps an arm that has not begun.
fn step_fresh<A: Allocator + Clone>(
    body: Vec<Stmt<A>, A>,
    vars: &mut [i64],
    banker: &mut Banker,
    p: usize,
    alloc: &A,
) -> Result<Stepped<A>, Arm<A>>
    requires process { p < processes banker.old.state }
    requires below { AsksBelow (resources banker.old.state) vars.old (doing (items_of (block_view body.items))) }
    ensures ok { IfOk result (λ s. IsArmStep banker.old.state p vars.old (doing (items_of (block_view body.items))) s.outcome
        vars.new (arm_view s.arm) banker.new.state) }
    ensures err { IfErr result (λ arm'. IsUnchanged banker.old.state vars.old (doing (items_of (block_view body.items)))
        vars.new (arm_view arm') banker.new.state) }
{
    match list_for(body.len(), alloc) {
        Ok(items) => step_items(with_body(items, body), vars, banker, p, alloc),
        Err(_) => Err(Arm::Fresh(body)),
    }
}

/// Returns an empty list with room for `room` items.
fn list_for<A: Allocator + Clone>(room: usize, alloc: &A) -> Result<Vec<Item<A>, A>, NoMemory>
    ensures none { IfOk result (λ list. list.items ≡ []) }
    ensures len { IfOk result (λ list. vec_len list ≡ 0) }
    ensures room { IfOk result (λ list. room ≤ vec_capacity list) }
{
    Ok(Vec::with_capacity(alloc.clone()?, room)?)
}

/// Steps an arm at the first of its items.
fn step_items<A: Allocator + Clone>(
    items: Vec<Item<A>, A>,
    vars: &mut [i64],
    banker: &mut Banker,
    p: usize,
    alloc: &A,
) -> Result<Stepped<A>, Arm<A>>
    requires process { p < processes banker.old.state }
    requires below { AsksBelow (resources banker.old.state) vars.old (doing (items_view items.items)) }
    ensures ok { IfOk result (λ s. IsArmStep banker.old.state p vars.old (doing (items_view items.items)) s.outcome
        vars.new (arm_view s.arm) banker.new.state) }
    ensures err { IfErr result (λ arm'. IsUnchanged banker.old.state vars.old (doing (items_view items.items))
        vars.new (arm_view arm') banker.new.state) }
{
    let mut items = items;
    match items.pop() {
        None => Ok(Stepped {
            arm: Arm::Ended,
            outcome: Outcome::Ends,
        }),
        Some(first) => step_item(items, first, vars, banker, p, alloc),
    }
}

/// Steps an arm at an item in front of the others.
fn step_item<A: Allocator + Clone>(
    items: Vec<Item<A>, A>,
    first: Item<A>,
    vars: &mut [i64],
    banker: &mut Banker,
    p: usize,
    alloc: &A,
) -> Result<Stepped<A>, Arm<A>>
    requires room { vec_len items < vec_capacity items }
    requires process { p < processes banker.old.state }
    requires below { AsksBelow (resources banker.old.state) vars.old (doing (item_view first ∷ items_view items.items)) }
    ensures ok { IfOk result (λ s. IsArmStep banker.old.state p vars.old (doing (item_view first ∷ items_view items.items)) s.outcome
        vars.new (arm_view s.arm) banker.new.state) }
    ensures err { IfErr result (λ arm'. IsUnchanged banker.old.state vars.old (doing (item_view first ∷ items_view items.items))
        vars.new (arm_view arm') banker.new.state) }
{
    match first {
        Item::Left(stmt) => step_stmt(items, stmt, vars, banker, p, alloc),
        Item::While {
            line,
            test,
            left,
            body,
        } => step_loop(items, line, test, left, body, vars, alloc),
        Item::GiveBack { bundle, .. } => Ok(Stepped {
            arm: Arm::Doing(items),
            outcome: Outcome::Returns(bundle),
        }),
    }
}

/// Steps an arm at a statement in front of the items.
fn step_stmt<A: Allocator + Clone>(
    items: Vec<Item<A>, A>,
    stmt: Stmt<A>,
    vars: &mut [i64],
    banker: &mut Banker,
    p: usize,
    alloc: &A,
) -> Result<Stepped<A>, Arm<A>>
    requires room { vec_len items < vec_capacity items }
    requires process { p < processes banker.old.state }
    requires below { AsksBelow (resources banker.old.state) vars.old (doing (item_of (stmt_view stmt) ∷ items_view items.items)) }
    ensures ok { IfOk result (λ s. IsArmStep banker.old.state p vars.old (doing (item_of (stmt_view stmt) ∷ items_view items.items)) s.outcome
        vars.new (arm_view s.arm) banker.new.state) }
    ensures err { IfErr result (λ arm'. IsUnchanged banker.old.state vars.old (doing (item_of (stmt_view stmt) ∷ items_view items.items))
        vars.new (arm_view arm') banker.new.state) }
{
    match stmt {
        Stmt::Assign {
            line,
            target,
            value,
        } => Ok(assign(items, line, target, value, vars)),
        Stmt::Print { line, value } => Ok(print(items, line, value, vars)),
        Stmt::If {
            line,
            test,
            on_true,
            on_false,
        } => choose(items, line, test, on_true, on_false, vars),
        Stmt::While { line, test, body } => match copy_expr(&test, alloc) {
            Ok(left) => step_loop(items, line, test, left, body, vars, alloc),
            Err(_) => {
                let stmt = Stmt::While { line, test, body };
                Err(Arm::Doing(with_first(items, Item::Left(stmt))))
            }
        },
        Stmt::Hold { line, bundle, body } => enter(items, line, bundle, body, banker, p),
        Stmt::Parbegin { line, first, arms } => fork(items, line, first, arms, alloc),
    }
}

/// Steps an arm at an assignment.
fn assign<A: Allocator>(
    items: Vec<Item<A>, A>,
    line: u32,
    target: u8,
    value: Expr<A>,
    vars: &mut [i64],
) -> Stepped<A>
    requires { vec_len items < vec_capacity items }
    ensures { StepsItems vars.old (assign_item line target (expr_view value) ∷ items_view items.items) result
        vars.new }
{
    let mut value = value;
    match rewrite(&mut value, vars) {
        Progress::Is(value) => {
            store(vars, target, value);
            Stepped {
                arm: Arm::Doing(items),
                outcome: Outcome::Silent,
            }
        }
        Progress::Becomes => {
            let stmt = Stmt::Assign {
                line,
                target,
                value,
            };
            Stepped {
                arm: Arm::Doing(with_first(items, Item::Left(stmt))),
                outcome: Outcome::Silent,
            }
        }
        Progress::Fails(kind) => Stepped {
            arm: Arm::Ended,
            outcome: Outcome::Faults(kind),
        },
    }
}

/// Gives an integer a value, if it is there.
fn store(vars: &mut [i64], x: u8, value: i64)
    ensures { vars.new ≡ set vars.old x value }
{
    let x = usize::from(x);
    if x >= vars.len() {
        return;
    }
    vars[x] = value;
}

/// Steps an arm at a print.
fn print<A: Allocator>(
    items: Vec<Item<A>, A>,
    line: u32,
    value: Expr<A>,
    vars: &[i64],
) -> Stepped<A>
    requires { vec_len items < vec_capacity items }
    ensures { StepsItems vars.now (print_item line (expr_view value) ∷ items_view items.items) result vars.now }
{
    let mut value = value;
    match rewrite(&mut value, vars) {
        Progress::Is(value) => Stepped {
            arm: Arm::Doing(items),
            outcome: Outcome::Prints(value),
        },
        Progress::Becomes => {
            let stmt = Stmt::Print { line, value };
            Stepped {
                arm: Arm::Doing(with_first(items, Item::Left(stmt))),
                outcome: Outcome::Silent,
            }
        }
        Progress::Fails(kind) => Stepped {
            arm: Arm::Ended,
            outcome: Outcome::Faults(kind),
        },
    }
}

/// Steps an arm at a hold, if the banker allows it.
fn enter<A: Allocator>(
    items: Vec<Item<A>, A>,
    line: u32,
    bundle: Bundle,
    body: Vec<Stmt<A>, A>,
    banker: &mut Banker,
    p: usize,
) -> Result<Stepped<A>, Arm<A>>
    requires room { vec_len items < vec_capacity items }
    requires process { p < processes banker.old.state }
    requires below { AreBelow (resources banker.old.state) bundle }
    ensures ok { IfOk result (λ s. (vars : List ℤ) → IsArmStep banker.old.state p vars
        (doing (hold_item line bundle (block_view body.items) ∷ items_view items.items)) s.outcome vars
        (arm_view s.arm) banker.new.state) }
    ensures err { IfErr result (λ arm'. (vars : List ℤ) → IsUnchanged banker.old.state vars
        (doing (hold_item line bundle (block_view body.items) ∷ items_view items.items)) vars
        (arm_view arm') banker.new.state) }
{
    let mut items = items;
    match items.reserve(body.len() + 1) {
        Ok(()) => Ok(ask_for(items, line, bundle, body, banker, p)),
        Err(_) => Err(unentered(items, line, bundle, body)),
    }
}

/// Asks for what a hold takes, and enters it if that is granted. There is room for its body.
fn ask_for<A: Allocator>(
    items: Vec<Item<A>, A>,
    line: u32,
    bundle: Bundle,
    body: Vec<Stmt<A>, A>,
    banker: &mut Banker,
    p: usize,
) -> Stepped<A>
    requires room { vec_len items + vec_len body + 1 ≤ vec_capacity items }
    requires process { p < processes banker.old.state }
    requires below { AreBelow (resources banker.old.state) bundle }
    ensures { (vars : List ℤ) → IsArmStep banker.old.state p vars
        (doing (hold_item line bundle (block_view body.items) ∷ items_view items.items)) result.outcome vars
        (arm_view result.arm) banker.new.state }
{
    match banker.ask(p, &bundle) {
        Answer::Granted => {
            let items = with_first(items, Item::GiveBack { line, bundle });
            Stepped {
                arm: Arm::Doing(with_body(items, body)),
                outcome: Outcome::Takes(bundle),
            }
        }
        Answer::NotNow => Stepped {
            arm: unentered(items, line, bundle, body),
            outcome: Outcome::Waits,
        },
        Answer::OverClaim => Stepped {
            arm: unentered(items, line, bundle, body),
            outcome: Outcome::Waits,
        },
    }
}

/// Returns a hold that is not entered, for which there is room.
fn unentered<A: Allocator>(
    items: Vec<Item<A>, A>,
    line: u32,
    bundle: Bundle,
    body: Vec<Stmt<A>, A>,
) -> Arm<A>
    requires { vec_len items < vec_capacity items }
    ensures { arm_view result ≡ doing (hold_item line bundle (block_view body.items) ∷ items_view items.items) }
{
    let stmt = Stmt::Hold { line, bundle, body };
    Arm::Doing(with_first(items, Item::Left(stmt)))
}

/// Steps an arm at a parbegin, whose arms begin to run.
fn fork<A: Allocator + Clone>(
    items: Vec<Item<A>, A>,
    line: u32,
    first: u8,
    bodies: Vec<Vec<Stmt<A>, A>, A>,
    alloc: &A,
) -> Result<Stepped<A>, Arm<A>>
    requires { vec_len items < vec_capacity items }
    ensures ok { IfOk result (λ s. LeavesArm s
        (waiting line first (begin (arms_view bodies.items)) (items_view items.items))) }
    ensures err { IfErr result (λ arm. arm_view arm ≡ doing
        (parbegin_item line first (arms_view bodies.items) ∷ items_view items.items)) }
{
    match arms_for(bodies.len(), alloc) {
        Ok(arms) => Ok(Stepped {
            arm: Arm::Waiting {
                line,
                first,
                arms: fresh_arms(bodies, arms),
                rest: items,
            },
            outcome: Outcome::Silent,
        }),
        Err(_) => {
            let stmt = Stmt::Parbegin {
                line,
                first,
                arms: bodies,
            };
            Err(Arm::Doing(with_first(items, Item::Left(stmt))))
        }
    }
}

/// Returns no arms, with room for `room`.
fn arms_for<A: Allocator + Clone>(room: usize, alloc: &A) -> Result<Vec<Arm<A>, A>, NoMemory>
    ensures none { IfOk result (λ arms. vec_len arms ≡ 0) }
    ensures room { IfOk result (λ arms. room ≤ vec_capacity arms) }
{
    Ok(Vec::with_capacity(alloc.clone()?, room)?)
}
