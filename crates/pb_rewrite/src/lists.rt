//! Lists of items, kept last first.

ghost use Rattle.std.specs.Prelude.{◌≡◌, ◌+◌, ◌<◌, ◌≤◌, ◌∷◌, ◌++◌, vec_len, vec_capacity};
ghost use Rattle.pb_names.specs.Source.{begin, items_of};
ghost use Rattle.pb_names.specs.View.{block_view, arms_view};
ghost use Rattle.pb_rewrite.specs.View.{item_view, items_view, running_view};

use crate::arm::Arm;
use crate::item::Item;
use pb_names::Stmt;
use std::alloc::Allocator;

#[tactic(auto, using(crate::proofs::ReversedLists::pushes))]
/// Returns the items with one in front, for which there is room.
pub(crate) fn with_first<A: Allocator>(items: Vec<Item<A>, A>, first: Item<A>) -> Vec<Item<A>, A>
    requires { vec_len items < vec_capacity items }
    ensures items { items_view result.items ≡ item_view first ∷ items_view items.items }
    ensures len { vec_len result ≡ vec_len items + 1 }
    ensures capacity { vec_capacity items ≤ vec_capacity result }
{
    let mut items = items;
    items.push_reserved(first);
    items
}

#[tactic(auto, using(crate::proofs::ReversedLists::pushes))]
/// Returns the items with the statements of a body in front, for which there is room.
pub(crate) fn with_body<A: Allocator>(
    items: Vec<Item<A>, A>,
    body: Vec<Stmt<A>, A>,
) -> Vec<Item<A>, A>
    requires { vec_len items + vec_len body ≤ vec_capacity items }
    ensures { items_view result.items ≡ items_of (block_view body.items) ++ items_view items.items }
{
    let mut items = items;
    let mut body = body;
    while let Some(stmt) = body.pop() {
        items.push_reserved(Item::Left(stmt));
    }
    items
}

/// Returns the bodies as arms that have not begun, put where no arms are yet, but room for them.
pub(crate) fn fresh_arms<A: Allocator>(
    bodies: Vec<Vec<Stmt<A>, A>, A>,
    arms: Vec<Arm<A>, A>,
) -> Vec<Arm<A>, A>
    requires none { vec_len arms ≡ 0 }
    requires room { vec_len bodies ≤ vec_capacity arms }
    ensures { running_view result.items ≡ begin (arms_view bodies.items) }
{
    let mut arms = arms;
    for body in bodies {
        arms.push_reserved(Arm::Fresh(body));
    }
    arms
}
