//! Statements, and the pairs of a hold.

ghost use Rattle.std.specs.Prelude.{◌≡◌, ◌↔◌, IfOk, IsTrue, map};
ghost use Rattle.pb_tree.specs.Measure.{saturated, stmt_nodes, stmts_nodes, arms_nodes, stmt_height};
ghost use Rattle.pb_tree.specs.Measure.{stmts_height, arms_height};
ghost use Rattle.pb_tree.specs.View.{stmt_view, stmts_view, arms_view, demand_view};
ghost use Rattle.pb_tree.specs.Syntax.{stmt_line};

use crate::expr::{Expr, Name, Number};
use pb_base::NoMemory;
use std::alloc::Allocator;

/// A statement, whose parts are in memory of `A`. Each has the line of its first token, from 1. `skip` makes
/// no statement, and an inner `begin .. end` makes those that are in it.
// To add one: a Mark, specs/, pb_grammar, pb_names, pb_claims, pb_rewrite, pb_generator; docs/CHANGING.md.
#[derive(Drop)]
pub enum Stmt<A: Allocator> {
    /// Gives a variable a value.
    Assign {
        /// The line, from 1.
        line: u32,
        /// The variable.
        target: Name<A>,
        /// Its new value.
        value: Expr<A>,
    },
    /// Prints a value.
    Print {
        /// The line, from 1.
        line: u32,
        /// What is printed.
        value: Expr<A>,
    },
    /// One of two lists. Without `else`, the second is empty.
    If {
        /// The line, from 1.
        line: u32,
        /// What decides.
        test: Expr<A>,
        /// The statements after `then`.
        on_true: Vec<Stmt<A>, A>,
        /// The statements after `else`.
        on_false: Vec<Stmt<A>, A>,
    },
    /// A loop.
    While {
        /// The line, from 1.
        line: u32,
        /// What decides whether it goes on.
        test: Expr<A>,
        /// What it repeats.
        body: Vec<Stmt<A>, A>,
    },
    /// Holds amounts of resources while a list runs.
    Hold {
        /// The line, from 1.
        line: u32,
        /// What is held: the pairs, in their order.
        demands: Vec<Demand<A>, A>,
        /// What runs meanwhile.
        body: Vec<Stmt<A>, A>,
    },
    /// Lists that run side by side.
    Parbegin {
        /// The line, from 1.
        line: u32,
        /// The arms, in their order.
        arms: Vec<Vec<Stmt<A>, A>, A>,
    },
}

/// An amount of a resource, one pair of a hold.
#[derive(Drop)]
pub struct Demand<A: Allocator> {
    /// How much.
    pub amount: Number,
    /// Of which resource.
    pub resource: Name<A>,
}

impl<A: Allocator> Stmt<A> {
    /// Returns the same statement in memory of `alloc`. The error comes only if `alloc` is out of memory.
    #[cycle(copy)]
    #[tactic(auto, using(crate::proofs::Views::stmt_views))]
    pub fn copy_into<B: Allocator + Clone>(&self, alloc: &B) -> Result<Stmt<B>, NoMemory>
        ensures { IfOk result (λ copy. stmt_view copy ≡ stmt_view self.now) }
    {
        match self {
            Stmt::Assign {
                line,
                target,
                value,
            } => {
                let target = target.copy_into(alloc)?;
                let value = value.copy_into(alloc)?;
                Ok(Stmt::Assign {
                    line: *line,
                    target,
                    value,
                })
            }
            Stmt::Print { line, value } => {
                let value = value.copy_into(alloc)?;
                Ok(Stmt::Print { line: *line, value })
            }
            Stmt::If {
                line,
                test,
                on_true,
                on_false,
            } => {
                let test = test.copy_into(alloc)?;
                let on_true = Stmt::copy_list(on_true, alloc)?;
                let on_false = Stmt::copy_list(on_false, alloc)?;
                Ok(Stmt::If {
                    line: *line,
                    test,
                    on_true,
                    on_false,
                })
            }
            Stmt::While { line, test, body } => {
                let test = test.copy_into(alloc)?;
                let body = Stmt::copy_list(body, alloc)?;
                Ok(Stmt::While {
                    line: *line,
                    test,
                    body,
                })
            }
            Stmt::Hold {
                line,
                demands,
                body,
            } => {
                let demands = copy_demands(demands, alloc)?;
                let body = Stmt::copy_list(body, alloc)?;
                Ok(Stmt::Hold {
                    line: *line,
                    demands,
                    body,
                })
            }
            Stmt::Parbegin { line, arms } => {
                let arms = Stmt::copy_arms(arms, alloc)?;
                Ok(Stmt::Parbegin { line: *line, arms })
            }
        }
    }

    /// Returns the same list in memory of `alloc`. The error comes only if `alloc` is out of memory.
    #[cycle(copy)]
    #[tactic(auto, using(crate::proofs::Views::stmt_views))]
    pub fn copy_list<B: Allocator + Clone>(
        stmts: &Vec<Stmt<A>, A>,
        alloc: &B,
    ) -> Result<Vec<Stmt<B>, B>, NoMemory>
        ensures { IfOk result (λ copy. stmts_view copy.items ≡ stmts_view stmts.now.items) }
    {
        let mut copy = Vec::new(alloc.clone()?);
        for stmt in stmts {
            copy.push(stmt.copy_into(alloc)?)?;
        }
        Ok(copy)
    }

    /// Returns the same arms in memory of `alloc`.
    #[cycle(copy)]
    #[tactic(auto, using(crate::proofs::Views::stmt_views))]
    fn copy_arms<B: Allocator + Clone>(
        arms: &Vec<Vec<Stmt<A>, A>, A>,
        alloc: &B,
    ) -> Result<Vec<Vec<Stmt<B>, B>, B>, NoMemory>
        ensures { IfOk result (λ copy. arms_view copy.items ≡ arms_view arms.now.items) }
    {
        let mut copy = Vec::new(alloc.clone()?);
        for arm in arms {
            copy.push(Stmt::copy_list(arm, alloc)?)?;
        }
        Ok(copy)
    }

    /// Returns whether the other statement is the same, offsets and lines included, in whatever memory it is.
    #[cycle(same)]
    #[tactic(auto, using(crate::proofs::Views::stmt_views))]
    pub fn same<B: Allocator>(&self, other: &Stmt<B>) -> bool
        ensures { IsTrue result ↔ (stmt_view self.now ≡ stmt_view other.now) }
    {
        if line_of(self) != line_of(other) {
            return false;
        }
        match (self, other) {
            (
                Stmt::Assign { target, value, .. },
                Stmt::Assign {
                    target: other_target,
                    value: other_value,
                    ..
                },
            ) => { target.same(other_target) && value.same(other_value) }
            (
                Stmt::Print { value, .. },
                Stmt::Print {
                    value: other_value,
                    ..
                },
            ) => value.same(other_value),
            (
                Stmt::If {
                    test,
                    on_true,
                    on_false,
                    ..
                },
                Stmt::If {
                    test: other_test,
                    on_true: other_true,
                    on_false: other_false,
                    ..
                },
            ) => {
                test.same(other_test)
                    && (Stmt::same_list(on_true, other_true)
                        && Stmt::same_list(on_false, other_false))
            }
            (
                Stmt::While { test, body, .. },
                Stmt::While {
                    test: other_test,
                    body: other_body,
                    ..
                },
            ) => { test.same(other_test) && Stmt::same_list(body, other_body) }
            (
                Stmt::Hold { demands, body, .. },
                Stmt::Hold {
                    demands: other_demands,
                    body: other_body,
                    ..
                },
            ) => { same_demands(demands, other_demands) && Stmt::same_list(body, other_body) }
            (
                Stmt::Parbegin { arms, .. },
                Stmt::Parbegin {
                    arms: other_arms,
                    ..
                },
            ) => Stmt::same_arms(arms, other_arms),
            _ => false,
        }
    }

    /// Returns whether two lists are the same, offsets and lines included, in whatever memory they are.
    #[cycle(same)]
    #[tactic(auto, using(crate::proofs::Views::stmt_views))]
    pub fn same_list<B: Allocator>(stmts: &Vec<Stmt<A>, A>, others: &Vec<Stmt<B>, B>) -> bool
        ensures { IsTrue result ↔ (stmts_view stmts.now.items ≡ stmts_view others.now.items) }
    {
        if stmts.len() != others.len() {
            return false;
        }
        for (i, stmt) in stmts.iter().enumerate() {
            if !stmt.same(&others[i]) {
                return false;
            }
        }
        true
    }

    /// Returns whether the arms of two parbegins are the same.
    #[cycle(same)]
    #[tactic(auto, using(crate::proofs::Views::stmt_views))]
    fn same_arms<B: Allocator>(
        arms: &Vec<Vec<Stmt<A>, A>, A>,
        others: &Vec<Vec<Stmt<B>, B>, B>,
    ) -> bool
        ensures { IsTrue result ↔ (arms_view arms.now.items ≡ arms_view others.now.items) }
    {
        if arms.len() != others.len() {
            return false;
        }
        for (i, arm) in arms.iter().enumerate() {
            if !Stmt::same_list(arm, &others[i]) {
                return false;
            }
        }
        true
    }

    /// Returns the number of its nodes, itself included, or the greatest `u64` if there are more. Names,
    /// amounts, resources and the target of an assignment are none.
    #[cycle(nodes)]
    #[tactic(auto, using(crate::proofs::Views::stmt_views))]
    pub fn nodes(&self) -> u64
        ensures { result ≡ saturated (stmt_nodes (stmt_view self.now)) }
    {
        match self {
            Stmt::Assign { value, .. } => value.nodes().saturating_add(1),
            Stmt::Print { value, .. } => value.nodes().saturating_add(1),
            Stmt::If {
                test,
                on_true,
                on_false,
                ..
            } => test
                .nodes()
                .saturating_add(Stmt::list_nodes(on_true))
                .saturating_add(Stmt::list_nodes(on_false))
                .saturating_add(1),
            Stmt::While { test, body, .. } => test
                .nodes()
                .saturating_add(Stmt::list_nodes(body))
                .saturating_add(1),
            Stmt::Hold { body, .. } => Stmt::list_nodes(body).saturating_add(1),
            Stmt::Parbegin { arms, .. } => Stmt::arms_nodes(arms).saturating_add(1),
        }
    }

    /// Returns the number of nodes in a list, or the greatest `u64` if there are more.
    #[cycle(nodes)]
    #[tactic(auto, using(crate::proofs::Views::stmt_views))]
    pub fn list_nodes(stmts: &Vec<Stmt<A>, A>) -> u64
        ensures { result ≡ saturated (stmts_nodes (stmts_view stmts.now.items)) }
    {
        let mut total = 0u64;
        for stmt in stmts {
            total = total.saturating_add(stmt.nodes());
        }
        total
    }

    /// Returns the number of nodes in the arms of a parbegin, or the greatest `u64` if there are more.
    #[cycle(nodes)]
    #[tactic(auto, using(crate::proofs::Views::stmt_views))]
    fn arms_nodes(arms: &Vec<Vec<Stmt<A>, A>, A>) -> u64
        ensures { result ≡ saturated (arms_nodes (arms_view arms.now.items)) }
    {
        let mut total = 0u64;
        for arm in arms {
            total = total.saturating_add(Stmt::list_nodes(arm));
        }
        total
    }

    /// Returns its height, one more than of its highest expression or list. It stays at the greatest `u64`.
    #[cycle(height)]
    #[tactic(auto, using(crate::proofs::Views::stmt_views))]
    pub fn height(&self) -> u64
        ensures { result ≡ saturated (stmt_height (stmt_view self.now)) }
    {
        match self {
            Stmt::Assign { value, .. } => value.height().saturating_add(1),
            Stmt::Print { value, .. } => value.height().saturating_add(1),
            Stmt::If {
                test,
                on_true,
                on_false,
                ..
            } => test
                .height()
                .max(Stmt::list_height(on_true))
                .max(Stmt::list_height(on_false))
                .saturating_add(1),
            Stmt::While { test, body, .. } => {
                test.height().max(Stmt::list_height(body)).saturating_add(1)
            }
            Stmt::Hold { body, .. } => Stmt::list_height(body).saturating_add(1),
            Stmt::Parbegin { arms, .. } => Stmt::arms_height(arms).saturating_add(1),
        }
    }

    /// Returns the height of a list, that of its highest statement, and 0 if it is empty. It stays at the
    /// greatest `u64`.
    #[cycle(height)]
    #[tactic(auto, using(crate::proofs::Views::stmt_views))]
    pub fn list_height(stmts: &Vec<Stmt<A>, A>) -> u64
        ensures { result ≡ saturated (stmts_height (stmts_view stmts.now.items)) }
    {
        let mut highest = 0u64;
        for stmt in stmts {
            highest = highest.max(stmt.height());
        }
        highest
    }

    /// Returns the height of the highest arm, and 0 if there is none. It stays at the greatest `u64`.
    #[cycle(height)]
    #[tactic(auto, using(crate::proofs::Views::stmt_views))]
    fn arms_height(arms: &Vec<Vec<Stmt<A>, A>, A>) -> u64
        ensures { result ≡ saturated (arms_height (arms_view arms.now.items)) }
    {
        let mut highest = 0u64;
        for arm in arms {
            highest = highest.max(Stmt::list_height(arm));
        }
        highest
    }
}

impl<A: Allocator> Demand<A> {
    /// Returns the same amount of the same resource in memory of `alloc`. The error comes only if `alloc` is
    /// out of memory.
    pub fn copy_into<B: Allocator + Clone>(&self, alloc: &B) -> Result<Demand<B>, NoMemory>
        ensures { IfOk result (λ demand. demand_view demand ≡ demand_view self.now) }
    {
        Ok(Demand {
            amount: self.amount,
            resource: self.resource.copy_into(alloc)?,
        })
    }

    /// Returns whether the other amount and resource are the same, offsets included.
    pub fn same<B: Allocator>(&self, other: &Demand<B>) -> bool
        ensures { IsTrue result ↔ (demand_view self.now ≡ demand_view other.now) }
    {
        self.amount == other.amount && self.resource.same(&other.resource)
    }
}

fn copy_demands<A: Allocator, B: Allocator + Clone>(
    demands: &Vec<Demand<A>, A>,
    alloc: &B,
) -> Result<Vec<Demand<B>, B>, NoMemory>
    ensures { IfOk result (λ copy. map demand_view copy.items ≡ map demand_view demands.now.items) }
{
    let mut copy = Vec::new(alloc.clone()?);
    for demand in demands {
        copy.push(demand.copy_into(alloc)?)?;
    }
    Ok(copy)
}

fn same_demands<A: Allocator, B: Allocator>(
    demands: &Vec<Demand<A>, A>,
    others: &Vec<Demand<B>, B>,
) -> bool
    ensures { IsTrue result ↔ (map demand_view demands.now.items ≡ map demand_view others.now.items) }
{
    if demands.len() != others.len() {
        return false;
    }
    for (i, demand) in demands.iter().enumerate() {
        if !demand.same(&others[i]) {
            return false;
        }
    }
    true
}

/// Returns the line of a statement's first token, from 1.
pub fn line_of<A: Allocator>(stmt: &Stmt<A>) -> u32
    ensures { result ≡ stmt_line (stmt_view stmt.now) }
{
    match stmt {
        Stmt::Assign { line, .. }
        | Stmt::Print { line, .. }
        | Stmt::If { line, .. }
        | Stmt::While { line, .. }
        | Stmt::Hold { line, .. }
        | Stmt::Parbegin { line, .. } => *line,
    }
}
