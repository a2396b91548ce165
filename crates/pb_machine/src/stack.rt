//! The stack of an arm, and its slots.

ghost use Rattle.std.specs.Prelude.{◌≡◌, ◌↔◌, ◌+◌, ◌-◌, ◌<◌, ◌≤◌, [], ◌∷◌, length, reverse, slice_get, Some, IsTrue, IfOk};
ghost use Rattle.pb_machine.specs.Operands.{held};

use pb_base::NoMemory;
use smallvec::SmallVec;
use std::alloc::Global;
use std::marker::Model;

/// The operands of an arm. All slots that it may need are there from the start, usually eight or fewer, so
/// that a run can have them as one slice.
#[derive(Drop)]
pub struct Stack {
    /// The operands, the lowest first, and after them whatever was left there.
    pub(crate) slots: SmallVec<i64, 8>,
    /// How many operands there are.
    pub(crate) depth: usize,
}

impl Model for Stack {
    ghost use Rattle.std.specs.Prelude.{◌≤◌, length};
    ghost use Rattle.pb_machine.specs.Operands.{Operands, held};

    ghost Value = { Operands };

    ghost view = { λ s. record { items = held s.depth s.slots.items; room = length s.slots.items } };

    ghost invariant = { λ s. s.depth ≤ length s.slots.items };
}

/// Puts an operand on the first `depth`, for which there is a slot.
#[inline(always)]
pub(crate) fn put(slots: &mut [i64], depth: usize, value: i64)
    requires { depth < length slots.old }
    ensures items { held (depth + 1) slots.new ≡ value ∷ held depth slots.old }
    ensures room { length slots.new ≡ length slots.old }
{
    slots[depth] = value;
}

/// Returns the top one of the first `depth` operands.
#[inline(always)]
pub(crate) fn top(slots: &[i64], depth: usize) -> i64
    requires some { 0 < depth }
    requires within { depth ≤ length slots.now }
    ensures { held depth slots.now ≡ result ∷ held (depth - 1) slots.now }
{
    slots[depth - 1]
}

impl Stack {
    /// Returns an empty stack with room for `depth` operands.
    pub fn with_room(alloc: Global, depth: usize) -> Result<Stack, NoMemory>
        ensures items { IfOk result (λ stack. stack.items ≡ []) }
        ensures room { IfOk result (λ stack. depth ≤ stack.room) }
    {
        let slots = SmallVec::from_elem(alloc, 0, depth)?;
        Ok(Stack { slots, depth: 0 })
    }

    /// Returns the same operands, with the same room.
    pub fn copy(&self, alloc: Global) -> Result<Stack, NoMemory>
        ensures items { IfOk result (λ stack. stack.items ≡ self.now.items) }
        ensures room { IfOk result (λ stack. stack.room ≡ self.now.room) }
    {
        let slots = SmallVec::from_slice(alloc, self.slots.as_slice())?;
        Ok(Stack {
            slots,
            depth: self.depth,
        })
    }

    /// Takes over the operands of a stack, for which there is room.
    pub fn set_to(&mut self, other: &Stack)
        requires { length other.now.items ≤ self.old.room }
        ensures items { self.new.items ≡ other.now.items }
        ensures room { self.new.room ≡ self.old.room }
    {
        self.clear();
        for value in other.as_slice() {
            self.push(*value);
        }
    }

    /// Returns whether the operands are the same.
    pub fn same(&self, other: &Stack) -> bool
        ensures { IsTrue result ↔ (self.now.items ≡ other.now.items) }
    {
        self.as_slice() == other.as_slice()
    }

    /// Returns the operands, the lowest first.
    pub fn as_slice(&self) -> &[i64]
        ensures { result.now ≡ reverse self.now.items }
    {
        &self.slots.as_slice()[..self.depth]
    }

    /// Returns the operand with this many others on top of it.
    #[inline]
    pub fn below(&self, others: usize) -> i64
        requires { others < length self.now.items }
        ensures { slice_get self.now.items others ≡ Some result }
    {
        let operands = self.as_slice();
        operands[operands.len() - 1 - others]
    }

    /// Puts an operand on top, for which there is room.
    #[inline]
    pub fn push(&mut self, value: i64)
        requires { length self.old.items < self.old.room }
        ensures items { self.new.items ≡ value ∷ self.old.items }
        ensures room { self.new.room ≡ self.old.room }
    {
        put(self.slots.as_mut_slice(), self.depth, value);
        self.depth += 1;
    }

    /// Takes the top operand, if there is one.
    #[inline]
    pub fn pop(&mut self) -> i64
        requires { 0 < length self.old.items }
        ensures items { self.old.items ≡ result ∷ self.new.items }
        ensures room { self.new.room ≡ self.old.room }
    {
        let value = top(self.slots.as_slice(), self.depth);
        self.depth -= 1;
        value
    }

    /// Takes all operands.
    pub fn clear(&mut self)
        ensures items { self.new.items ≡ [] }
        ensures room { self.new.room ≡ self.old.room }
    {
        self.depth = 0;
    }
}
