//! One program in three kinds of memory.

use crate::trees::{Part, made_of};
use bumpalo::Bump;
use linked_list_allocator::LocalHeap;
use pb_base::{BinaryOp, UnaryOp};
use pb_tree::{Program, line_of};
use std::alloc::Global;

/// A resource t = 4, and a process p with an integer x and a loop.
const PROGRAM: [Part; 31] = [
    Part::Resource(b"t", 9, 4, 13),
    Part::Integer(b"x", 24),
    Part::List,
    // while not x < 3 do
    Part::Variable(b"x", 40),
    Part::Number(3, 40),
    Part::Binary(BinaryOp::Less),
    Part::Unary(UnaryOp::Not),
    Part::List,
    // hold 1 of t, 2 of u do parbegin
    Part::Demand(1, 60, b"t", 60),
    Part::Demand(2, 68, b"u", 68),
    Part::List,
    // x := x + 1;
    Part::List,
    Part::Variable(b"x", 86),
    Part::Number(1, 86),
    Part::Binary(BinaryOp::Add),
    Part::Assign(4, b"x", 81),
    Part::Arm,
    // if x = 3 then print x else skip fi
    Part::List,
    Part::Variable(b"x", 95),
    Part::Number(3, 95),
    Part::Binary(BinaryOp::Equal),
    Part::List,
    Part::Variable(b"x", 110),
    Part::Print(5),
    Part::List,
    Part::If(5),
    Part::Arm,
    // parend od od
    Part::Parbegin(3),
    Part::Hold(3),
    Part::While(2),
    Part::Process(b"p", 8),
];

/// Returns whether the statements of all processes are in this line.
fn are_in_line(program: &Program<Global>, line: u32) -> bool {
    for process in &program.processes {
        for stmt in &process.body {
            if line_of(stmt) != line {
                return false;
            }
        }
    }
    true
}

/// Returns whether a copy of a program from an arena is the same as another program, and no more without a
/// resource.
fn comes_back(alloc: Global, arena: &Program<&Bump>, global: &Program<Global>) -> Option<bool> {
    let mut back = arena.copy_into(alloc).ok()?;
    let is_same = back.same(global);
    back.resources.pop();
    Some(is_same && !back.same(global))
}

/// Returns whether the program is the same in an arena and in a heap, and copied into the arena and back.
fn is_same(alloc: Global, global: &Program<Global>) -> Option<bool> {
    let bump = Bump::new(alloc);
    let heap = LocalHeap::new(alloc, 16384).ok()?;
    let arena = made_of(&bump, &PROGRAM)?;
    let fixed = made_of(&heap, &PROGRAM)?;
    let copy = global.copy_into(&bump).ok()?;
    Some(
        global.same(&arena)
            && arena.same(&fixed)
            && fixed.same(global)
            // the loop, the hold, the parbegin, :=, +, a number
            && fixed.height() == 6
            && copy.same(&fixed)
            && comes_back(alloc, &arena, global)?,
    )
}

/// Returns whether there is no room for the program in a small heap.
fn has_no_room(alloc: Global, global: &Program<Global>) -> Option<bool> {
    let small = LocalHeap::new(alloc, 256).ok()?;
    let copy = global.copy_into(&small);
    Some(copy.is_err())
}

#[test]
fn lies_anywhere(rt: HostRuntime) {
    let Some(global) = made_of(rt.alloc(), &PROGRAM) else {
        panic!(rt; "no program")
    };
    assert!(rt; is_same(rt.alloc(), &global) == Some(true));
    // the process, the loop, not, <, x, 3, the hold, the parbegin, :=, +, x, 1, the if, =, x, 3, print, x
    assert!(rt; global.nodes() == 18 && are_in_line(&global, 2));
    assert!(rt; has_no_room(rt.alloc(), &global) == Some(true));
}
