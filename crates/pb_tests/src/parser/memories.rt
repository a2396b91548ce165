//! The tree of a program is the same in whatever memory it is.

use super::{places, texts};
use crate::texts::{EXAMPLES, PROGRAMS, arms, idle, repeated};
use bumpalo::Bump;
use linked_list_allocator::LocalHeap;
use pb_base::NoMemory;
use pb_lexer::{Token, lex};
use pb_parser::{ParseFault, parse};
use pb_tree::Program;
use std::alloc::Global;

/// Returns whether the tokens are parsed in an arena, as the same tree.
fn is_same_in_arena(alloc: Global, tokens: &[Token<'_>], global: &Program<Global>) -> bool {
    let bump = Bump::new(alloc);
    let empty = bump.allocated_bytes();
    match parse(&bump, tokens) {
        Ok(arena) => bump.allocated_bytes() > empty && global.same(&arena),
        Err(_) => false,
    }
}

/// Returns whether the tokens are parsed in a heap, as the same tree. Each node takes more than eight bytes.
fn is_same_in_heap(heap: &LocalHeap, tokens: &[Token<'_>], global: &Program<Global>) -> bool {
    match parse(heap, tokens) {
        Ok(fixed) => heap.used() as u64 / 8 > global.nodes() && global.same(&fixed),
        Err(_) => false,
    }
}

/// Returns whether the tree of the text is in memory of the machine, in an arena and in the heap, and is
/// the same in each.
fn is_same(alloc: Global, heap: &LocalHeap, text: &[u8]) -> bool {
    let Ok(tokens) = lex(alloc, text) else {
        return false;
    };
    match parse(alloc, tokens.as_slice()) {
        Ok(global) => {
            is_same_in_arena(alloc, tokens.as_slice(), &global)
                && is_same_in_heap(heap, tokens.as_slice(), &global)
                && heap.used() == 0
        }
        Err(_) => false,
    }
}

fn are_same(alloc: Global, heap: &LocalHeap, texts: &[&[u8]]) -> bool {
    for text in texts {
        if !is_same(alloc, heap, text) {
            return false;
        }
    }
    true
}

fn is_same_if_made(alloc: Global, heap: &LocalHeap, text: Result<Vec<u8>, NoMemory>) -> bool {
    match text {
        Ok(text) => is_same(alloc, heap, text.as_slice()),
        Err(_) => false,
    }
}

fn are_same_if_made(alloc: Global, heap: &LocalHeap) -> bool {
    is_same_if_made(alloc, heap, idle(alloc, 33))
        && is_same_if_made(alloc, heap, idle(alloc, 64))
        && is_same_if_made(alloc, heap, idle(alloc, 65))
        && is_same_if_made(alloc, heap, arms(alloc, 14))
        && is_same_if_made(alloc, heap, arms(alloc, 15))
}

fn are_same_if_long(alloc: Global, heap: &LocalHeap) -> bool {
    for (head, piece, count, tail) in &texts::LONG {
        if !is_same_if_made(alloc, heap, repeated(alloc, *head, *piece, *count, *tail)) {
            return false;
        }
    }
    true
}

#[test]
fn makes_the_same_tree_in_each_memory(rt: HostRuntime) {
    let Ok(heap) = LocalHeap::new(rt.alloc(), 1_048_576) else {
        panic!(rt; "out of memory")
    };
    assert!(rt; is_same(rt.alloc(), &heap, super::TEXT));
    assert!(rt; are_same(rt.alloc(), &heap, &EXAMPLES));
    assert!(rt; are_same(rt.alloc(), &heap, &PROGRAMS));
    assert!(rt; are_same(rt.alloc(), &heap, &texts::REFUSED));
    assert!(rt; are_same_if_made(rt.alloc(), &heap));
    assert!(rt; are_same_if_long(rt.alloc(), &heap));
}

/// Returns whether the tokens are parsed in a heap of `size` bytes; if not, they are out of memory. Returns
/// nothing if the tree is not the expected one, or for another fault.
fn fits(
    alloc: Global,
    size: usize,
    tokens: &[Token<'_>],
    expected: &Program<Global>,
) -> Option<bool> {
    let Ok(heap) = LocalHeap::new(alloc, size) else {
        return None;
    };
    let (is_made, is_as_told) = match parse(&heap, tokens) {
        Ok(program) => (true, program.same(expected)),
        Err(fault) => (false, fault == ParseFault::NoMemory && heap.used() == 0),
    };
    if is_as_told { Some(is_made) } else { None }
}

/// Returns the greatest heap that is too small for the tokens, in units of 16 bytes.
fn too_small(alloc: Global, tokens: &[Token<'_>], expected: &Program<Global>) -> Option<usize> {
    let mut too_small = 0;
    // No request is of less than 16 bytes, so each heap has room for at most one more than the one before.
    for turn in 4..4_096 {
        if fits(alloc, 16 * turn, tokens, expected)? {
            break;
        }
        too_small = turn;
    }
    Some(too_small)
}

fn runs_out_of_memory(alloc: Global) -> Option<bool> {
    let tokens = lex(alloc, places::TEXT).ok()?;
    let expected = parse(alloc, tokens.as_slice()).ok()?;
    let too_small = too_small(alloc, tokens.as_slice(), &expected)?;
    Some(too_small > 300 && too_small < 4_000)
}

#[test]
fn runs_out_of_memory_and_fails_for_nothing_else(rt: HostRuntime) {
    assert!(rt; runs_out_of_memory(rt.alloc()) == Some(true));
}
