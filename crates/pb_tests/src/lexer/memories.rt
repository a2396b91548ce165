//! Texts cut in little memory.

use crate::texts::repeated;
use linked_list_allocator::LocalHeap;
use pb_lexer::{Kind, LexFault, Mark, Token, lex};
use std::alloc::Global;

/// Returns whether the tokens are these brackets, one after the other.
fn are_brackets(tokens: &[Token<'_>], brackets: usize) -> bool {
    for (at, token) in tokens.iter().enumerate() {
        if token.kind() != Kind::Mark(Mark::Open) || token.start() != at {
            return false;
        }
    }
    tokens.len() == brackets
}

/// Returns whether a text of `brackets` brackets is cut in a heap of `size` bytes; if not, it is out of
/// memory. Returns nothing if it is cut otherwise, or for another fault.
fn fits(alloc: Global, size: usize, text: &[u8], brackets: usize) -> Option<bool> {
    let Ok(heap) = LocalHeap::new(alloc, size) else {
        return None;
    };
    let (is_made, is_as_told) = match lex(&heap, text) {
        Ok(tokens) => (true, are_brackets(tokens.as_slice(), brackets)),
        Err(fault) => (false, fault == LexFault::NoMemory && heap.used() == 0),
    };
    if is_as_told { Some(is_made) } else { None }
}

/// Returns the greatest heap that is too small for the brackets, in units of 16 bytes.
fn too_small(alloc: Global) -> Option<usize> {
    // Room for 8 tokens is asked for first, and then for 16, 32 and 64.
    let text = [b'('; 64];
    let mut too_small = 0;
    for turn in 4..4_096 {
        if fits(alloc, 16 * turn, &text, text.len())? {
            break;
        }
        too_small = turn;
    }
    Some(too_small)
}

fn runs_out_of_memory(alloc: Global) -> Option<bool> {
    let too_small = too_small(alloc)?;
    Some(too_small > 100 && too_small < 4_000)
}

#[test]
fn runs_out_of_memory_and_fails_for_nothing_else(rt: HostRuntime) {
    assert!(rt; runs_out_of_memory(rt.alloc()) == Some(true));
}

/// Returns the fault of a text of 65,537 blanks without memory.
fn fault_of_blanks(alloc: Global) -> Option<LexFault> {
    let text = repeated(alloc, b"", b" ", 65_537, b"").ok()?;
    let heap = LocalHeap::new(alloc, 64).ok()?;
    match lex(&heap, text.as_slice()) {
        Ok(_) => None,
        Err(fault) => Some(fault),
    }
}

#[test]
fn tells_a_long_text_without_memory(rt: HostRuntime) {
    assert!(rt; fault_of_blanks(rt.alloc()) == Some(LexFault::TooLong));
}
