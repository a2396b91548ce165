//! Programs numbered in little memory.

use crate::trees::read;
use linked_list_allocator::LocalHeap;
use pb_names::{NameFault, is_complete};
use pb_resolver::resolve;
use pb_tree::Program;
use std::alloc::Global;

/// Two processes that have one of each kind of statement, and several of each kind of name.
#[rattlefmt::skip]
const TEXT: &[u8] = b"resource tape = 3; resource disk = 2; process p begin integer x, y, z; x := -(y + 2) * z; \
while x < 3 do x := x + 1 od; if x = 3 then print x else y := 1 fi; hold 1 of tape, 2 of disk do \
parbegin print z; hold 1 of tape do skip od; parbegin print 1; print 2 parend parend od end \
process q begin integer a, b, c, d, e, f, g, h, i; hold 2 of disk do print a + i od end";

/// Returns whether the program is numbered in a heap; if not, it is out of memory. Returns nothing if it is
/// numbered otherwise, or for another fault.
fn fits_in<'a>(heap: &'a LocalHeap, tree: &Program<&'a LocalHeap>) -> Option<bool> {
    if !is_complete(tree) {
        return None;
    }
    let (is_made, is_as_told) = match resolve(heap, tree) {
        Ok(resolved) => (
            true,
            resolved.resources.len() == 2 && resolved.processes.len() == 2,
        ),
        Err(fault) => (false, fault == NameFault::NoMemory && heap.used() == 0),
    };
    if is_as_told { Some(is_made) } else { None }
}

/// Returns the same of a heap of `size` bytes.
fn fits(alloc: Global, size: usize, program: &Program<Global>) -> Option<bool> {
    let trees = LocalHeap::new(alloc, 65_536).ok()?;
    let heap = LocalHeap::new(alloc, size).ok()?;
    let tree = program.copy_into(&trees).ok()?;
    fits_in(&heap, &tree)
}

/// Returns the greatest heap that is too small for the program, in units of 16 bytes.
fn too_small(alloc: Global, program: &Program<Global>) -> Option<usize> {
    let mut too_small = 0;
    // No request is of less than 16 bytes, so each heap has room for at most one more than the one before.
    for turn in 4..4_096 {
        if fits(alloc, 16 * turn, program)? {
            break;
        }
        too_small = turn;
    }
    Some(too_small)
}

fn runs_out_of_memory(alloc: Global) -> Option<bool> {
    let program = read(alloc, TEXT)?;
    let too_small = too_small(alloc, &program)?;
    Some(too_small > 100 && too_small < 4_000)
}

#[test]
fn runs_out_of_memory_and_fails_for_nothing_else(rt: HostRuntime) {
    assert!(rt; runs_out_of_memory(rt.alloc()) == Some(true));
}
