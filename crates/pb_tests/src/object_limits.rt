//! Objects at their limits are read, and those just beyond are refused at the line that is beyond.

use crate::texts::repeated;
use pb_base::NoMemory;
use pb_base::limits::MAX_INPUT;
use pb_object::{ObjectFault, read_any};
use std::alloc::Global;

/// All lines of an object of one process before those of its places.
const ONE_PROCESS: &[u8] =
    b"PBO 2\nresources 0\nprocesses 1\nprocess p\nvars 0\narms 1\nclaims\narm 0\n";

/// Returns the object of one process of `places` places, whose number is in this line.
fn one_process(alloc: Global, code: &[u8], places: usize) -> Result<Vec<u8>, NoMemory> {
    let head = repeated(alloc, ONE_PROCESS, code, 1, b"")?;
    repeated(alloc, head.as_slice(), b"0 end\n", places, b"")
}

/// Returns whether a text is an object of processes with these counts of places, and as many lines of their
/// labels.
fn has_places(alloc: Global, text: &[u8], counts: &[usize]) -> bool {
    let Ok((code, labels)) = read_any(alloc, text) else {
        return false;
    };
    if code.processes.len() != counts.len() || labels.processes.len() != counts.len() {
        return false;
    }
    for (p, count) in counts.iter().enumerate() {
        if code.processes[p].instrs.len() != *count || labels.processes[p].lines.len() != *count {
            return false;
        }
    }
    true
}

/// Returns the fault of a text, if it has one.
fn fault(alloc: Global, text: &[u8]) -> Option<ObjectFault> {
    match read_any(alloc, text) {
        Ok(_) => None,
        Err(fault) => Some(fault),
    }
}

#[test]
fn forty_thousand_places_are_read(rt: HostRuntime) {
    let Ok(text) = one_process(rt.alloc(), b"code 40000\n", 40_000) else {
        panic!(rt; "out of memory")
    };
    assert!(rt; has_places(rt.alloc(), &text, &[40_000]));
}

#[test]
fn one_place_more_is_refused(rt: HostRuntime) {
    let Ok(text) = one_process(rt.alloc(), b"code 40001\n", 40_001) else {
        panic!(rt; "out of memory")
    };
    assert!(rt; fault(rt.alloc(), &text) == Some(ObjectFault::Limit(ONE_PROCESS.len())));
}

#[test]
fn a_text_of_the_most_bytes_is_read(rt: HostRuntime) {
    let Ok(mut text) = repeated(rt.alloc(), b"", b"x", MAX_INPUT, b"") else {
        panic!(rt; "out of memory")
    };
    assert!(rt; fault(rt.alloc(), &text) == Some(ObjectFault::NotObject(0)));
    assert!(rt; text.push(b'x').is_ok());
    assert!(rt; fault(rt.alloc(), &text) == Some(ObjectFault::Limit(0)));
}

/// Returns an object of four processes whose places have lines of 32 bytes, of which the last process has
/// this name.
fn four_processes(alloc: Global, last: &str) -> Result<Vec<u8>, NoMemory> {
    let mut text = Vec::from_slice(alloc, b"PBO 2\nresources 0\nprocesses 4\n")?;
    for (name, places) in [("a", 40_000), ("b", 40_000), ("c", 40_000), (last, 11_065)] {
        let head = format!(in alloc;
            "process {name}\nvars 0\narms 1\nclaims\narm 0\ncode {places}\n"
        )?;
        text.extend_from_slice(head.as_bytes())?;
        for _ in 0..places {
            text.extend_from_slice(b"65536 push -9223372036854775808\n")?;
        }
    }
    Ok(text)
}

#[test]
fn an_object_of_the_most_bytes_is_read(rt: HostRuntime) {
    let Ok(text) = four_processes(rt.alloc(), "ddd") else {
        panic!(rt; "out of memory")
    };
    assert!(rt; text.len() == MAX_INPUT);
    assert!(rt; has_places(rt.alloc(), &text, &[40_000, 40_000, 40_000, 11_065]));
}

#[test]
fn an_object_of_one_byte_more_is_refused(rt: HostRuntime) {
    let Ok(text) = four_processes(rt.alloc(), "dddd") else {
        panic!(rt; "out of memory")
    };
    assert!(rt; text.len() == MAX_INPUT + 1);
    assert!(rt; fault(rt.alloc(), &text) == Some(ObjectFault::Limit(0)));
}

/// Returns an object of 64 processes of 64 arms.
fn most_arms(alloc: Global) -> Result<Vec<u8>, NoMemory> {
    let mut text = Vec::from_slice(alloc, b"PBO 2\nresources 0\nprocesses 64\n")?;
    for number in 0..64 {
        let head = format!(in alloc; "process a{number}\nvars 0\narms 64\nclaims\n")?;
        text.extend_from_slice(head.as_bytes())?;
        for _ in 0..64 {
            text.extend_from_slice(b"arm 0\n")?;
        }
        text.extend_from_slice(b"code 1\n0 end\n")?;
    }
    Ok(text)
}

/// Returns the number of arms of each process of an object of 64 processes, if all have as many.
fn arms_of_each(alloc: Global, text: &[u8]) -> Option<usize> {
    let (code, _) = read_any(alloc, text).ok()?;
    let arms = code.processes.first()?.entries.len();
    for process in &code.processes {
        if process.entries.len() != arms {
            return None;
        }
    }
    if code.processes.len() == 64 {
        Some(arms)
    } else {
        None
    }
}

#[test]
fn sixty_four_processes_of_sixty_four_arms_are_read(rt: HostRuntime) {
    let Ok(text) = most_arms(rt.alloc()) else {
        panic!(rt; "out of memory")
    };
    assert!(rt; arms_of_each(rt.alloc(), &text) == Some(64));
}
