//! Pick lines, written and read.

ghost use Rattle.std.specs.Bool.{OnTrue};
ghost use Rattle.std.specs.Prelude.{All};
ghost use Rattle.pb_base.specs.Lines.{HasProcess, names_view};

use crate::codes::{DEVICES, verified};
use pb_base::limits::MAX_PICKS;
use pb_base::{Names, Pick};
use pb_history::CountedPick;
use pb_picks::{PickFault, count_pick, read_picks, write_picks};
use std::alloc::Global;

/// Returns what lines say of the code over two devices.
fn read(alloc: Global, lines: &[u8]) -> Option<Result<Vec<CountedPick>, PickFault>> {
    let verified = verified(alloc, DEVICES)?;
    Some(read_picks(alloc, verified.code(), lines))
}

/// Returns the counted pick with this number that lines say, counted from 0.
fn said(alloc: Global, lines: &[u8], i: usize) -> Option<CountedPick> {
    let Ok(picks) = read(alloc, lines)? else {
        return None;
    };
    let counted = picks.get(i)?;
    Some(*counted)
}

/// Returns the fault of lines that say no picks.
fn fault(alloc: Global, lines: &[u8]) -> Option<PickFault> {
    match read(alloc, lines)? {
        Ok(_) => None,
        Err(fault) => Some(fault),
    }
}

#[test]
fn lines_say_counted_picks(rt: HostRuntime) {
    let lines = b"a.0 3\nb.0 9999997";
    let first = CountedPick {
        pick: Pick { process: 0, arm: 0 },
        count: 3,
    };
    let second = CountedPick {
        pick: Pick { process: 1, arm: 0 },
        count: 9_999_997,
    };
    assert!(rt; said(rt.alloc(), lines, 0) == Some(first));
    assert!(rt; said(rt.alloc(), lines, 1) == Some(second));
    assert!(rt; said(rt.alloc(), lines, 2) == None);
    assert!(rt; fault(rt.alloc(), lines) == None);
    assert!(rt; fault(rt.alloc(), b"") == None);
}

#[test]
fn the_first_faulty_line_decides(rt: HostRuntime) {
    let table = [
        (b"a.0 1\nb.1 1\n".as_slice(), PickFault::NotPicks(6)),
        (b"a.0 1\n\nb.0 1\n".as_slice(), PickFault::NotPicks(6)),
        (b"c.0 1\n".as_slice(), PickFault::NotPicks(0)),
        (b"a.0 0\n".as_slice(), PickFault::NotPicks(0)),
        (b"a.0 01\n".as_slice(), PickFault::NotPicks(0)),
        (b"a.0  1\n".as_slice(), PickFault::NotPicks(0)),
        (b"a.0 10000001\n".as_slice(), PickFault::NotPicks(0)),
        (b"a.0 1\nb.0 10000000\nc\n".as_slice(), PickFault::TooMany),
    ];
    for (lines, why) in table {
        assert!(rt; fault(rt.alloc(), lines) == Some(why));
    }
}

/// Returns the picks of a table counted one after another, or nothing if they can't be counted.
fn counted(alloc: Global, table: &[CountedPick]) -> Option<Vec<CountedPick>> {
    let mut picks = Vec::new(alloc);
    let mut left = MAX_PICKS;
    for i in 0..table.len() {
        let CountedPick { pick, count } = table[i];
        if count == 0 || count > left {
            return None;
        }
        count_pick(&mut picks, pick, count).ok()?;
        left -= count;
    }
    Some(picks)
}

/// Returns whether each pick is of a process that has a name.
fn have_names(names: &Names, picks: &[CountedPick]) -> bool
    ensures { OnTrue result (All (λ c. HasProcess (names_view names.now) c.pick.process) picks.now) }
{
    for i in 0..picks.len() {
        if usize::from(picks[i].pick.process) >= names.processes.len() {
            return false;
        }
    }
    true
}

/// Returns what the lines say that are written of these picks.
fn written_and_read(alloc: Global, picks: &[CountedPick]) -> Option<Vec<CountedPick>> {
    let verified = verified(alloc, DEVICES)?;
    let code = verified.code();
    if !have_names(&code.names, picks) {
        return None;
    }
    let mut text = Vec::new(alloc);
    write_picks(&mut text, &code.names, picks).ok()?;
    read_picks(alloc, code, text.as_slice()).ok()
}

/// Returns whether the picks of a table, counted, are these, and their lines say the same.
fn come_back(alloc: Global, table: &[CountedPick], wanted: &[CountedPick]) -> Option<bool> {
    let picks = counted(alloc, table)?;
    let read = written_and_read(alloc, picks.as_slice())?;
    Some(picks.as_slice() == wanted && read.as_slice() == wanted)
}

/// Returns a pick of the first arm of a process, made this often.
const fn times(process: u8, count: u32) -> CountedPick {
    CountedPick {
        pick: Pick { process, arm: 0 },
        count,
    }
}

#[test]
fn written_picks_are_read_back(rt: HostRuntime) {
    let table = [
        times(0, 3),
        times(1, 1),
        times(1, 9),
        times(0, 1),
        times(0, 9_999_986),
    ];
    let wanted = [times(0, 3), times(1, 10), times(0, 9_999_987)];
    assert!(rt; come_back(rt.alloc(), &table, &wanted) == Some(true));
    assert!(rt; come_back(rt.alloc(), &[], &[]) == Some(true));
}
