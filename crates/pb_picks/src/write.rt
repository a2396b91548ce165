//! Pick lines, written.

ghost use Rattle.std.specs.Prelude.{◌≡◌, ◌++◌, ◌∷◌, [], All, OnOk, OnErr, length, take};
ghost use Rattle.pb_base.specs.Lines.{names_view, HasProcess};
ghost use Rattle.pb_picks.specs.PickLines.{pick_line, pick_lines};

use itoa::Buffer;
use pb_base::{Names, NoMemory};
use pb_history::CountedPick;

/// Appends the lines of these picks to a text, `P.a COUNT` and a line feed each, in their order. Each pick is
/// of a process that has a name. Out of memory leaves the text as it was.
pub fn write_picks(text: &mut Vec<u8>, names: &Names, picks: &[CountedPick]) -> Result<(), NoMemory>
    requires { All (λ c. HasProcess (names_view names.now) c.pick.process) picks.now }
    ensures ok { OnOk result
        (text.new.items ≡ text.old.items ++ pick_lines (names_view names.now).processes picks.now) }
    ensures err { OnErr result (text.new.items ≡ text.old.items) }
{
    let before = text.len();
    let written = put_picks(text, names, picks);
    if written.is_err() {
        text.truncate(before);
    }
    written
}

/// Appends the lines of these picks to a text. Out of memory leaves a first part of them after it.
fn put_picks(text: &mut Vec<u8>, names: &Names, picks: &[CountedPick]) -> Result<(), NoMemory>
    requires { All (λ c. HasProcess (names_view names.now) c.pick.process) picks.now }
    ensures ok { OnOk result
        (text.new.items ≡ text.old.items ++ pick_lines (names_view names.now).processes picks.now) }
    ensures err { OnErr result (take (length text.old.items) text.new.items ≡ text.old.items) }
{
    for i in 0..picks.len() {
        put_pick(text, names, picks[i])?;
    }
    Ok(())
}

/// Appends the line of a pick to a text. Out of memory leaves a first part of it after it.
fn put_pick(text: &mut Vec<u8>, names: &Names, counted: CountedPick) -> Result<(), NoMemory>
    requires { HasProcess (names_view names.now) counted.pick.process }
    ensures ok { OnOk result
        (text.new.items ≡ text.old.items ++ (pick_line (names_view names.now).processes counted ++ (10 ∷ []))) }
    ensures err { OnErr result (take (length text.old.items) text.new.items ≡ text.old.items) }
{
    let mut digits = Buffer::new();
    let CountedPick { pick, count } = counted;
    text.extend_from_slice(names.processes[pick.process as usize].as_slice())?;
    text.push(b'.')?;
    text.extend_from_slice(digits.format(pick.arm).as_bytes())?;
    text.push(b' ')?;
    text.extend_from_slice(digits.format(count).as_bytes())?;
    text.push(b'\n')?;
    Ok(())
}
