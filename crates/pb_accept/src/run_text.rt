//! A text with the picks of a run after it.

ghost use Rattle.std.specs.Prelude.{◌≡◌, ◌↔◌, All, IfOk, IsTrue, codes};
ghost use Rattle.pb_base.specs.Lines.{HasProcess, line, names_view};
ghost use Rattle.pb_accept.specs.RunTexts.{EndsLine, IsEnded, SaysOfRunText};

use pb_base::limits::MAX_INPUT;
use pb_base::{Names, NoMemory};
use pb_command_io::{Reply, Status, refused};
use pb_history::CountedPick;
use pb_picks::write_picks;
use std::alloc::Global;

/// Returns the text with these picks after it, as `replay` reads it: the text, a line `%%`, and a line for each
/// pick with its count. If this would be longer than an input may be, it is the line `refused output`.
pub fn run_text(
    alloc: Global,
    text: &[u8],
    names: &Names,
    picks: &[CountedPick],
) -> Result<Reply, NoMemory>
    requires { All (λ c. HasProcess (names_view names.now) c.pick.process) picks.now }
    ensures { IfOk result (λ r. SaysOfRunText text.now (names_view names.now) picks.now r.text.items r.status) }
{
    let mut whole = ended(alloc, text)?;
    whole.extend_from_slice(b"%%\n")?;
    write_picks(&mut whole, names, picks)?;
    if whole.len() > MAX_INPUT {
        return too_long(alloc);
    }
    Ok(Reply {
        text: whole,
        status: Status::Done,
    })
}

/// Returns the reply that a text with the picks of a run is too long for an input.
pub fn too_long(alloc: Global) -> Result<Reply, NoMemory>
    ensures { IfOk result (λ r. (r.text.items ≡ line (codes "refused output")) × (r.status ≡ Status.Refused)) }
{
    let line = Vec::from_slice(alloc, b"refused output")?;
    refused(line)
}

/// Returns the text, with a line feed after it if it ends in none.
pub fn ended(alloc: Global, text: &[u8]) -> Result<Vec<u8>, NoMemory>
    ensures { IfOk result (λ whole. IsEnded text.now whole.items) }
{
    let mut whole = Vec::from_slice(alloc, text)?;
    if !ends_line(text) {
        whole.push(b'\n')?;
    }
    Ok(whole)
}

/// Returns whether the text ends in a line feed.
fn ends_line(text: &[u8]) -> bool
    ensures { IsTrue result ↔ EndsLine text.now }
{
    match text.last() {
        Some(last) => *last == b'\n',
        None => false,
    }
}
