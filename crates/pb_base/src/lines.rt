//! The line that each event prints.

ghost use Rattle.std.specs.Prelude.{◌≡◌, ◌++◌, IfOk, OnOk};
ghost use Rattle.pb_base.specs.Lines.{names_view, fault_text, line_of, HasNames};

use crate::bundle::Bundle;
use crate::event::Event;
use crate::memory::NoMemory;
use crate::names::Names;
use crate::operators::FaultKind;
use crate::writing::{put, put_digits, put_pairs, put_pick, put_process};
use std::alloc::Global;

/// Room that most lines fit in.
const USUAL_LENGTH: usize = 48;

/// Returns the line of an event, without the line feed at its end: the process and the arm of its pick, a
/// word for what happened, and what it was, as in `P.0 grant 3 R`, `P.0 return 3 R`, `P.1 print -5`, `P.0
/// fault divide` and `P end`.
#[tactic(auto, unfolding(crate::specs::Lines::line_of))]
pub fn event_line(alloc: Global, names: &Names, event: &Event) -> Result<Vec<u8>, NoMemory>
    requires { HasNames (names_view names.now) event.now }
    ensures { IfOk result (λ line. line.items ≡ line_of (names_view names.now) event.now) }
{
    let mut line = Vec::with_capacity(alloc, USUAL_LENGTH)?;
    match event {
        Event::Granted { pick, bundle } => {
            put_pick(&mut line, names, *pick)?;
            put(&mut line, b" grant")?;
            put_pairs(&mut line, names, bundle)?;
        }
        Event::Returned { pick, bundle } => {
            put_pick(&mut line, names, *pick)?;
            put(&mut line, b" return")?;
            put_pairs(&mut line, names, bundle)?;
        }
        Event::Printed { pick, value } => {
            put_pick(&mut line, names, *pick)?;
            put(&mut line, b" print ")?;
            put_digits(&mut line, *value)?;
        }
        Event::Faulted { pick, kind } => {
            put_pick(&mut line, names, *pick)?;
            put(&mut line, b" fault ")?;
            put_fault(&mut line, *kind)?;
        }
        Event::Finished { process } => {
            put_process(&mut line, names, *process)?;
            put(&mut line, b" end")?;
        }
    }
    Ok(line)
}

/// Appends the word for a fault to `out`.
fn put_fault(out: &mut Vec<u8>, kind: FaultKind) -> Result<(), NoMemory>
    ensures { OnOk result (out.new.items ≡ out.old.items ++ fault_text kind) }
{
    match kind {
        FaultKind::Divide => put(out, b"divide"),
        FaultKind::Overflow => put(out, b"overflow"),
    }
}
