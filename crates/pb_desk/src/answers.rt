//! Texts of what the desk of the bank says.

ghost use Rattle.std.specs.Prelude.{◌≡◌, ◌++◌, IfOk, OnOk};
ghost use Rattle.std.specs.List.{flat_map};
ghost use Rattle.pb_base.specs.Lines.{names_view};
ghost use Rattle.pb_bank.specs.Sayings.{sayings_of};
ghost use Rattle.pb_bank.specs.Tables.{line_of};
ghost use Rattle.pb_bank.specs.Words.{words_of};
ghost use Rattle.pb_desk.specs.Applies.{Says};
ghost use Rattle.pb_desk.specs.Services.{answer_text};

use pb_bank::{Desk, Said, after_command, put_line_of};
use pb_base::{Names, NoMemory};
use std::alloc::Global;

/// Asks the desk of the bank, and returns what it says.
pub(crate) fn ask(desk: &mut Desk, alloc: Global, line: &[u8]) -> Result<Vec<Said>, NoMemory>
    ensures { IfOk result (λ said. Says desk.old line.now said.items desk.new) }
{
    let mut said = Vec::new(alloc);
    desk.answer(&mut said, line)?;
    Ok(said)
}

/// Appends the lines of things that are said of a command after which this text stands.
fn put_lines(out: &mut Vec<u8>, names: &Names, text: &[u8], all: &[Said]) -> Result<(), NoMemory>
    ensures { OnOk result (out.new.items
        ≡ out.old.items ++ flat_map line_of (sayings_of (names_view names.now) (words_of text.now) all.now)) }
{
    for said in all {
        put_line_of(out, names, text, said)?;
    }
    Ok(())
}

/// Returns the text of what the desk said of a line.
pub(crate) fn text_of(
    desk: &Desk,
    alloc: Global,
    line: &[u8],
    said: &[Said],
) -> Result<Vec<u8>, NoMemory>
    ensures { IfOk result (λ text. text.items ≡ answer_text desk.now line.now said.now) }
{
    let mut text = Vec::new(alloc);
    put_lines(&mut text, desk.names(), after_command(line), said)?;
    Ok(text)
}

/// Returns a copy of a text.
pub(crate) fn copy_of(alloc: Global, text: &[u8]) -> Result<Vec<u8>, NoMemory>
    ensures { IfOk result (λ copy. copy.items ≡ text.now) }
{
    Ok(Vec::from_slice(alloc, text)?)
}
