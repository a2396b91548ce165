//! What is said of a line of a source.

ghost use Rattle.std.specs.Prelude.{◌≡◌, ◌++◌, OnOk, option_map};
ghost use Rattle.pb_debug_texts.specs.Texts as said;

use crate::text::{end_name, put_source_line};
use pb_base::NoMemory;
use pb_base::writing::{put, put_number};
use pb_debug_commands::line_numbered;

/// Appends the line that says that there is no text to a text.
fn put_no_text(text: &mut Vec<u8>) -> Result<(), NoMemory>
    ensures { OnOk result (text.new.items ≡ text.old.items ++ said.no_text) }
{
    put(text, b"no text\n")
}

/// Appends a line of a source to a text, with its number before it.
pub fn put_source(
    text: &mut Vec<u8>,
    source: Option<&[u8]>,
    line: Option<u32>,
) -> Result<(), NoMemory>
    ensures { OnOk result (text.new.items
        ≡ text.old.items ++ said.source_text (option_map (λ text. text.now) source.entry) line) }
{
    let Some(source) = source else {
        return put_no_text(text);
    };
    let Some(number) = line else {
        return put_source_line(text, None);
    };
    let Some(shown) = line_numbered(source, number) else {
        return put_no_text(text);
    };
    put_number(text, b"", number)?;
    end_name(text, b"| ", shown)
}
