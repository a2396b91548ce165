//! The parts of an input, each a text.

ghost use Rattle.std.specs.Prelude.{IfOk, map};
ghost use Rattle.pb_command_io.specs.Parts.{AreParts};

use pb_base::NoMemory;
use pb_command_io::first_part;
use std::alloc::Global;

/// Returns the parts of an input, which lines `%%` part. The error comes only if `alloc` is out of memory.
pub fn texts_of<'t>(alloc: Global, bytes: &'t [u8]) -> Result<Vec<&'t [u8]>, NoMemory>
    ensures { IfOk result (λ texts. AreParts bytes.now (map (λ text. text.now) texts.items)) }
{
    let mut texts = Vec::new(alloc);
    let mut rest = bytes;
    loop {
        let cut = first_part(rest);
        texts.push(cut.part)?;
        let Some(more) = cut.rest else {
            return Ok(texts);
        };
        rest = more;
    }
}
