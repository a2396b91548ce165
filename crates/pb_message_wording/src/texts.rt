//! The wording of a fault of a text.

use crate::holds::claims_wording;
use crate::names::names_wording;
use pb_base::NoMemory;
use pb_codegen::CompileFault;
use pb_lexer::{LexFault, lex};
use pb_message_syntax::characters::bad_byte;
use pb_message_syntax::syntax::parse_wording;
use pb_mistakes::Wording;
use std::alloc::Global;

/// Returns the wording of a fault of a text.
pub fn text_wording(alloc: Global, text: &[u8], fault: &CompileFault) -> Result<Wording, NoMemory> {
    if text.starts_with(b"PBO ") {
        return Ok(Wording::noted(
            alloc,
            "this is an object, and not a program",
            "hint: exec runs an object, debug reads its runs, and migrate writes it in the second format",
        ));
    }
    if let CompileFault::Lex(fault) = fault {
        return lex_wording(alloc, text, *fault);
    }
    let Ok(tokens) = lex(alloc, text) else {
        return Err(NoMemory);
    };
    match fault {
        CompileFault::Parse(fault) => parse_wording(alloc, text, *fault),
        CompileFault::Names(fault) => names_wording(alloc, &tokens, *fault),
        CompileFault::Claims(fault) => claims_wording(alloc, &tokens, fault),
        CompileFault::Lex(_) | CompileFault::Memory => Err(NoMemory),
    }
}

fn lex_wording(alloc: Global, text: &[u8], fault: LexFault) -> Result<Wording, NoMemory> {
    match fault {
        LexFault::TooLong => Ok(too_long(alloc, text.len())),
        LexFault::BadByte(at) => bad_byte(alloc, text, at),
        LexFault::NumberTooLarge(_) => Ok(Wording::noted(
            alloc,
            "the number is greater than 9223372036854775807",
            "hint: write a smaller number; the smallest integer is written -9223372036854775807 - 1",
        )),
        LexFault::NameTooLong(_) => Ok(Wording::of(alloc, "the name is longer than 32 bytes")),
        LexFault::NoMemory => Err(NoMemory),
    }
}

/// Returns the wording of a text of more bytes than are allowed.
fn too_long(alloc: Global, length: usize) -> Wording {
    let summary = format!(in alloc;
        "the text is {length} bytes long, and at most 65536 are allowed"
    );
    Wording::new(alloc, summary)
}
