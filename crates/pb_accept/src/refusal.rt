//! The line of what is refused, without a line feed. A fault that is out of memory has no line: it stays out of memory.

ghost use Rattle.std.specs.Prelude.{◌≡◌, ◌++◌, IfOk, OnOk, Some, option_map};
ghost use Rattle.pb_accept.specs.Causes.{cause_line, offset_text};
ghost use Rattle.pb_accept.specs.Refusals.{claims_line, kind_words as words_of_kind, limit_words as words_of_limit, names_line};

use crate::cause::{Cause, names_cause};
use pb_base::NoMemory;
use pb_base::writing::{put, put_name, put_number};
use pb_codegen::ClaimsFault;
use pb_names::{Kind, NameFault};
use pb_options::Code;
use std::alloc::Global;

/// Returns the line of a cause, without words after its offset.
pub fn cause_text(alloc: Global, cause: Cause) -> Result<Vec<u8>, NoMemory>
    ensures { IfOk result (λ text. text.items ≡ cause_line cause) }
{
    let mut text = Vec::from_slice(alloc, b"refused ")?;
    put(&mut text, cause.code.name().as_bytes())?;
    put_offset(&mut text, cause.at)?;
    Ok(text)
}

/// Appends an offset to `out`, if there is one.
fn put_offset(out: &mut Vec<u8>, at: Option<usize>) -> Result<(), NoMemory>
    ensures { OnOk result (out.new.items ≡ out.old.items ++ offset_text at) }
{
    match at {
        Some(at) => put_number(out, b" at ", at),
        None => Ok(()),
    }
}

/// Returns the line of a cause, or out of memory if there is none.
pub(crate) fn refusal_text(alloc: Global, cause: Option<Cause>) -> Result<Vec<u8>, NoMemory>
    ensures { IfOk result (λ text. option_map cause_line cause ≡ Some text.items) }
{
    match cause {
        Some(cause) => cause_text(alloc, cause),
        None => Err(NoMemory),
    }
}

/// Returns the words after the code of a fault of names: of what there are too many, if that is the fault.
pub(crate) fn limit_words(fault: NameFault) -> &'static [u8]
    ensures { result.now ≡ words_of_limit fault }
{
    match fault {
        NameFault::TooMany(kind) => kind_words(kind),
        NameFault::Twice(_)
        | NameFault::Unknown(_)
        | NameFault::Amount(_)
        | NameFault::Repeated(_)
        | NameFault::NoMemory => b"",
    }
}

/// Returns the words for what there are too many of.
fn kind_words(kind: Kind) -> &'static [u8]
    ensures { result.now ≡ words_of_kind kind }
{
    match kind {
        Kind::Processes => b" processes",
        Kind::Resources => b" resources",
        Kind::Integers => b" integers",
        Kind::Fork => b" fork",
        Kind::Arms => b" arms",
    }
}

/// Returns the line of a fault of names.
pub(crate) fn names_text(alloc: Global, fault: NameFault) -> Result<Vec<u8>, NoMemory>
    ensures { IfOk result (λ text. names_line fault ≡ Some text.items) }
{
    let mut text = refusal_text(alloc, names_cause(fault))?;
    put(&mut text, limit_words(fault))?;
    Ok(text)
}

/// Returns the line of a claim that is over its capital.
pub(crate) fn over_capital_text(alloc: Global, fault: &ClaimsFault) -> Result<Vec<u8>, NoMemory>
    ensures { IfOk result (λ text. text.items ≡ claims_line fault.now) }
{
    let cause = Cause {
        code: Code::C1,
        at: None,
    };
    let mut text = cause_text(alloc, cause)?;
    put_name(&mut text, b" ", &fault.process)?;
    put_name(&mut text, b" ", &fault.resource)?;
    put_number(&mut text, b" claim ", fault.claim)?;
    put_number(&mut text, b" capital ", u64::from(fault.capital))?;
    Ok(text)
}
