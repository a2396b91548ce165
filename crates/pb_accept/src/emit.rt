//! The command `emit`, over any input, teller and output.
ghost use Rattle.std.specs.Prelude.{◌≤◌, IfOk, List, MatchOption, length};
ghost use Rattle.pb_code.specs.Limits.{AreLabels};
ghost use Rattle.pb_code.specs.Whole.{ProcessLabels};
ghost use Rattle.pb_code.specs.declared.format.Format.TheVariants.{One, Two};
ghost use Rattle.pb_accept.specs.Claims.{SaysOfAny};
ghost use Rattle.pb_accept.specs.Emissions.{IsBeyond, IsWrittenIn, SaysOfCode, SaysOfEmission};
ghost use Rattle.pb_voice.specs.Held.{at};
ghost use Rattle.pb_voice.specs.Tellings.{Answers, Speaks};

use crate::accept::code_of_text;
use crate::reading::read_or_tell;
use crate::said::Said;
use crate::teller::{Teller, tell_fault, tell_last};
use pb_base::limits::MAX_INPUT;
use pb_base::{Input, NoMemory, Output};
use pb_code::Format;
use pb_codegen::Compiled;
use pb_command_io::Status;
use pb_object::{fits_first_format, write_object, write_object2};
use pb_options::EmitOptions;
use pb_verifier::Verified;
use std::alloc::Global;

/// Returns the object in the first format, unless this can't say the code.
fn first_object(alloc: Global, verified: &Verified) -> Result<Option<Vec<u8>>, NoMemory>
    ensures { (labels : List ProcessLabels) → IfOk result (λ object. MatchOption object (IsBeyond One verified.now.code)
        (λ text. IsWrittenIn One verified.now.code labels text.items)) }
{
    let code = verified.code();
    if !fits_first_format(code) {
        return Ok(None);
    }
    let text = write_object(alloc, code)?;
    Ok(Some(text))
}

/// Returns the object in the second format.
fn second_object(alloc: Global, compiled: &Compiled) -> Result<Vec<u8>, NoMemory>
    requires { AreLabels compiled.now.verified.code compiled.now.labels }
    ensures { IfOk result (λ text. IsWrittenIn Two compiled.now.verified.code compiled.now.labels text.items) }
{
    let code = compiled.verified().code();
    write_object2(alloc, code, compiled.labels())
}

/// Returns the object in this format, unless that is the first, which can't say the code.
fn object(alloc: Global, format: Format, compiled: &Compiled) -> Result<Option<Vec<u8>>, NoMemory>
    requires { AreLabels compiled.now.verified.code compiled.now.labels }
    ensures { IfOk result (λ object. MatchOption object (IsBeyond format compiled.now.verified.code)
        (λ text. IsWrittenIn format compiled.now.verified.code compiled.now.labels text.items)) }
{
    match format {
        Format::One => first_object(alloc, compiled.verified()),
        Format::Two => {
            let text = second_object(alloc, compiled)?;
            Ok(Some(text))
        }
    }
}

/// Tells the object of compiled code.
fn tell_compiled<O: Output, T: Teller>(
    alloc: Global,
    format: Format,
    compiled: &Compiled,
    teller: &mut T,
    output: &mut O,
) -> Status
    requires { AreLabels compiled.now.verified.code compiled.now.labels }
    ensures { Speaks T.tells T.breaks (SaysOfCode format compiled.now.verified.code compiled.now.labels)
        (at O.written O.failures teller.old output.old) (at O.written O.failures teller.new output.new) result }
{
    match object(alloc, format, compiled) {
        Ok(Some(text)) => tell_last(teller, output, Said::Text(&text), Status::Done),
        Ok(None) => tell_last(teller, output, Said::BeyondFirst, Status::Refused),
        Err(_) => tell_last(teller, output, Said::NoMemory, Status::Memory),
    }
}

/// Tells the object of a text.
fn emit_text<O: Output, T: Teller>(
    alloc: Global,
    format: Format,
    text: &[u8],
    teller: &mut T,
    output: &mut O,
) -> Status
    requires { length text.now ≤ MAX_INPUT }
    ensures { Speaks T.tells T.breaks (SaysOfAny (SaysOfEmission format) text.now) (at O.written O.failures teller.old output.old)
        (at O.written O.failures teller.new output.new) result }
{
    match code_of_text(alloc, text) {
        Ok(compiled) => {
            let status = tell_compiled(alloc, format, &compiled, teller, output);
            drop(compiled);
            status
        }
        Err(fault) => tell_fault(teller, output, &fault),
    }
}

/// Compiles the text that the input holds and tells its object in the format asked for. For a text that is
/// refused it tells the refusal; for one whose code has more than 32 processes, or takes several
/// resources at once, that the first format can't have it, if that was asked for.
///
/// After a read that failed nothing is told; after a write that failed, no more.
pub fn emit_engine<I: Input, O: Output, T: Teller>(
    alloc: Global,
    options: EmitOptions,
    input: &mut I,
    teller: &mut T,
    output: &mut O,
) -> Status
    ensures { Answers T.tells T.breaks (SaysOfAny (SaysOfEmission options.object)) (I.rest input.old) (I.failures input.old)
        (I.failures input.new) (at O.written O.failures teller.old output.old) (at O.written O.failures teller.new output.new) result }
{
    match read_or_tell(alloc, input, teller, output) {
        Ok(bytes) => emit_text(alloc, options.object, &bytes, teller, output),
        Err(status) => status,
    }
}
