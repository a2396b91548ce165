//! The command `migrate`, over any input, teller and output.
ghost use Rattle.std.specs.Prelude.{◌≤◌, length};
ghost use Rattle.pb_accept.specs.Claims.{SaysOfAny};
ghost use Rattle.pb_accept.specs.Emissions.{SaysOfCode};
ghost use Rattle.pb_accept.specs.Migrations.{SaysOfMigration};
ghost use Rattle.pb_code.specs.View.{code_view, labels_view};
ghost use Rattle.pb_code.specs.declared.format.Format.TheVariants.{Two};
ghost use Rattle.pb_object.specs.Answers.{HasText};
ghost use Rattle.pb_voice.specs.Held.{at};
ghost use Rattle.pb_voice.specs.Tellings.{Answers, Speaks};

use crate::load::{load, tell_load_fault};
use crate::reading::read_or_tell;
use crate::said::Said;
use crate::teller::{Teller, tell_last};
use pb_base::limits::MAX_INPUT;
use pb_base::{Input, Output};
use pb_code::{Code, Labels};
use pb_command_io::Status;
use pb_object::write_object2;
use std::alloc::Global;

/// Tells the second format of this code, with these labels.
fn tell_second_format<O: Output, T: Teller>(
    alloc: Global,
    code: &Code,
    labels: &Labels,
    teller: &mut T,
    output: &mut O,
) -> Status
    requires { HasText Two (code_view code.now) (labels_view labels.now) }
    ensures { Speaks T.tells T.breaks (SaysOfCode Two (code_view code.now) (labels_view labels.now))
        (at O.written O.failures teller.old output.old) (at O.written O.failures teller.new output.new) result }
{
    match write_object2(alloc, code, labels) {
        Ok(text) => tell_last(teller, output, Said::Text(&text), Status::Done),
        Err(_) => tell_last(teller, output, Said::NoMemory, Status::Memory),
    }
}

/// Tells the second format of the object that the bytes spell, or its refusal.
fn tell_migration<O: Output, T: Teller>(
    alloc: Global,
    bytes: &[u8],
    teller: &mut T,
    output: &mut O,
) -> Status
    requires { length bytes.now ≤ MAX_INPUT }
    ensures { Speaks T.tells T.breaks (SaysOfAny SaysOfMigration bytes.now) (at O.written O.failures teller.old output.old)
        (at O.written O.failures teller.new output.new) result }
{
    match load(alloc, bytes) {
        Ok((verified, labels)) => {
            let status = tell_second_format(alloc, verified.code(), &labels, teller, output);
            drop(verified);
            drop(labels);
            status
        }
        Err(fault) => tell_load_fault(teller, output, fault),
    }
}

/// Tells the object on the input once more, in the second format, or its refusal: by its text,
/// or by the first fault of its code. From the first format integers get the names `v0`, `v1` and so on, and
/// no place a line.
///
/// After a read that failed nothing is told; after a write that failed, no more.
pub fn migrate_engine<I: Input, O: Output, T: Teller>(
    alloc: Global,
    input: &mut I,
    teller: &mut T,
    output: &mut O,
) -> Status
    ensures { Answers T.tells T.breaks (SaysOfAny SaysOfMigration) (I.rest input.old) (I.failures input.old) (I.failures input.new)
        (at O.written O.failures teller.old output.old) (at O.written O.failures teller.new output.new) result }
{
    match read_or_tell(alloc, input, teller, output) {
        Ok(bytes) => tell_migration(alloc, &bytes, teller, output),
        Err(status) => status,
    }
}
