//! The commands, written in a form.

ghost use Rattle.std.specs.Prelude.{◌≡◌, IfSome};
ghost use Rattle.pb_accept.specs.Checks.{SaysOfChecks};
ghost use Rattle.pb_accept.specs.Claims.{SaysOfAny, SaysOfClaims};
ghost use Rattle.pb_accept.specs.Emissions.{SaysOfEmission};
ghost use Rattle.pb_accept.specs.Migrations.{SaysOfMigration};
ghost use Rattle.pb_accept.specs.Objects.{text_of};
ghost use Rattle.pb_accept.specs.Replays.{SaysOfReplay};
ghost use Rattle.pb_command_io.specs.Answers.{Tells};
ghost use Rattle.pb_command_io.specs.Faults.{TellsFaults};
ghost use Rattle.pb_options.specs.Lends.{lending_for};
ghost use Rattle.pb_voice.specs.Voices.{Written};

use crate::check::check_engine;
use crate::claims::claims_engine;
use crate::emit::emit_engine;
use crate::migrate::migrate_engine;
use crate::replay::replay_engine;
use pb_base::{Input, Output};
use pb_command_io::Status;
use pb_options::{CheckOptions, EmitOptions, ReplayOptions};
use pb_voice::{Form, Voice};
use std::alloc::Global;

/// Writes what `check` says of the texts that the input holds, in a form.
///
/// After a read that failed nothing is written; after a write that failed, a first part.
pub fn write_checks<I: Input, O: Output>(
    alloc: Global,
    form: Form,
    options: CheckOptions,
    input: &mut I,
    output: &mut O,
) -> Status
    ensures text { IfSome (I.rest input.old) (λ bytes.
        Tells (Written (text_of form) (SaysOfAny (SaysOfChecks options.warn)) bytes) (O.written output.old) (O.written output.new) result) }
    ensures faults { TellsFaults
        (record { reads = I.failures input.old; writes = O.failures output.old; written = O.written output.old })
        (record { reads = I.failures input.new; writes = O.failures output.new; written = O.written output.new })
        result }
{
    let mut voice = Voice::new(alloc, form);
    let given = check_engine(alloc, options, input, &mut voice, output);
    voice.finish(output, given)
}

/// Writes what `claims` says of the text on the input, in a form.
///
/// After a read that failed nothing is written; after a write that failed, a first part.
pub fn write_claims<I: Input, O: Output>(
    alloc: Global,
    form: Form,
    input: &mut I,
    output: &mut O,
) -> Status
    ensures text { IfSome (I.rest input.old) (λ bytes.
        Tells (Written (text_of form) (SaysOfAny SaysOfClaims) bytes) (O.written output.old) (O.written output.new) result) }
    ensures faults { TellsFaults
        (record { reads = I.failures input.old; writes = O.failures output.old; written = O.written output.old })
        (record { reads = I.failures input.new; writes = O.failures output.new; written = O.written output.new })
        result }
{
    let mut voice = Voice::new(alloc, form);
    let given = claims_engine(alloc, input, &mut voice, output);
    voice.finish(output, given)
}

/// Writes what `emit` says of the text on the input: its object, or its refusal, in a form.
///
/// After a read that failed nothing is written; after a write that failed, a first part.
pub fn write_emission<I: Input, O: Output>(
    alloc: Global,
    form: Form,
    options: EmitOptions,
    input: &mut I,
    output: &mut O,
) -> Status
    ensures text { IfSome (I.rest input.old) (λ bytes.
        Tells (Written (text_of form) (SaysOfAny (SaysOfEmission options.object)) bytes) (O.written output.old) (O.written output.new) result) }
    ensures faults { TellsFaults
        (record { reads = I.failures input.old; writes = O.failures output.old; written = O.written output.old })
        (record { reads = I.failures input.new; writes = O.failures output.new; written = O.written output.new })
        result }
{
    let mut voice = Voice::new(alloc, form);
    let given = emit_engine(alloc, options, input, &mut voice, output);
    voice.finish(output, given)
}

/// Writes what `migrate` says of the object on the input: its text in the second format, or its refusal, in a form.
///
/// After a read that failed nothing is written; after a write that failed, a first part.
pub fn write_migration<I: Input, O: Output>(
    alloc: Global,
    form: Form,
    input: &mut I,
    output: &mut O,
) -> Status
    ensures text { IfSome (I.rest input.old) (λ bytes.
        Tells (Written (text_of form) (SaysOfAny SaysOfMigration) bytes) (O.written output.old) (O.written output.new) result) }
    ensures faults { TellsFaults
        (record { reads = I.failures input.old; writes = O.failures output.old; written = O.written output.old })
        (record { reads = I.failures input.new; writes = O.failures output.new; written = O.written output.new })
        result }
{
    let mut voice = Voice::new(alloc, form);
    let given = migrate_engine(alloc, input, &mut voice, output);
    voice.finish(output, given)
}

/// Writes what `replay` says of a text and the pick lines after it, in a form.
///
/// After a read that failed nothing is written; after a write that failed, a first part.
pub fn write_replay<I: Input, O: Output>(
    alloc: Global,
    form: Form,
    options: ReplayOptions,
    input: &mut I,
    output: &mut O,
) -> Status
    ensures text { IfSome (I.rest input.old) (λ bytes.
        Tells (Written (text_of form) (SaysOfAny (SaysOfReplay (lending_for options.lend))) bytes) (O.written output.old) (O.written output.new) result) }
    ensures faults { TellsFaults
        (record { reads = I.failures input.old; writes = O.failures output.old; written = O.written output.old })
        (record { reads = I.failures input.new; writes = O.failures output.new; written = O.written output.new })
        result }
{
    let mut voice = Voice::new(alloc, form);
    let given = replay_engine(alloc, options, input, &mut voice, output);
    voice.finish(output, given)
}
