//! The command `debug`, by its options.

ghost use Rattle.std.specs.Prelude.{◌≢◌, IfSome};
ghost use Rattle.pb_command_io.specs.Answers.{Tells};
ghost use Rattle.pb_command_io.specs.Faults.{TellsAnyFault};
ghost use Rattle.pb_debug_tool.specs.Debug.{leaves_of_commands, says_of_commands};
ghost use Rattle.pb_options.specs.Lends.{lending_for};

use pb_base::{Input, Output};
use pb_command_io::Status;
use pb_debug_engine::{debug_engine, debug_live_engine};
use pb_options::DebugOptions;
use std::alloc::Global;

/// Debugs by the engine that reads the commands as they come, or by the one that reads its input whole.
pub fn debug<I: Input, O: Output>(
    alloc: Global,
    flags: DebugOptions,
    input: &mut I,
    output: &mut O,
) -> Status
    ensures text { IfSome (I.rest input.old) (λ bytes.
        Tells (says_of_commands flags.live (lending_for flags.lend) bytes) (O.written output.old) (O.written output.new) result) }
    ensures faults { TellsAnyFault
        (record { reads = I.failures input.old; writes = O.failures output.old; written = O.written output.old })
        (record { reads = I.failures input.new; writes = O.failures output.new; written = O.written output.new })
        result }
    ensures read { I.failures input.new ≢ I.failures input.old →
        leaves_of_commands flags.live (lending_for flags.lend) (I.rest input.old) (I.rest input.new) (O.written output.old) (O.written output.new) }
{
    let lending = flags.lend.lending();
    if flags.live {
        debug_live_engine(alloc, lending, input, output)
    } else {
        debug_engine(alloc, lending, input, output)
    }
}
