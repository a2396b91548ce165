//! What a person is told of texts that are a program, with changes of the capital.

ghost use Rattle.std.specs.Prelude.{◌≡◌, ◌≤◌, IfOk, length, option_map};
ghost use Rattle.pb_base.specs.declared.limits.TheConstants.{MAX_INPUT as most};
ghost use Rattle.pb_names.specs.View.{resolved_view};
ghost use Rattle.pb_search_tool.specs.Messages.{TellsOfRead, change_message};

use pb_base::NoMemory;
use pb_base::writing::{put, put_name};
use pb_capitals::Change;
use pb_messages::{Reading, message_of};
use pb_names::Resolved;
use pb_plan_engine::undeclared;
use std::alloc::Global;

/// Returns the message of texts that are a program: with no changes of the capital those of the texts whose capital is too
/// little for a claim, else what is wrong with the changes.
pub(crate) fn read_message(
    alloc: Global,
    changes: &[Change],
    program: &Resolved<Global>,
    bytes: &[u8],
) -> Result<Vec<u8>, NoMemory>
    requires { length bytes.now ≤ most }
    ensures { IfOk result (λ message. TellsOfRead changes.now (resolved_view program.now) bytes.now message.items) }
{
    match changes {
        [] => message_of(alloc, Reading::Texts, bytes),
        [_, ..] => changes_message(alloc, undeclared(program, changes)),
    }
}

/// Returns the message of changes, of which this one names no resource; or if none is that one, of which a claim is over
/// the capital that it has with them.
fn changes_message(alloc: Global, unknown: Option<&Change>) -> Result<Vec<u8>, NoMemory>
    ensures { IfOk result (λ message. message.items ≡ change_message (option_map (λ change. change.now) unknown.entry)) }
{
    let mut message = Vec::new(alloc);
    match unknown {
        Some(change) => {
            put_name(
                &mut message,
                b"error N3: --capital names a resource that is not declared: ",
                change.resource.as_str().as_bytes(),
            )?;
            put(&mut message, b"\n")?;
        }
        None => put(
            &mut message,
            b"error C1: with the capitals of --capital there is too little for a claim\n  = hint: in the line `R capital C least L free F` of the plan C has to be at least L\n",
        )?,
    }
    Ok(message)
}
