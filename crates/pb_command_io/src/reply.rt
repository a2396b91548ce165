//! A whole answer of a command, and how it is written.
ghost use Rattle.std.specs.Prelude.{◌≡◌, ◌≢◌, IfErr, IfOk, OnErr};
ghost use Rattle.pb_base.specs.Lines.{line};
ghost use Rattle.pb_command_io.specs.Answers.{Says, memory_line};
ghost use Rattle.pb_command_io.specs.declared.status.Status.TheVariants.{Device};
ghost use Rattle.pb_command_io.specs.Faults.{TellsWriteFaults};

use crate::page::Page;
use crate::status::Status;
use pb_base::{NoMemory, Output, write_all};
use std::alloc::Global;

/// All that a command says, and its status.
#[derive(Drop)]
pub struct Reply {
    pub text: Vec<u8>,
    pub status: Status,
    pub ghost no_fault: { status ≢ Device },
}

/// Writes a reply, or that it is out of memory.
pub fn tell<O: Output>(alloc: Global, reply: Result<Reply, NoMemory>, output: &mut O) -> Status
    ensures said { IfOk reply (λ r. Says (O.written output.old) (O.written output.new) r.text.items r.status result) }
    ensures memory { OnErr reply (Says (O.written output.old) (O.written output.new) memory_line Status.Memory result) }
    ensures faults { TellsWriteFaults (O.failures output.old) (O.failures output.new) result }
{
    let Ok(reply) = reply else {
        return Page::new(alloc).finish_with(output, b"memory", Status::Memory);
    };
    match write_all(output, reply.text.as_slice()) {
        Ok(()) => reply.status,
        Err(_) => Status::Device,
    }
}

/// Returns the reply of a refusal, which is this line.
pub fn refused(mut text: Vec<u8>) -> Result<Reply, NoMemory>
    ensures { IfOk result (λ r. (r.text.items ≡ line text.items) × (r.status ≡ Status.Refused)) }
{
    text.push(b'\n')?;
    Ok(Reply {
        text,
        status: Status::Refused,
    })
}
