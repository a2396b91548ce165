//! Writes replies.

ghost use Rattle.std.specs.Prelude.{◌≡◌, ◌++◌, IfErr, OnOk, false};
ghost use Rattle.serde_json.specs.View.{view};
ghost use Rattle.serde_json.specs.Written.{has_float};
ghost use Rattle.pb_base.specs.Device.{appended};
ghost use Rattle.pb_conversations.specs.Conversations.{AreFloatFree, CountsWrites, WritesReply, message_text, texts};
ghost use Rattle.pb_server.specs.Responses.{told_by};

use pb_base::{NoMemory, Output, write_all};
use pb_conversations::{Said, Stop};
use pb_frames::write_frame;
use serde_json::Value;
use std::alloc::Global;

/// Appends a message to a page.
#[tactic(auto, unfolding(pb_conversations::specs::Conversations::message_text))]
fn put_message(alloc: Global, page: &mut Said, message: &Value) -> Result<(), NoMemory>
    requires { has_float (view message.now) ≡ false }
    ensures { OnOk result (page.new.bytes ≡ page.old.bytes ++ message_text (view message.now)) }
{
    let content = message.to_vec(alloc)?;
    match write_frame(alloc, page, &content) {
        Ok(()) => Ok(()),
        Err(_) => Err(NoMemory),
    }
}

/// Appends the message of a reply to a page, if it has one.
fn put_reply(alloc: Global, page: &mut Said, reply: &Option<Value>) -> Result<(), NoMemory>
    requires { AreFloatFree (told_by reply.now) }
    ensures { OnOk result (page.new.bytes ≡ page.old.bytes ++ texts (told_by reply.now)) }
{
    match reply {
        Some(message) => put_message(alloc, page, message),
        None => Ok(()),
    }
}

/// Writes a reply, once its message is made.
pub fn write_reply<O: Output>(
    alloc: Global,
    output: &mut O,
    reply: &Option<Value>,
) -> Result<(), Stop>
    requires { AreFloatFree (told_by reply.now) }
    ensures written { OnOk result (O.written output.new ≡ appended (O.written output.old) (texts (told_by reply.now))) }
    ensures some { IfErr result (λ e. WritesReply e (told_by reply.now) (O.written output.old) (O.written output.new)) }
    ensures counted { OnOk result (O.failures output.new ≡ O.failures output.old) }
    ensures fault { IfErr result (λ e. CountsWrites e (O.failures output.old) (O.failures output.new)) }
{
    let mut page = Said::new(alloc);
    let Ok(()) = put_reply(alloc, &mut page, reply) else {
        return Err(Stop::Memory);
    };
    match write_all(output, page.as_slice()) {
        Ok(()) => Ok(()),
        Err(_) => Err(Stop::Device),
    }
}
