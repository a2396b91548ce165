//! What is found in a text, item by item.

ghost use Rattle.std.specs.Prelude.{◌≡◌, ◌≢◌, ◌∷◌, [], IfOk, OnErr, map};
ghost use Rattle.pb_accept.specs.Sayings.{NoMemory as OutOfMemory};
ghost use Rattle.pb_command_io.specs.declared.status.Status.TheVariants as status;
ghost use Rattle.pb_search_engine.specs.Items.{given_item_view};
ghost use Rattle.pb_search_engine.specs.Sayings.{Finds as AnyFinds, Plain as AnyPlain};
ghost use Rattle.pb_voice.specs.Held.{at};
ghost use Rattle.pb_voice.specs.Tellings.{Ends};

use crate::item::Item;
use crate::said::Said;
use crate::teller::{Teller, tell_items, tell_last};
use pb_accept::Said as PlainSaid;
use pb_base::{NoMemory, Output};
use pb_codegen::Compiled;
use pb_command_io::Status;
use std::alloc::Global;

/// What is found, and the status that says how much that is.
#[derive(Drop)]
pub struct Answer {
    pub items: Vec<Item>,
    pub status: Status,
}

/// Returns an item as all that is found.
pub fn alone(alloc: Global, item: Item, given: Status) -> Result<Answer, NoMemory>
    ensures items { IfOk result (λ a. map given_item_view a.items.items ≡ given_item_view item ∷ []) }
    ensures status { IfOk result (λ a. a.status ≡ given) }
{
    let mut items = Vec::new(alloc);
    items.push(item)?;
    Ok(Answer {
        items,
        status: given,
    })
}

/// Tells what is found in a compiled text, item by item, or out of memory.
pub fn tell_answer<O: Output, T: Teller>(
    compiled: &Compiled,
    found: Result<Answer, NoMemory>,
    teller: &mut T,
    output: &mut O,
) -> Status
    requires { IfOk found (λ a. a.status ≢ status.Device) }
    ensures items { IfOk found (λ a. Ends T.tells T.breaks (at O.written O.failures teller.old output.old)
        (map (AnyFinds compiled.now.verified.code.names compiled.now.labels) (map given_item_view a.items.items)) a.status
        (at O.written O.failures teller.new output.new) result) }
    ensures memory { OnErr found (Ends T.tells T.breaks (at O.written O.failures teller.old output.old)
        (AnyPlain OutOfMemory ∷ []) status.Memory (at O.written O.failures teller.new output.new) result) }
{
    match found {
        Ok(answer) => {
            let names = &compiled.verified().code().names;
            match tell_items(teller, output, names, compiled.labels(), &answer.items) {
                Ok(()) => answer.status,
                Err(_) => Status::Device,
            }
        }
        Err(NoMemory) => {
            let said = Said::Plain(PlainSaid::NoMemory);
            tell_last(teller, output, said, Status::Memory)
        }
    }
}
