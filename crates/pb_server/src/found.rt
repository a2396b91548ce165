//! What is found for a request.

ghost use Rattle.std.specs.Prelude.{◌≡◌, IfOk};
ghost use Rattle.serde_json.specs.View.{view};
ghost use Rattle.pb_server.specs.Founds.{found_view, response_data};

use crate::response::{Fault, done, failed};
use pb_base::NoMemory;
use serde_json::Value;
use std::alloc::Global;

/// What is found for a request, or why nothing can be.
#[derive(Drop)]
pub enum Found {
    /// The result.
    Result(Value),
    /// The request cannot be carried out, in words for a person.
    Refused(&'static str),
}

/// Returns the response to a request for which this is found.
pub fn respond(alloc: Global, id: &Value, found: Found) -> Result<Value, NoMemory>
    ensures { IfOk result (λ v. view v ≡ response_data (view id.now) (found_view found)) }
{
    match found {
        Found::Result(value) => Ok(done(alloc, id, value)?),
        Found::Refused(why) => Ok(failed(alloc, id, Fault::RequestFailed, why)?),
    }
}
