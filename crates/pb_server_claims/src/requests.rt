//! Requests over the text of a document.

ghost use Rattle.std.specs.Prelude.{◌≡◌, IfOk, false, option_map};
ghost use Rattle.serde_json.specs.View.{view};
ghost use Rattle.serde_json.specs.Written.{has_float};
ghost use Rattle.pb_server_claims.specs.Answers as spec;

use crate::hints::hints_value;
use crate::hover::hover_asked;
use crate::reading::read_text;
use pb_base::NoMemory;
use pb_server_names::asked_offset;
use serde_json::Value;
use std::alloc::Global;

/// Returns what is shown of the position for which a request asks: of the name there, a process or a resource with its
/// claims, or else of the reserved word or the number; null if nothing is said of it.
/// Names are told of a text that is read, and claims if its names have no fault.
pub fn answer_hover(alloc: Global, text: &str, params: Option<&Value>) -> Result<Value, NoMemory>
    ensures answers { IfOk result (λ v. spec.AnswersHover text.now (option_map (λ p. view p.now) params.entry) (view v)) }
    ensures float_free { IfOk result (λ v. has_float (view v) ≡ false) }
{
    let text = text.as_bytes();
    let found = read_text(alloc, text)?;
    hover_asked(alloc, text, &found, asked_offset(text, params))
}

/// Returns the claims of each process after its name, those that are not 0, whether or not the capital is enough for
/// them; an empty list if the text is not read, or if its names have a fault.
#[tactic(auto, using(crate::proofs::FloatFree::hints_free))]
pub fn answer_hints(alloc: Global, text: &str) -> Result<Value, NoMemory>
    ensures answers { IfOk result (λ v. spec.AnswersHints text.now (view v)) }
    ensures float_free { IfOk result (λ v. has_float (view v) ≡ false) }
{
    let text = text.as_bytes();
    let found = read_text(alloc, text)?;
    hints_value(alloc, text, &found)
}
