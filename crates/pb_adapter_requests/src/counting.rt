//! From which numbers a client counts lines and columns.

ghost use Rattle.std.specs.Prelude.{◌≡◌, ◌<◌, option_map};
ghost use Rattle.serde_json.specs.View.{view};
ghost use Rattle.pb_adapter_requests.specs.Counting as spec;
ghost use Rattle.pb_adapter_requests.specs.Requests.{request_view};

use crate::request::{Request, argument};
use serde_json::Value;

/// Whether a client counts lines from 1, and columns; else it counts them from 0.
#[derive(Clone, Copy, Debug, PartialEq, Eq)]
pub struct Counting {
    pub lines_at_1: bool,
    pub columns_at_1: bool,
}

/// Returns whether this is not `false`.
fn is_so(value: Option<&Value>) -> bool
    ensures { result ≡ spec.is_so (option_map (λ v. view v.now) value.entry) }
{
    match value {
        Some(Value::Bool(so)) => *so,
        _ => true,
    }
}

impl Counting {
    /// Returns how a client counts that says nothing of it: from 1.
    pub fn from_1() -> Counting
        ensures { result ≡ spec.from_1 }
    {
        Counting {
            lines_at_1: true,
            columns_at_1: true,
        }
    }

    /// Returns how a client counts, by the request with which it begins.
    pub fn of(request: Request<'_>) -> Counting
        ensures { result ≡ spec.counting_of (request_view request.entry) }
    {
        Counting {
            lines_at_1: is_so(argument(request, "linesStartAt1")),
            columns_at_1: is_so(argument(request, "columnsStartAt1")),
        }
    }

    /// Returns a line as the client counts it; 0, which is none, stays.
    pub fn shown_line(self, line: u32) -> u32
        ensures { result ≡ spec.shown_line self line }
    {
        if self.lines_at_1 {
            line
        } else {
            line.saturating_sub(1)
        }
    }

    /// Returns the number of the first column, as the client counts it.
    pub fn first_column(self) -> u32
        ensures { result ≡ spec.first_column self }
    {
        if self.columns_at_1 { 1 } else { 0 }
    }
}

/// Returns the line, counted from 1, that a client names by a number.
pub(crate) fn named_line(counting: Counting, number: u32) -> u32
    requires { number < 4294967295 }
    ensures { result ≡ spec.named_line counting number }
{
    if counting.lines_at_1 {
        number
    } else {
        number + 1
    }
}
