//! What a launch comes to.

ghost use Rattle.std.specs.Prelude.{◌≤◌, length};
ghost use Rattle.pb_base.specs.declared.limits.TheConstants.{MAX_PICKS};
ghost use Rattle.pb_history.specs.Replays.{spread};

use pb_adapter_requests::Counting;
use pb_base::Lending;
use pb_codegen::Compiled;
use pb_history::CountedPick;

/// A text that is launched.
#[derive(Drop)]
pub struct Launched {
    pub lending: Lending,
    pub compiled: Compiled,
    pub picks: Vec<CountedPick>,
    pub source: Vec<u8>,
    /// The path under which it is shown.
    pub path: String,
    /// From which numbers the client counts.
    pub counting: Counting,
    pub ghost few: { length (spread picks.items) ≤ MAX_PICKS },
}

/// What a launch comes to.
#[derive(Drop)]
pub enum Launch {
    Fit(Launched),
    /// The line of its refusal.
    Unfit(Vec<u8>),
}
