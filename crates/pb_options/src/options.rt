//! The options of the engines.
ghost use Rattle.std.specs.Prelude.{◌≡◌, ◌≤◌, ℕ, None, Some};
ghost use Rattle.pb_base.specs.declared.limits.TheConstants.{MAX_PICKS, MAX_QUANTUM, MAX_STATES, MAX_WORKERS};
ghost use Rattle.pb_options.specs.declared.options.Lend.TheVariants.{Banker};
ghost use Rattle.pb_options.specs.declared.options.TheConstants.{MAX_HEAP, MAX_ROWS, MIN_HEAP};
ghost use Rattle.pb_options.specs.Lends.{IsLendOf, lending_for};

use pb_base::Lending;
use pb_code::Format;
use std::str::FromStr;

/// The least size of a heap for the trees of a text, in bytes.
pub const MIN_HEAP: u64 = 1_024;
/// The greatest size of a heap for the trees of a text, in bytes.
pub const MAX_HEAP: u64 = 16_777_216;
/// The most rows of the document of a run.
pub const MAX_ROWS: u32 = 1_000_000;
/// The least width of a picture that can be asked for, in pixels.
pub const MIN_WIDTH: u32 = 200;
/// The greatest width of a picture that can be asked for, in pixels.
pub const MAX_WIDTH: u32 = 20_000;
/// The least size of a picture, in percent.
pub const MIN_SCALE: u64 = 50;
/// The greatest size of a picture, in percent.
pub const MAX_SCALE: u64 = 400;

/// The options of `check_engine`.
#[derive(Clone, Copy, Debug, PartialEq, Eq)]
pub struct CheckOptions {
    /// The size of the heap for the trees of each text, in bytes, if they are to be in one.
    pub heap: Option<u64>,
    /// Whether an accepted text is told with its warnings.
    pub warn: bool,
    pub ghost heap_suffices: { (size : ℕ) → heap ≡ Some size → MIN_HEAP ≤ size },
    pub ghost heap_fits: { (size : ℕ) → heap ≡ Some size → size ≤ MAX_HEAP },
}

/// The options of `emit_engine`.
#[derive(Clone, Copy, Debug, PartialEq, Eq)]
pub struct EmitOptions {
    /// The format in which the object is written.
    pub object: Format,
}

/// The options of `run_engine` and of `exec_engine`.
#[derive(Clone, Copy, Debug, PartialEq, Eq)]
pub struct RunOptions {
    /// The number of worker threads, from 1 to 16.
    pub workers: usize,
    /// The most picks that a worker makes of an arm before it takes another, from 1 to 4,096.
    pub quantum: u32,
    /// The number of picks after which the run stops, at most 10,000,000.
    pub steps: u32,
    pub ghost some_worker: { 1 ≤ workers },
    pub ghost workers_fit: { workers ≤ MAX_WORKERS },
    pub ghost some_quantum: { 1 ≤ quantum },
    pub ghost quantum_fits: { quantum ≤ MAX_QUANTUM },
    pub ghost steps_fit: { steps ≤ MAX_PICKS },
}

/// The options of `record_engine`.
#[derive(Clone, Copy, Debug, PartialEq, Eq)]
pub struct RecordOptions {
    /// How the run is made. If there is a seed, its picks are made one after another, by no worker.
    pub run: RunOptions,
    /// The seed of the generator that draws the picks, if they are to be drawn.
    pub seed: Option<u64>,
    /// Who decides on a request: the banker, if the picks are not drawn.
    pub lend: Lend,
    pub ghost workers_ask_the_banker: { seed ≡ None → lend ≡ Banker },
}

/// The options of `plan`.
#[derive(Clone, Copy, Debug, PartialEq, Eq)]
pub struct PlanOptions {
    /// Who decides on a request when the texts run.
    pub lend: Lend,
}

/// The options of `draw_engine`.
#[derive(Clone, Copy, Debug, PartialEq, Eq)]
pub struct DrawOptions {
    /// Who decides on a request.
    pub lend: Lend,
    /// How wide the picture is at 100 percent, in pixels, from 200 to 20,000, if not as wide as its picks make it.
    pub width: Option<u32>,
    /// How large the picture is, in percent, from 50 to 400.
    pub scale: u16,
}

/// The options of `replay_engine`.
#[derive(Clone, Copy, Debug, PartialEq, Eq)]
pub struct ReplayOptions {
    /// Who decides on a request.
    pub lend: Lend,
}

/// The options of the engines behind `debug`.
#[derive(Clone, Copy, Debug, PartialEq, Eq)]
pub struct DebugOptions {
    /// Whether the commands are read as they come, by `debug_live_engine`.
    pub live: bool,
    /// Who decides on a request.
    pub lend: Lend,
}

/// Who decides on a request.
#[derive(Clone, Copy, Debug, PartialEq, Eq)]
pub enum Lend {
    /// The banker, who keeps the loans safe.
    Banker,
    /// The cash alone: what it suffices for is granted.
    Cash,
}

impl Lend {
    /// Returns how who is named by the word decides.
    pub fn lending(self) -> Lending
        ensures { result ≡ lending_for self }
    {
        match self {
            Lend::Banker => Lending::ByBanker,
            Lend::Cash => Lending::ByCash,
        }
    }
}

/// The word names nobody who decides on a request.
#[derive(Clone, Copy, Debug, PartialEq, Eq)]
pub struct UnknownLend;

/// Reads who decides on a request: `banker` or `cash`.
impl FromStr for Lend {
    type Err = UnknownLend;

    ghost from_str_gives = { IsLendOf };

    fn from_str(word: &str) -> Result<Lend, UnknownLend> {
        match word {
            "banker" => Ok(Lend::Banker),
            "cash" => Ok(Lend::Cash),
            _ => Err(UnknownLend),
        }
    }
}

/// The options of `outcomes`.
#[derive(Clone, Copy, Debug, PartialEq, Eq)]
pub struct OutcomesOptions {
    /// The most configurations that are kept, from 1 to 4,000,000.
    pub states: u32,
    /// Who decides on a request.
    pub lend: Lend,
    /// Whether the search ends at the first deadlock.
    pub first_deadlock: bool,
    /// Whether outcomes with different prints are different ones, and are shown with them.
    pub prints: bool,
    /// Whether it is said after all else if some fair run never ends.
    pub fair: bool,
    /// Whether the prints of every run are compared with lines that follow the text.
    pub expect: bool,
    /// Whether those lines may be printed in any order.
    pub any_order: bool,
    /// Whether a run that never ends is written, in place of all outcomes.
    pub endless: bool,
    /// Whether all schedules are written as a document, in place of all else.
    pub graph: bool,
    /// The number of an outcome, from 1 to 4,000,000, if the text is to be written with the picks that lead to it.
    pub run: Option<u32>,
    /// The number of a deadlock, from 1 to 4,000,000, if that is asked of a deadlock, and of no outcome.
    pub deadlock: Option<u32>,
    pub ghost some_state: { 1 ≤ states },
    pub ghost states_fit: { states ≤ MAX_STATES },
}

/// The options of `states`.
#[derive(Clone, Copy, Debug, PartialEq, Eq)]
pub struct StatesOptions {
    /// The most rows that are written, from 1 to 1,000,000.
    pub rows: u32,
    /// The position at which the document begins, at most 10,000,000.
    pub from: u32,
    /// Who decided on requests in the run.
    pub lend: Lend,
    pub ghost some_row: { 1 ≤ rows },
    pub ghost rows_fit: { rows ≤ MAX_ROWS },
    pub ghost from_fits: { from ≤ MAX_PICKS },
}
