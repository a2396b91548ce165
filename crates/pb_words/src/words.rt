//! The words of a call, read.

use pb_capitals::Changes;
use pb_options::{
    CheckOptions, Code, DebugOptions, DrawOptions, EmitOptions, OutcomesOptions, PlanOptions,
    RecordOptions, ReplayOptions, RunOptions, StatesOptions,
};

/// A command with its options.
// To add one: docs/CHANGING.md, "A command".
#[derive(Clone, Copy, Debug, PartialEq, Eq)]
pub enum Options {
    Bank,
    Check(CheckOptions),
    Claims,
    Dap,
    Debug(DebugOptions),
    Draw(DrawOptions),
    Emit(EmitOptions),
    Exec(RunOptions),
    Explain(Option<Code>),
    Findings(CheckOptions),
    Lsp,
    Migrate,
    Outcomes(OutcomesOptions),
    /// With the capitals that stand in place of those of the texts.
    Plan(PlanOptions, Changes),
    Record(RecordOptions),
    Replay(ReplayOptions),
    Run(RunOptions),
    States(StatesOptions),
}

/// Why words were refused.
#[derive(Debug, Drop, thiserror::Error)]
pub enum WordsFault {
    /// The text of the help that was asked for, or of the mistake.
    #[error("{0}")]
    Words(String),
    #[error("out of memory")]
    Memory,
}
