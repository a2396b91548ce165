//! The tools, and which of them answers a command.

ghost use Rattle.std.specs.Prelude.{◌≡◌};
ghost use Rattle.pb_words.specs.Tools.{tool_for, tool_name};

use crate::words::Options;

/// A program that answers some of the commands. Each is built by itself, of the crates that its commands need.
#[derive(Clone, Copy, Debug, PartialEq, Eq)]
pub enum Tool {
    /// Answers `bank`.
    Bank,
    /// Answers `dap`, `debug` and `draw`.
    Debug,
    /// Answers `findings` and `lsp`.
    Edit,
    /// Answers `check`, `claims`, `emit`, `exec`, `explain`, `migrate`, `record`, `replay` and `run`.
    Run,
    /// Answers `outcomes`, `plan` and `states`.
    Search,
}

impl Tool {
    /// Returns the name of the tool.
    pub fn name(self) -> &'static str
        ensures { result.now ≡ tool_name self }
    {
        match self {
            Tool::Bank => "parbegin-bank",
            Tool::Debug => "parbegin-debug",
            Tool::Edit => "parbegin-edit",
            Tool::Run => "parbegin-run",
            Tool::Search => "parbegin-search",
        }
    }
}

/// Returns the tool that answers a command.
pub fn tool_of(options: &Options) -> Tool
    ensures { result ≡ tool_for options.now }
{
    match options {
        Options::Bank => Tool::Bank,
        Options::Dap | Options::Debug(_) | Options::Draw(_) => Tool::Debug,
        Options::Findings(_) | Options::Lsp => Tool::Edit,
        Options::Check(_)
        | Options::Claims
        | Options::Emit(_)
        | Options::Exec(_)
        | Options::Explain(_)
        | Options::Migrate
        | Options::Record(_)
        | Options::Replay(_)
        | Options::Run(_) => Tool::Run,
        Options::Outcomes(_) | Options::Plan(_, _) | Options::States(_) => Tool::Search,
    }
}
