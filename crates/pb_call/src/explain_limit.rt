//! What is said to a person when a limit stopped a call.

ghost use Rattle.std.specs.Prelude.{◌≡◌, ◌⊎◌};
ghost use Rattle.pb_call.specs.Explained as spec;
ghost use Rattle.pb_call.specs.Explained.{ExplainsLimit, Untouched};

use pb_base::{Output, write_all};
use pb_words::{Options, options};
use std::alloc::Global;

/// What is said of a run that was stopped by its steps.
const STOPPED_RUN: &[u8] =
    b"limit steps: the run was stopped before its end; a process with no line `end` or `fault` had not ended\n  = hint: --steps N allows N steps, at most 10000000; a run that never ends comes to any limit\n";

/// What is said of a search that was stopped.
const STOPPED_SEARCH: &[u8] =
    b"limit search: there may be more than what was found; the last line says why\n  = hint: --states N allows N configurations, at most 4000000\n";

/// What is said of a picture that would be too large.
const LARGE_PICTURE: &[u8] =
    b"limit picture: the picture would have more than 8388608 bytes\n  = hint: the first of the lines after %% draw the beginning of the run; `parbegin page` shows a long run a part at a time\n";

/// Writes how the limit that stopped the command of these words is raised, if it can be.
pub fn explain_limit<E: Output>(alloc: Global, words: &[&str], error: &mut E)
    ensures { Untouched
        (record { reads = 0; writes = E.failures error.old; written = E.written error.old })
        (record { reads = 0; writes = E.failures error.new; written = E.written error.new })
        ⊎ ExplainsLimit words.now
        (record { reads = 0; writes = E.failures error.old; written = E.written error.old })
        (record { reads = 0; writes = E.failures error.new; written = E.written error.new }) }
{
    let Ok(options) = options(alloc, words) else {
        return;
    };
    let _ = write_all(error, limit_message(&options));
}

/// Returns what is said of a command that a limit stopped.
fn limit_message(options: &Options) -> &[u8]
    ensures { result.now ≡ spec.limit_message options.now }
{
    match options {
        Options::Run(_) | Options::Exec(_) => STOPPED_RUN,
        Options::Outcomes(_) => STOPPED_SEARCH,
        Options::Draw(_) => LARGE_PICTURE,
        Options::Bank
        | Options::Check(_)
        | Options::Claims
        | Options::Dap
        | Options::Debug(_)
        | Options::Emit(_)
        | Options::Explain(_)
        | Options::Findings(_)
        | Options::Lsp
        | Options::Migrate
        | Options::Plan(_, _)
        | Options::Record(_)
        | Options::Replay(_)
        | Options::States(_) => &[],
    }
}
