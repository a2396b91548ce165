//! What is said to a person when a process faulted.

ghost use Rattle.std.specs.Prelude.{◌≡◌, ◌⊎◌};
ghost use Rattle.pb_call.specs.Explained as spec;
ghost use Rattle.pb_call.specs.Explained.{ExplainsFault, Untouched};

use pb_base::{Output, write_all};
use pb_words::{Options, options};
use std::alloc::Global;

/// What is said of a run of a text in which a process faulted.
const FAULTED_RUN: &[u8] =
    b"fault: an operator of a process had no result, which ended the process\n  = hint: `parbegin record FILE > my.run` writes a run with its picks; if a process faults in it, `parbegin draw my.run` shows in which line, and `fault P` of `parbegin debug my.run`, after that pick, with which operands\n";

/// What is said of a run of code in which a process faulted.
const FAULTED_CODE: &[u8] =
    b"fault: an operator of a process had no result, which ended the process\n  = hint: of the text, `parbegin record FILE > my.run` writes a run with its picks; if a process faults in it, `parbegin draw my.run` shows in which line, and `fault P` of `parbegin debug my.run`, after that pick, with which operands\n";

/// What is said of picks that were made anew, with which a process faulted.
const FAULTED_REPLAY: &[u8] =
    b"fault: an operator of a process had no result, which ended the process\n  = hint: `parbegin draw` of the same input shows in which line, and `fault P` of `parbegin debug`, after that pick, with which operands\n";

/// Writes how it is seen where a process of the command of these words faulted, if it can be.
pub fn explain_fault<E: Output>(alloc: Global, words: &[&str], error: &mut E)
    ensures { Untouched
        (record { reads = 0; writes = E.failures error.old; written = E.written error.old })
        (record { reads = 0; writes = E.failures error.new; written = E.written error.new })
        ⊎ ExplainsFault words.now
        (record { reads = 0; writes = E.failures error.old; written = E.written error.old })
        (record { reads = 0; writes = E.failures error.new; written = E.written error.new }) }
{
    let Ok(options) = options(alloc, words) else {
        return;
    };
    let _ = write_all(error, fault_message(&options));
}

/// Returns what is said of a command in which a process faulted.
fn fault_message(options: &Options) -> &[u8]
    ensures { result.now ≡ spec.fault_message options.now }
{
    match options {
        Options::Run(_) => FAULTED_RUN,
        Options::Exec(_) => FAULTED_CODE,
        Options::Replay(_) => FAULTED_REPLAY,
        Options::Bank
        | Options::Check(_)
        | Options::Claims
        | Options::Dap
        | Options::Debug(_)
        | Options::Draw(_)
        | Options::Emit(_)
        | Options::Explain(_)
        | Options::Findings(_)
        | Options::Lsp
        | Options::Migrate
        | Options::Outcomes(_)
        | Options::Plan(_, _)
        | Options::Record(_)
        | Options::States(_) => &[],
    }
}
