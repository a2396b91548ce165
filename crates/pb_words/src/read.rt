//! Reads the words of a call.
ghost use Rattle.std.specs.Prelude.{◌≡◌, ◌↔◌, IfErr, IfNone, IfOk, IfSome, IsTrue, None, Option, ℕ};
ghost use Rattle.clap.specs.Words.{found_of, kind_of, one_of, rows_of, subcommand_rows_of};
ghost use Rattle.pb_words.specs.Read.{BlamesWords, HasCheckOptions, HasChanges, HasCode, HasDebugOptions, HasDrawOptions, HasEmitNumber};
ghost use Rattle.pb_words.specs.Read.{HasFlag, HasNumberIn, HasOptionalNumberIn, HasRecordNumbers, HasRunNumbers, HasLend, HasPlanLend, HasReplayLend, HasSearchOptions};
ghost use Rattle.pb_words.specs.Read.{HasStatesOptions, IsReadFromMatches, WordsSay};
ghost use Rattle.pb_words.specs.declared.words.Options.{Options as AnyOptions};
ghost use Rattle.pb_capitals.specs.declared.changes.Changes.{Changes as AnyChanges};
ghost use Rattle.pb_options.specs.declared.options.CheckOptions.{CheckOptions as AnyCheckOptions};
ghost use Rattle.pb_options.specs.declared.options.DebugOptions.{DebugOptions as AnyDebugOptions};
ghost use Rattle.pb_options.specs.declared.options.DrawOptions.{DrawOptions as AnyDrawOptions};
ghost use Rattle.pb_options.specs.declared.options.EmitOptions.{EmitOptions as AnyEmitOptions};
ghost use Rattle.pb_options.specs.declared.code.Code.{Code as AnyCode};
ghost use Rattle.pb_options.specs.declared.options.Lend.{Lend as AnyLend};
ghost use Rattle.pb_options.specs.declared.options.OutcomesOptions.{OutcomesOptions as AnyOutcomesOptions};
ghost use Rattle.pb_options.specs.declared.options.PlanOptions.{PlanOptions as AnyPlanOptions};
ghost use Rattle.pb_options.specs.declared.options.RecordOptions.{RecordOptions as AnyRecordOptions};
ghost use Rattle.pb_options.specs.declared.options.ReplayOptions.{ReplayOptions as AnyReplayOptions};
ghost use Rattle.pb_options.specs.declared.options.RunOptions.{RunOptions as AnyRunOptions};
ghost use Rattle.pb_options.specs.declared.options.StatesOptions.{StatesOptions as AnyStatesOptions};

use crate::together::{NOT_TOGETHER, mean_something};
use crate::words::{Options, WordsFault};
use clap::error::ErrorKind;
use clap::{ArgMatches, Error};
use pb_base::limits::{MAX_PICKS, MAX_QUANTUM, MAX_STATES, MAX_WORKERS};
use pb_capitals::{Changes, changes_of};
use pb_code::Format;
use pb_command_line::command_line::command_line;
use pb_options::{
    CheckOptions, Code, DebugOptions, DrawOptions, EmitOptions, Lend, MAX_HEAP, MAX_ROWS,
    MAX_SCALE, MAX_WIDTH, MIN_HEAP, MIN_SCALE, MIN_WIDTH, OutcomesOptions, PlanOptions,
    RecordOptions, ReplayOptions, RunOptions, StatesOptions,
};
use std::alloc::{AllocError, Global};

/// The text of a word that names nobody who decides on a request.
const NO_LEND: &str =
    "error: the value of '--lend' is banker or cash\n\nFor more information, try '--help'.\n";

/// The text of a word that is not a capital of a resource.
const NO_CAPITAL: &str =
    "error: the value of '--capital' is a resource with how much there is of it, 0 to 1000000, such as tape=2; each is named once\n\nFor more information, try '--help'.\n";

/// The text of `record --lend cash` without a seed.
const NO_SEED: &str =
    "error: '--lend cash' of 'record' needs '--seed N': workers ask the banker\n\nFor more information, try '--help'.\n";

/// Returns the number of an option, if it was matched with one from `least` to `most`.
fn number(matches: &ArgMatches<'_>, id: &str, least: u64, most: u64) -> Option<u64>
    ensures some { IfSome result (HasNumberIn (rows_of (found_of matches.now)) id.now least most) }
    ensures none { IfNone result ((n : ℕ) → HasNumberIn (rows_of (found_of matches.now)) id.now least most n → ⊥) }
{
    let number = matches.get_one::<u64>(id)?;
    if number < least || most < number {
        return None;
    }
    Some(number)
}

/// Returns whether an option was matched with no text.
fn is_absent(matches: &ArgMatches<'_>, id: &str) -> bool
    ensures { IsTrue result ↔ (one_of id.now (rows_of (found_of matches.now)) ≡ None) }
{
    match matches.try_get_one::<u64>(id) {
        Ok(None) => true,
        Ok(Some(_)) => false,
        Err(_) => false,
    }
}

/// Returns the number of an option that need not be given; nothing is returned if what is given is no number from
/// `least` to `most`.
fn number_if_given(matches: &ArgMatches<'_>, id: &str, least: u32, most: u32) -> Option<Option<u32>>
    ensures some { IfSome result (HasOptionalNumberIn (rows_of (found_of matches.now)) id.now least most) }
    ensures none { IfNone result ((n : Option ℕ) → HasOptionalNumberIn (rows_of (found_of matches.now)) id.now least most n → ⊥) }
{
    if is_absent(matches, id) {
        return Some(None);
    }
    let number = number(matches, id, u64::from(least), u64::from(most))?;
    Some(Some(number as u32))
}

fn check_options(matches: &ArgMatches<'_>) -> Option<CheckOptions>
    ensures some { IfSome result (HasCheckOptions (rows_of (found_of matches.now))) }
    ensures none { IfNone result ((o : AnyCheckOptions) → HasCheckOptions (rows_of (found_of matches.now)) o → ⊥) }
{
    let warn = flag(matches, "warn");
    if is_absent(matches, "heap") {
        return Some(CheckOptions { heap: None, warn });
    }
    let size = number(matches, "heap", MIN_HEAP, MAX_HEAP)?;
    Some(CheckOptions {
        heap: Some(size),
        warn,
    })
}

/// Returns whether a flag was matched with the text of one that is given.
fn flag(matches: &ArgMatches<'_>, id: &str) -> bool
    ensures { HasFlag (rows_of (found_of matches.now)) id.now result }
{
    match matches.get_one::<bool>(id) {
        Some(set) => set,
        None => false,
    }
}

fn debug_options(matches: &ArgMatches<'_>) -> Option<DebugOptions>
    ensures some { IfSome result (HasDebugOptions (rows_of (found_of matches.now))) }
    ensures none { IfNone result ((o : AnyDebugOptions) → HasDebugOptions (rows_of (found_of matches.now)) o → ⊥) }
{
    let lend = lend(matches)?;
    Some(DebugOptions {
        live: flag(matches, "live"),
        lend,
    })
}

fn draw_options(matches: &ArgMatches<'_>) -> Option<DrawOptions>
    ensures some { IfSome result (HasDrawOptions (rows_of (found_of matches.now))) }
    ensures none { IfNone result ((o : AnyDrawOptions) → HasDrawOptions (rows_of (found_of matches.now)) o → ⊥) }
{
    let lend = lend(matches)?;
    let width = number_if_given(matches, "width", MIN_WIDTH, MAX_WIDTH)?;
    let scale = number(matches, "scale", MIN_SCALE, MAX_SCALE)?;
    Some(DrawOptions {
        lend,
        width,
        scale: scale as u16,
    })
}

fn emit_options(matches: &ArgMatches<'_>) -> Option<EmitOptions>
    ensures some { IfSome result (HasEmitNumber (rows_of (found_of matches.now))) }
    ensures none { IfNone result ((o : AnyEmitOptions) → HasEmitNumber (rows_of (found_of matches.now)) o → ⊥) }
{
    let object = match number(matches, "object", 1, 2)? {
        1 => Format::One,
        _ => Format::Two,
    };
    Some(EmitOptions { object })
}

/// Returns the code that was given, or none if none was; nothing is returned if what was given is not a code.
fn code_given(matches: &ArgMatches<'_>) -> Option<Option<Code>>
    ensures some { IfSome result (HasCode (rows_of (found_of matches.now))) }
    ensures none { IfNone result ((c : Option AnyCode) → HasCode (rows_of (found_of matches.now)) c → ⊥) }
{
    match matches.try_get_one::<Code>("CODE") {
        Ok(code) => Some(code),
        Err(_) => None,
    }
}

/// Returns who decides on a request, if the option was matched with a word for it.
fn lend(matches: &ArgMatches<'_>) -> Option<Lend>
    ensures some { IfSome result (HasLend (rows_of (found_of matches.now))) }
    ensures none { IfNone result ((l : AnyLend) → HasLend (rows_of (found_of matches.now)) l → ⊥) }
{
    match matches.get_one::<Lend>("lend") {
        Some(lend) => Some(lend),
        None => None,
    }
}

fn outcomes_options(matches: &ArgMatches<'_>) -> Option<OutcomesOptions>
    ensures some { IfSome result (HasSearchOptions (rows_of (found_of matches.now))) }
    ensures none { IfNone result ((o : AnyOutcomesOptions) → HasSearchOptions (rows_of (found_of matches.now)) o → ⊥) }
{
    let states = number(matches, "states", 1, MAX_STATES as u64)?;
    let lend = lend(matches)?;
    let run = number_if_given(matches, "run", 1, MAX_STATES)?;
    let deadlock = number_if_given(matches, "deadlock", 1, MAX_STATES)?;
    let options = OutcomesOptions {
        states: states as u32,
        lend,
        first_deadlock: flag(matches, "first-deadlock"),
        prints: flag(matches, "prints"),
        fair: flag(matches, "fair"),
        expect: flag(matches, "expect"),
        any_order: flag(matches, "any-order"),
        endless: flag(matches, "endless"),
        graph: flag(matches, "graph"),
        run,
        deadlock,
    };
    if !mean_something(&options) {
        return None;
    }
    Some(options)
}

fn plan_options(matches: &ArgMatches<'_>) -> Option<PlanOptions>
    ensures some { IfSome result (HasPlanLend (rows_of (found_of matches.now))) }
    ensures none { IfNone result ((o : AnyPlanOptions) → HasPlanLend (rows_of (found_of matches.now)) o → ⊥) }
{
    let lend = lend(matches)?;
    Some(PlanOptions { lend })
}

/// Returns the capitals that stand in place of those of the texts; nothing is returned if what is given is none.
fn changes_given(matches: &ArgMatches<'_>) -> Option<Changes>
    ensures some { IfSome result (HasChanges (rows_of (found_of matches.now))) }
    ensures none { IfNone result ((changes : AnyChanges) → HasChanges (rows_of (found_of matches.now)) changes → ⊥) }
{
    match matches.get_raw("capital") {
        Some(words) => changes_of(words),
        None => Some(Changes::none()),
    }
}

fn replay_options(matches: &ArgMatches<'_>) -> Option<ReplayOptions>
    ensures some { IfSome result (HasReplayLend (rows_of (found_of matches.now))) }
    ensures none { IfNone result ((o : AnyReplayOptions) → HasReplayLend (rows_of (found_of matches.now)) o → ⊥) }
{
    let lend = lend(matches)?;
    Some(ReplayOptions { lend })
}

fn states_options(matches: &ArgMatches<'_>) -> Option<StatesOptions>
    ensures some { IfSome result (HasStatesOptions (rows_of (found_of matches.now))) }
    ensures none { IfNone result ((o : AnyStatesOptions) → HasStatesOptions (rows_of (found_of matches.now)) o → ⊥) }
{
    let rows = number(matches, "rows", 1, MAX_ROWS as u64)?;
    let from = number(matches, "from", 0, MAX_PICKS as u64)?;
    let lend = lend(matches)?;
    Some(StatesOptions {
        rows: rows as u32,
        from: from as u32,
        lend,
    })
}

fn record_options(matches: &ArgMatches<'_>) -> Option<RecordOptions>
    ensures some { IfSome result (HasRecordNumbers (rows_of (found_of matches.now))) }
    ensures none { IfNone result ((o : AnyRecordOptions) → HasRecordNumbers (rows_of (found_of matches.now)) o → ⊥) }
{
    let run = run_options(matches)?;
    let who = lend(matches)?;
    if is_absent(matches, "seed") {
        return by_workers(run, who);
    }
    let seed = number(matches, "seed", 0, u64::MAX)?;
    Some(RecordOptions {
        run,
        seed: Some(seed),
        lend: who,
    })
}

/// Returns the options of a run by workers that is recorded, if they may ask who decides: the banker alone.
fn by_workers(run: RunOptions, lend: Lend) -> Option<RecordOptions>
    ensures some { IfSome result (λ o. (o.run ≡ run) × (o.seed ≡ None) × (o.lend ≡ lend)) }
    ensures none { IfNone result (lend ≡ Lend.Cash) }
{
    match lend {
        Lend::Banker => Some(RecordOptions {
            run,
            seed: None,
            lend: Lend::Banker,
        }),
        Lend::Cash => None,
    }
}

fn run_options(matches: &ArgMatches<'_>) -> Option<RunOptions>
    ensures some { IfSome result (HasRunNumbers (rows_of (found_of matches.now))) }
    ensures none { IfNone result ((o : AnyRunOptions) → HasRunNumbers (rows_of (found_of matches.now)) o → ⊥) }
{
    let workers = number(matches, "workers", 1, MAX_WORKERS as u64)?;
    let quantum = number(matches, "quantum", 1, MAX_QUANTUM as u64)?;
    let steps = number(matches, "steps", 0, MAX_PICKS as u64)?;
    Some(RunOptions {
        workers: workers as usize,
        quantum: quantum as u32,
        steps: steps as u32,
    })
}

/// Returns the options that the matches of the words name.
fn read_matches(matches: &ArgMatches<'_>) -> Option<Options>
    ensures some { IfSome result (IsReadFromMatches (subcommand_rows_of matches.now)) }
    ensures none { IfNone result ((o : AnyOptions) → IsReadFromMatches (subcommand_rows_of matches.now) o → ⊥) }
{
    let (name, inner) = matches.subcommand()?;
    match name {
        "bank" => Some(Options::Bank),
        "check" => Some(Options::Check(check_options(inner)?)),
        "claims" => Some(Options::Claims),
        "dap" => Some(Options::Dap),
        "debug" => Some(Options::Debug(debug_options(inner)?)),
        "draw" => Some(Options::Draw(draw_options(inner)?)),
        "emit" => Some(Options::Emit(emit_options(inner)?)),
        "exec" => Some(Options::Exec(run_options(inner)?)),
        "explain" => Some(Options::Explain(code_given(inner)?)),
        "findings" => Some(Options::Findings(check_options(inner)?)),
        "lsp" => Some(Options::Lsp),
        "migrate" => Some(Options::Migrate),
        "outcomes" => Some(Options::Outcomes(outcomes_options(inner)?)),
        "plan" => Some(Options::Plan(plan_options(inner)?, changes_given(inner)?)),
        "record" => Some(Options::Record(record_options(inner)?)),
        "replay" => Some(Options::Replay(replay_options(inner)?)),
        "run" => Some(Options::Run(run_options(inner)?)),
        "states" => Some(Options::States(states_options(inner)?)),
        _ => None,
    }
}

/// Reads the words of a call, of which the first is the program's own name. The words are refused only
/// if they name no command with its numbers.
// It is not inlined: its locals would be on the stack while an engine runs.
#[inline(never)]
pub fn options(alloc: Global, words: &[&str]) -> Result<Options, WordsFault>
    ensures read { IfOk result (WordsSay words.now) }
    ensures refused { IfErr result (λ e. BlamesWords e → (o : AnyOptions) → WordsSay words.now o → ⊥) }
{
    let Ok(command) = command_line(alloc) else {
        return Err(WordsFault::Memory);
    };
    let matches = match command.try_get_matches_from(words) {
        Ok(matches) => matches,
        Err(error) => return Err(words_fault(alloc, &error)),
    };
    match read_matches(&matches) {
        Some(options) => Ok(options),
        // clap has looked at the numbers: a code is left that is not there, who lends, a capital, or options that mean
        // nothing together.
        None => match unread_text(alloc, &matches) {
            Ok(text) => Err(WordsFault::Words(text)),
            Err(_) => Err(WordsFault::Memory),
        },
    }
}

/// Returns what is wrong with words that clap takes and that name no options.
fn unread_text(alloc: Global, matches: &ArgMatches<'_>) -> Result<String, AllocError> {
    match matches.subcommand() {
        Some(("record", inner)) if is_cash(inner) => String::from_str(alloc, NO_SEED),
        Some(("outcomes", inner)) if lend(inner).is_some() => String::from_str(alloc, NOT_TOGETHER),
        Some(("plan", inner)) if lend(inner).is_some() => String::from_str(alloc, NO_CAPITAL),
        Some(("debug" | "draw" | "outcomes" | "plan" | "record" | "replay" | "states", _)) => {
            String::from_str(alloc, NO_LEND)
        }
        _ => codes_text(alloc),
    }
}

/// Returns whether the option names the cash.
fn is_cash(matches: &ArgMatches<'_>) -> bool {
    match lend(matches) {
        Some(Lend::Cash) => true,
        Some(Lend::Banker) | None => false,
    }
}

/// Returns the text of a code that is not there, with those that are.
fn codes_text(alloc: Global) -> Result<String, AllocError> {
    let mut text = String::new(alloc);
    text.push_str("error: no refusal and no warning has this code\n\n  codes:")?;
    for code in Code::ALL {
        text.push(' ')?;
        text.push_str(code.name())?;
    }
    text.push_str("\n\nFor more information, try '--help'.\n")?;
    Ok(text)
}

fn words_fault(alloc: Global, error: &Error) -> WordsFault
    ensures { kind_of error.now ≡ ErrorKind.OutOfMemory → result ≡ WordsFault.Memory }
{
    if error.kind() == ErrorKind::OutOfMemory {
        return WordsFault::Memory;
    }
    match format!(in alloc; "{error}") {
        Ok(text) => WordsFault::Words(text),
        Err(_) => WordsFault::Memory,
    }
}
