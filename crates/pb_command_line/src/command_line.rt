//! The command line as clap reads it.
ghost use Rattle.std.specs.Prelude.{◌≡◌, IfOk, codes, false};
ghost use Rattle.clap.specs.Words.{App, app_of, new_app, rule_of, with_rule};
ghost use Rattle.clap.specs.declared.builder.command.Command.TheViews.{out-Command};
ghost use Rattle.pb_command_line.specs.CommandLine.{IsCommand, check_command, debug_command, draw_command, emit_command};
ghost use Rattle.pb_command_line.specs.CommandLine.{exec_command, explain_command, findings_command, flag_rule, number_rule, number_rule_or};
ghost use Rattle.pb_command_line.specs.CommandLine.{outcomes_command, plan_command, record_command, replay_command, run_command, states_command};
ghost use Rattle.pb_command_line.specs.CommandLine.{that_wants_command, word_rule_or, words_rule, command_line as whole, with_bank_commands, with_code_commands, with_command};
ghost use Rattle.pb_command_line.specs.CommandLine.{with_object_commands, with_other_commands, with_pick_commands};
ghost use Rattle.pb_command_line.specs.CommandLine.{with_run_rules, with_text_commands};

use clap::builder::ValueParser;
use clap::{Arg, ArgAction, Command};
use std::alloc::{AllocError, Global};

/// The version, and the line of `rt version` of the kit that it was proved with.
const VERSION: &str = "1.0\nproved with rattle-kit-13f logic dac8208d650f15bf";

/// What is above the help. `--quiet` and `--json` are taken off before these words are read.
const ABOUT: &str =
    "Programs with parbegin: checked, run, recorded, debugged and drawn.\nWith --quiet before the command no message explains a refused input; with --json after that, or alone, each line is written as a JSON object";

/// The help of the option that says who decides on a request.
const LEND: &str = "Who decides on a request: banker or cash";

/// The same of `plan`, which makes no run.
const LEND_OF_PLAN: &str =
    "Who decides on a request when the texts run: banker or cash; with cash the status is 9 after the lines bottleneck and no order";

/// The help of the option with a capital that stands in place of that of a text.
const CAPITAL: &str =
    "Plan as if there were so much of a resource, 0 to 1000000, such as tape=2; may be given for several resources";

/// The same of `record`, whose workers ask the banker.
const LEND_OF_SEED: &str = "Who decides on a request: banker, or with --seed also cash";

fn number_option<'a>(alloc: Global, name: &'a str, least: u64, most: u64) -> Arg<'a>
    ensures rule { rule_of result ≡ number_rule name.entry.now least most }
    ensures own { result.global ≡ false }
{
    Arg::new(alloc, name)
        .long(name)
        .value_parser(ValueParser::unsigned(least, most))
}

fn number_option_or<'a>(
    alloc: Global,
    name: &'a str,
    least: u64,
    most: u64,
    default: &'a str,
) -> Arg<'a>
    ensures rule { rule_of result ≡ number_rule_or name.entry.now least most default.entry.now }
    ensures own { result.global ≡ false }
{
    number_option(alloc, name, least, most).default_value(default)
}

fn word_option_or<'a>(alloc: Global, name: &'a str, default: &'a str) -> Arg<'a>
    ensures rule { rule_of result ≡ word_rule_or name.entry.now default.entry.now }
    ensures own { result.global ≡ false }
{
    Arg::new(alloc, name).long(name).default_value(default)
}

fn words_option<'a>(alloc: Global, name: &'a str) -> Arg<'a>
    ensures rule { rule_of result ≡ words_rule name.entry.now }
    ensures own { result.global ≡ false }
{
    Arg::new(alloc, name).long(name).action(ArgAction::Append)
}

fn flag<'a>(alloc: Global, name: &'a str) -> Arg<'a>
    ensures rule { rule_of result ≡ flag_rule name.entry.now }
    ensures own { result.global ≡ false }
{
    Arg::new(alloc, name).long(name).action(ArgAction::SetTrue)
}

/// Adds an argument, which no subcommand inherits.
fn with_option<'a>(command: Command<'a>, option: Arg<'a>) -> Result<Command<'a>, AllocError>
    requires { option.global ≡ false }
    ensures app { IfOk result (λ c. app_of c ≡ with_rule (app_of command.entry) (rule_of option.entry)) }
    ensures own { IfOk result (λ c. (out-Command c).has_globals ≡ (out-Command command.entry).has_globals) }
{
    command.arg(option)
}

/// Adds a subcommand, none of whose arguments its own subcommands inherit.
fn with_subcommand<'a>(
    command: Command<'a>,
    subcommand: Command<'a>,
) -> Result<Command<'a>, AllocError>
    requires { (out-Command subcommand).has_globals ≡ false }
    ensures { IfOk result (λ c. app_of c ≡ with_command (app_of command.entry) (app_of subcommand.entry)) }
{
    command.subcommand(subcommand)
}

/// Returns a command without options.
fn plain<'a>(alloc: Global, name: &'a str, about: &'a str) -> Result<Command<'a>, AllocError>
    ensures { IfOk result (IsCommand (new_app name.entry.now)) }
{
    Ok(Command::new(alloc, name).about(about))
}

/// Adds an option with a number and a default, if the command was made. Nothing else is there when it was not: an
/// option that would have to be dropped then makes the proof much longer.
fn with_number<'a>(
    alloc: Global,
    command: Result<Command<'a>, AllocError>,
    name: &'a str,
    least: u64,
    most: u64,
    default: &'a str,
    help: &'a str,
) -> Result<Command<'a>, AllocError>
    ensures { (app : App) → IfOk command.entry (IsCommand app) → IfOk result
        (IsCommand (with_rule app (number_rule_or name.entry.now least most default.entry.now))) }
{
    let command = command?;
    let option = number_option_or(alloc, name, least, most, default);
    with_option(command, option.help(help))
}

/// Adds an option with a number and no default, if the command was made.
fn with_given_number<'a>(
    alloc: Global,
    command: Result<Command<'a>, AllocError>,
    name: &'a str,
    least: u64,
    most: u64,
    help: &'a str,
) -> Result<Command<'a>, AllocError>
    ensures { (app : App) → IfOk command.entry (IsCommand app) → IfOk result
        (IsCommand (with_rule app (number_rule name.entry.now least most))) }
{
    let command = command?;
    let option = number_option(alloc, name, least, most);
    with_option(command, option.help(help))
}

/// Adds the option with capitals that stand in place of those of texts, if the command was made.
fn with_capitals<'a>(
    alloc: Global,
    command: Result<Command<'a>, AllocError>,
) -> Result<Command<'a>, AllocError>
    ensures { (app : App) → IfOk command.entry (IsCommand app) → IfOk result
        (IsCommand (with_rule app (words_rule (codes "capital")))) }
{
    let command = command?;
    let capital = words_option(alloc, "capital");
    with_option(command, capital.help(CAPITAL))
}

/// Adds a flag, if the command was made.
fn with_flag<'a>(
    alloc: Global,
    command: Result<Command<'a>, AllocError>,
    name: &'a str,
    help: &'a str,
) -> Result<Command<'a>, AllocError>
    ensures { (app : App) → IfOk command.entry (IsCommand app) → IfOk result
        (IsCommand (with_rule app (flag_rule name.entry.now))) }
{
    let command = command?;
    let option = flag(alloc, name);
    with_option(command, option.help(help))
}

/// Adds the option with the seed of a run that is drawn, if the command was made.
fn with_seed<'a>(
    alloc: Global,
    command: Result<Command<'a>, AllocError>,
) -> Result<Command<'a>, AllocError>
    ensures { (app : App) → IfOk command.entry (IsCommand app) → IfOk result
        (IsCommand (with_rule app (number_rule (codes "seed") 0 18446744073709551615))) }
{
    let command = command?;
    let seed = number_option(alloc, "seed", 0, 18_446_744_073_709_551_615);
    with_option(
        command,
        seed.help("Draw each step by a generator with this seed, without worker threads"),
    )
}

/// Adds the option that says who decides on a request, if the command was made.
fn with_lend<'a>(
    alloc: Global,
    command: Result<Command<'a>, AllocError>,
    help: &'a str,
) -> Result<Command<'a>, AllocError>
    ensures { (app : App) → IfOk command.entry (IsCommand app) → IfOk result
        (IsCommand (with_rule app (word_rule_or (codes "lend") (codes "banker")))) }
{
    let command = command?;
    let lend = word_option_or(alloc, "lend", "banker");
    with_option(command, lend.help(help))
}

/// Adds the options of a run by workers, if the command was made.
fn with_run_options<'a>(
    alloc: Global,
    command: Result<Command<'a>, AllocError>,
) -> Result<Command<'a>, AllocError>
    ensures { (app : App) → IfOk command.entry (IsCommand app) → IfOk result (IsCommand (with_run_rules app)) }
{
    let workers = "Run with this many worker threads, 1 to 16";
    let command = with_number(alloc, command, "workers", 1, 16, "1", workers);
    let quantum = "The most steps a worker makes at once, 1 to 4096";
    let command = with_number(alloc, command, "quantum", 1, 4_096, "64", quantum);
    let steps = "Stop the run after this many steps, 0 to 10000000";
    with_number(alloc, command, "steps", 0, 10_000_000, "1000000", steps)
}

fn check_texts<'a>(alloc: Global) -> Result<Command<'a>, AllocError>
    ensures { IfOk result (IsCommand check_command) }
{
    let about = "Check the programs read from standard input, which lines of %% separate";
    let check = plain(alloc, "check", about);
    let heap = "Keep the syntax trees of each text in a heap of this many bytes";
    let check = with_given_number(alloc, check, "heap", 1_024, 16_777_216, heap);
    let warn = "Tell after each ok what is probably a mistake in the program";
    with_flag(alloc, check, "warn", warn)
}

fn find_in_files<'a>(alloc: Global) -> Result<Command<'a>, AllocError>
    ensures { IfOk result (IsCommand findings_command) }
{
    let about =
        "Check files, each of which is two messages on standard input, its name and its bytes, and print what is found as JSON";
    let findings = plain(alloc, "findings", about);
    let heap = "Keep the syntax trees of each text in a heap of this many bytes";
    let findings = with_given_number(alloc, findings, "heap", 1_024, 16_777_216, heap);
    let warn = "Tell of each program what is probably a mistake in it";
    with_flag(alloc, findings, "warn", warn)
}

fn debug_picks<'a>(alloc: Global) -> Result<Command<'a>, AllocError>
    ensures { IfOk result (IsCommand debug_command) }
{
    let about =
        "Debug a program on standard input along the picks and by the commands that follow, each after a line %%";
    let debug = plain(alloc, "debug", about);
    let debug = with_flag(alloc, debug, "live", "Answer each command as it comes");
    with_lend(alloc, debug, LEND)
}

fn draw_picks<'a>(alloc: Global) -> Result<Command<'a>, AllocError>
    ensures { IfOk result (IsCommand draw_command) }
{
    let about = "Draw the picks that follow a program and a line %% on standard input";
    let draw = plain(alloc, "draw", about);
    let draw = with_lend(alloc, draw, LEND);
    let help =
        "Make the picture so many pixels wide, in place of as wide as its picks are: 200 to 20000";
    let draw = with_given_number(alloc, draw, "width", 200, 20_000, help);
    let help = "Make the picture larger or smaller, with all that is in it: 50 to 400 percent";
    with_number(alloc, draw, "scale", 50, 400, "100", help)
}

#[tactic(auto, unfolding(crate::specs::CommandLine::emit_command))]
fn emit_object<'a>(alloc: Global) -> Result<Command<'a>, AllocError>
    ensures { IfOk result (IsCommand emit_command) }
{
    let object = number_option_or(alloc, "object", 1, 2, "2");
    let object = object.help("The format of the object: 1 or 2");
    let emit = Command::new(alloc, "emit").about(
        "Compile the program read from standard input and print its object",
    );
    with_option(emit, object)
}

fn exec_object<'a>(alloc: Global) -> Result<Command<'a>, AllocError>
    ensures { IfOk result (IsCommand exec_command) }
{
    let exec = plain(alloc, "exec", "Run the object read from standard input");
    with_run_options(alloc, exec)
}

#[tactic(auto, unfolding(crate::specs::CommandLine::explain_command))]
fn explain_code<'a>(alloc: Global) -> Result<Command<'a>, AllocError>
    ensures { IfOk result (IsCommand explain_command) }
{
    let code = Arg::new(alloc, "CODE");
    let code = code.help("The code of a refusal, such as N3; without it all codes are listed");
    let explain = Command::new(alloc, "explain").about(
        "Print what a refusal means, with an example and what to do",
    );
    with_option(explain, code)
}

fn outcomes_of_text<'a>(alloc: Global) -> Result<Command<'a>, AllocError>
    ensures { IfOk result (IsCommand outcomes_command) }
{
    let about =
        "Print every way in which the program read from standard input can end, and whether some run never ends";
    let outcomes = plain(alloc, "outcomes", about);
    let states = "Give up after this many configurations, 1 to 4000000";
    let outcomes = with_number(alloc, outcomes, "states", 1, 4_000_000, "1000000", states);
    let outcomes = with_lend(alloc, outcomes, LEND);
    let first = "End at the first deadlock that is found";
    let outcomes = with_flag(alloc, outcomes, "first-deadlock", first);
    let prints = "Tell outcomes with different prints apart, and show what was printed";
    let outcomes = with_flag(alloc, outcomes, "prints", prints);
    let fair = "Say at the end whether some run never ends in which no arm is passed over for ever";
    let outcomes = with_flag(alloc, outcomes, "fair", fair);
    let expect =
        "Compare the prints of every run with the lines after the program and a line %%; with --fair only fair runs count";
    let outcomes = with_flag(alloc, outcomes, "expect", expect);
    let any_order = "With --expect: those lines may be printed in any order";
    let outcomes = with_flag(alloc, outcomes, "any-order", any_order);
    let endless =
        "Print picks that lead into a circle and picks that go round it, if some run never ends; with --fair only fair runs count";
    let outcomes = with_flag(alloc, outcomes, "endless", endless);
    let graph = "Print all schedules as a document for a page";
    let outcomes = with_flag(alloc, outcomes, "graph", graph);
    let run =
        "Print the program with the picks that lead to the outcome with this number, for replay";
    let outcomes = with_given_number(alloc, outcomes, "run", 1, 4_000_000, run);
    let deadlock = "The same of the deadlock with this number";
    with_given_number(alloc, outcomes, "deadlock", 1, 4_000_000, deadlock)
}

fn states_of_run<'a>(alloc: Global) -> Result<Command<'a>, AllocError>
    ensures { IfOk result (IsCommand states_command) }
{
    let about = "Print each state along the picks that follow a program and a line %%, for a page";
    let states = plain(alloc, "states", about);
    let rows = "Stop after this many rows, 1 to 1000000";
    let states = with_number(alloc, states, "rows", 1, 1_000_000, "20000", rows);
    let from = "Begin at this position, 0 to 10000000";
    let states = with_number(alloc, states, "from", 0, 10_000_000, "0", from);
    with_lend(alloc, states, LEND)
}

fn plan_of_texts<'a>(alloc: Global) -> Result<Command<'a>, AllocError>
    ensures { IfOk result (IsCommand plan_command) }
{
    let about =
        "Print where the claims of the program read from standard input come from, and how much of each resource they need";
    let plan = with_lend(alloc, plain(alloc, "plan", about), LEND_OF_PLAN);
    with_capitals(alloc, plan)
}

fn record_text<'a>(alloc: Global) -> Result<Command<'a>, AllocError>
    ensures { IfOk result (IsCommand record_command) }
{
    let about = "Run the program read from standard input and print it with the picks of the run";
    let record = with_run_options(alloc, plain(alloc, "record", about));
    let record = with_seed(alloc, record);
    with_lend(alloc, record, LEND_OF_SEED)
}

fn replay_picks<'a>(alloc: Global) -> Result<Command<'a>, AllocError>
    ensures { IfOk result (IsCommand replay_command) }
{
    let about = "Replay the picks that follow a program and a line %% on standard input";
    with_lend(alloc, plain(alloc, "replay", about), LEND)
}

fn run_texts<'a>(alloc: Global) -> Result<Command<'a>, AllocError>
    ensures { IfOk result (IsCommand run_command) }
{
    let run = plain(alloc, "run", "Run the program read from standard input");
    with_run_options(alloc, run)
}

fn wanting_command<'a>(command: Command<'a>) -> Command<'a>
    ensures { app_of result ≡ that_wants_command (app_of command.entry) }
{
    command
        .about(ABOUT)
        .subcommand_required(true)
        .version(VERSION)
}

/// Returns the command line without its subcommands.
fn bare_command_line<'a>(alloc: Global) -> Result<Command<'a>, AllocError>
    ensures { IfOk result (λ c. app_of c ≡ that_wants_command (new_app (codes "parbegin"))) }
{
    let command = Command::new(alloc, "parbegin").bin_name("parbegin")?;
    Ok(wanting_command(command))
}

/// Adds a subcommand if both commands were made. If one was not, the other is dropped here and nowhere else.
fn with_made<'a>(
    command: Result<Command<'a>, AllocError>,
    made: Result<Command<'a>, AllocError>,
) -> Result<Command<'a>, AllocError>
    requires { IfOk made (λ s. (out-Command s).has_globals ≡ false) }
    ensures { (app sub : App) → IfOk command.entry (λ c. app_of c ≡ app) → IfOk made.entry (λ s. app_of s ≡ sub)
        → IfOk result (λ c. app_of c ≡ with_command app sub) }
{
    with_subcommand(command?, made?)
}

fn with_texts<'a>(
    alloc: Global,
    command: Result<Command<'a>, AllocError>,
) -> Result<Command<'a>, AllocError>
    ensures { (app : App) → IfOk command.entry (λ c. app_of c ≡ app) → IfOk result (λ c. app_of c ≡ with_text_commands app) }
{
    let command = with_made(command, check_texts(alloc));
    let claims = plain(
        alloc,
        "claims",
        "Print the claims of the program read from standard input",
    );
    let command = with_made(command, claims);
    let command = with_made(command, plan_of_texts(alloc));
    with_made(command, find_in_files(alloc))
}

fn with_codes<'a>(
    alloc: Global,
    command: Result<Command<'a>, AllocError>,
) -> Result<Command<'a>, AllocError>
    ensures { (app : App) → IfOk command.entry (λ c. app_of c ≡ app) → IfOk result (λ c. app_of c ≡ with_code_commands app) }
{
    let command = with_made(command, emit_object(alloc));
    with_made(command, run_texts(alloc))
}

fn with_objects<'a>(
    alloc: Global,
    command: Result<Command<'a>, AllocError>,
) -> Result<Command<'a>, AllocError>
    ensures { (app : App) → IfOk command.entry (λ c. app_of c ≡ app) → IfOk result (λ c. app_of c ≡ with_object_commands app) }
{
    let command = with_made(command, exec_object(alloc));
    let about = "Print the object read from standard input in format 2";
    with_made(command, plain(alloc, "migrate", about))
}

fn with_picks<'a>(
    alloc: Global,
    command: Result<Command<'a>, AllocError>,
) -> Result<Command<'a>, AllocError>
    ensures { (app : App) → IfOk command.entry (λ c. app_of c ≡ app) → IfOk result (λ c. app_of c ≡ with_pick_commands app) }
{
    let command = with_made(command, record_text(alloc));
    let command = with_made(command, replay_picks(alloc));
    with_made(command, debug_picks(alloc))
}

fn with_others<'a>(
    alloc: Global,
    command: Result<Command<'a>, AllocError>,
) -> Result<Command<'a>, AllocError>
    ensures { (app : App) → IfOk command.entry (λ c. app_of c ≡ app) → IfOk result (λ c. app_of c ≡ with_other_commands app) }
{
    let command = with_made(command, draw_picks(alloc));
    let command = with_made(command, outcomes_of_text(alloc));
    with_made(command, explain_code(alloc))
}

fn with_bank<'a>(
    alloc: Global,
    command: Result<Command<'a>, AllocError>,
) -> Result<Command<'a>, AllocError>
    ensures { (app : App) → IfOk command.entry (λ c. app_of c ≡ app) → IfOk result (λ c. app_of c ≡ with_bank_commands app) }
{
    let command = with_made(command, states_of_run(alloc));
    let bank = plain(
        alloc,
        "bank",
        "Be the banker of jobs that come and go: answer each command on standard input as it comes",
    );
    let command = with_made(command, bank);
    let about = "Answer an editor by the Debug Adapter Protocol on standard input and output";
    let command = with_made(command, plain(alloc, "dap", about));
    let about = "Answer an editor by the Language Server Protocol on standard input and output";
    with_made(command, plain(alloc, "lsp", about))
}

/// Returns the whole command line.
#[tactic(auto, unfolding(crate::specs::CommandLine::command_line))]
pub fn command_line<'a>(alloc: Global) -> Result<Command<'a>, AllocError>
    ensures { IfOk result (λ c. app_of c ≡ whole) }
{
    let command = with_codes(alloc, with_texts(alloc, bare_command_line(alloc)));
    let command = with_picks(alloc, with_objects(alloc, command));
    with_bank(alloc, with_others(alloc, command))
}
