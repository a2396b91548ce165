//! What a launch gives: the code of a text, and picks of it.

ghost use Rattle.std.specs.Prelude.{◌≡◌, [], ℕ, IfErr, IfOk, List, None, Some, codes};
ghost use Rattle.pb_base.specs.Lines.{line as with_feed};
ghost use Rattle.pb_base.specs.declared.lending.Lending.{Lending as LendingValue};
ghost use Rattle.pb_accept.specs.Refusals.{RefusesWith};
ghost use Rattle.pb_accept.specs.ReplayLines.{IsLinesFaultBy};
ghost use Rattle.pb_code.specs.Whole.{Code};
ghost use Rattle.pb_codegen.specs.Compiled.{IsCompiled};
ghost use Rattle.pb_adapter_engine.specs.Waiting.{ArePartsFor, ArePicksFor, ArePicksOf, ComesTo, RefusesPicks};

use crate::launched::{Launch, Launched};
use pb_accept::{LinesFault, Refusal, compile_text, lines_refusal};
use pb_adapter_requests::Counting;
use pb_base::{Lending, NoMemory};
use pb_codegen::Compiled;
use pb_command_io::two_parts;
use pb_history::CountedPick;
use pb_history::replay::replay_counted_by;
use pb_picks::read_picks;
use pb_record::draw_picks;
use pb_verifier::Verified;
use std::alloc::Global;

/// The most picks that are drawn for a launch.
pub const MAX_DRAWN: u32 = 1_000_000;

/// Returns the code of a text, or the line of its refusal.
fn compiled_of(alloc: Global, source: &[u8]) -> Result<Result<Compiled, Vec<u8>>, NoMemory>
    ensures compiled { IfOk result (λ r. IfOk r (λ c. IsCompiled source.now c.verified.code c.labels)) }
    ensures refused { IfOk result (λ r. IfErr r (λ line. RefusesWith source.now line.items)) }
{
    match compile_text(alloc, source) {
        Ok(compiled) => Ok(Ok(compiled)),
        Err(Refusal::Line(line)) => Ok(Err(line)),
        Err(Refusal::NoMemory) => Err(NoMemory),
    }
}

/// Returns the picks that lines say, each enabled in turn under a lending.
fn picks_of(
    alloc: Global,
    lending: Lending,
    verified: &Verified,
    lines: &[u8],
) -> Result<Vec<CountedPick>, LinesFault>
    ensures picks { IfOk result (λ picks. ArePicksOf lending verified.now.code lines.now picks.items) }
    ensures fault { IfErr result (IsLinesFaultBy lending verified.now.code lines.now) }
{
    let picks = match read_picks(alloc, verified.code(), lines) {
        Ok(picks) => picks,
        Err(fault) => return Err(LinesFault::NotRead(fault)),
    };
    match replay_counted_by(alloc, verified, lending, picks.as_slice()) {
        Ok(_) => Ok(picks),
        Err(fault) => Err(LinesFault::NotMade(fault)),
    }
}

/// Takes the line feed from the end of a line.
fn without_feed(text: &mut Vec<u8>)
    ensures { (refusal : List ℕ) → text.old.items ≡ with_feed refusal → text.new.items ≡ refusal }
{
    let _ = text.pop();
}

/// Returns the line of a refusal of pick lines.
fn lines_line(alloc: Global, fault: LinesFault) -> Result<Vec<u8>, NoMemory>
    ensures { IfOk result (λ text. (lending : LendingValue) (code : Code) (lines : List ℕ)
        → IsLinesFaultBy lending code lines fault → RefusesPicks None lending code lines text.items) }
{
    let mut text = lines_refusal(alloc, fault)?.text;
    without_feed(&mut text);
    Ok(text)
}

/// Returns the picks that lines say, or the line of their refusal.
fn picks_said(
    alloc: Global,
    lending: Lending,
    verified: &Verified,
    lines: &[u8],
) -> Result<Result<Vec<CountedPick>, Vec<u8>>, NoMemory>
    ensures picks { IfOk result (λ r. IfOk r (λ picks. ArePicksOf lending verified.now.code lines.now picks.items)) }
    ensures refused { IfOk result (λ r. IfErr r (λ line. RefusesPicks None lending verified.now.code lines.now line.items)) }
{
    match picks_of(alloc, lending, verified, lines) {
        Ok(picks) => Ok(Ok(picks)),
        Err(fault) => Ok(Err(lines_line(alloc, fault)?)),
    }
}

/// Returns the line that the picks that are drawn are too many.
fn too_long_line(alloc: Global) -> Result<Vec<u8>, NoMemory>
    ensures { IfOk result (λ line. line.items ≡ codes "refused output: more than 1000000 picks are drawn") }
{
    Ok(Vec::from_slice(alloc, b"refused output: more than 1000000 picks are drawn")?)
}

/// Returns the picks that are drawn with a seed, or the line that they are too many.
fn picks_drawn(
    alloc: Global,
    seed: u64,
    lending: Lending,
    verified: &Verified,
) -> Result<Result<Vec<CountedPick>, Vec<u8>>, NoMemory>
    ensures picks { IfOk result (λ r. IfOk r (λ picks. ArePicksFor (Some seed) lending verified.now.code [] picks.items)) }
    ensures refused { IfOk result (λ r. IfErr r (λ line. RefusesPicks (Some seed) lending verified.now.code [] line.items)) }
{
    // Called for its contract alone, which the proof needs.
    let _ = verified.code();
    let made = draw_picks(alloc, lending, MAX_DRAWN, seed, verified)?;
    match made {
        Some((_machine, picks)) => Ok(Ok(picks)),
        None => Ok(Err(too_long_line(alloc)?)),
    }
}

/// Returns the picks of a text: without a seed those that lines say, with one those that are drawn; or the line of
/// a refusal.
fn picks_for(
    alloc: Global,
    seed: Option<u64>,
    lending: Lending,
    verified: &Verified,
    lines: &[u8],
) -> Result<Result<Vec<CountedPick>, Vec<u8>>, NoMemory>
    ensures picks { IfOk result (λ r. IfOk r (λ picks. ArePicksFor seed lending verified.now.code lines.now picks.items)) }
    ensures refused { IfOk result (λ r. IfErr r (λ line. RefusesPicks seed lending verified.now.code lines.now line.items)) }
{
    match seed {
        None => picks_said(alloc, lending, verified, lines),
        Some(seed) => picks_drawn(alloc, seed, lending, verified),
    }
}

/// Returns a text and the pick lines after it; with a seed the text is all.
fn parts_for(seed: Option<u64>, words: &[u8]) -> (&[u8], &[u8])
    ensures { ArePartsFor seed words.now result.0.now result.1.now }
{
    match seed {
        None => two_parts(words),
        Some(_) => (words, &words[words.len()..]),
    }
}

/// Launches a text under a lending: with a seed by the picks that it draws, else by those of the pick lines after
/// the text. It is shown under a path, to a client that counts so.
pub fn launch_of(
    alloc: Global,
    words: &[u8],
    seed: Option<u64>,
    lending: Lending,
    path: &str,
    counting: Counting,
) -> Result<Launch, NoMemory>
    ensures { IfOk result (ComesTo words.now seed lending path.now counting) }
{
    let (source, lines) = parts_for(seed, words);
    let compiled = match compiled_of(alloc, source)? {
        Ok(compiled) => compiled,
        Err(line) => return Ok(Launch::Unfit(line)),
    };
    let picks = match picks_for(alloc, seed, lending, compiled.verified(), lines)? {
        Ok(picks) => picks,
        Err(line) => return Ok(Launch::Unfit(line)),
    };
    Ok(Launch::Fit(Launched {
        lending,
        compiled,
        picks,
        source: Vec::from_slice(alloc, source)?,
        path: String::from_str(alloc, path)?,
        counting,
    }))
}
