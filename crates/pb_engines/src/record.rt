//! The command `record`, over any input, teller and output.
ghost use Rattle.std.specs.Prelude.{◌≡◌, ◌≢◌, ◌≤◌, [], ◌∷◌, IfErr, IfOk, IfSome, MatchOption, None, Some, length};
ghost use Rattle.pb_accept.specs.Claims.{SaysOfAny};
ghost use Rattle.pb_accept.specs.Sayings.{NoMemory as OutOfMemory, Threads as NoThreads};
ghost use Rattle.pb_base.specs.Lines.{names_view};
ghost use Rattle.pb_base.specs.declared.lending.Lending.TheVariants.{ByBanker};
ghost use Rattle.pb_command_io.specs.declared.status.Status.TheVariants as status;
ghost use Rattle.pb_engines.specs.Made.{CanBeTold, SaysOfMade};
ghost use Rattle.pb_engines.specs.Records.{IsRecordedWith, SaysOfRecord, recorded_status};
ghost use Rattle.pb_options.specs.Lends.{lending_for};
ghost use Rattle.pb_record.specs.Recorded.{IsTooLong};
ghost use Rattle.pb_verifier.specs.Verified.{IsVerified};
ghost use Rattle.pb_voice.specs.Held.{at};
ghost use Rattle.pb_voice.specs.Tellings.{Answers, Ends, Speaks};

use pb_accept::{
    Ending, Said, Teller, code_of_text, ending_of, read_or_tell, tell_fault, tell_last,
    tell_recorded,
};
use pb_base::limits::{MAX_INPUT, MAX_PICKS};
use pb_base::{Input, Lending, Names, Output};
use pb_command_io::Status;
use pb_history::CountedPick;
use pb_options::{RecordOptions, RunOptions};
use pb_record::{draw_picks, report_picks};
use pb_verifier::Verified;
use pb_workers::RunFault;
use std::alloc::Global;
use std::sync::Wait;
use std::thread::Threads;

/// The picks of a run, and the status with which they are written.
#[derive(Drop)]
pub struct Recorded {
    pub picks: Vec<CountedPick>,
    pub status: Status,
}

/// Runs the text that the input holds, and tells what `replay` reads: the text, and the picks of the run after it. For a
/// text that is refused it tells the refusal; if the whole would be longer than an input may be, that the output is too
/// long.
///
/// Without a seed the picks are those that workers make, as in `run`; with one each is drawn from those that
/// are enabled, under the banker or by the cash alone, and no thread is started. The status is `Deadlock` if the
/// drawn run ends in one, which is what `replay` says of its picks. If a thread could not be started it tells that.
/// After a read that failed nothing is told; after a write that failed, no more.
pub fn record_engine<I: Input, O: Output, T: Teller, R: Threads + Wait + Sync>(
    rt: &R,
    alloc: Global,
    options: RecordOptions,
    input: &mut I,
    teller: &mut T,
    output: &mut O,
) -> Status
    ensures { Answers T.tells T.breaks (SaysOfAny (SaysOfRecord (lending_for options.lend) options.run.steps options.seed)) (I.rest input.old)
        (I.failures input.old) (I.failures input.new) (at O.written O.failures teller.old output.old)
        (at O.written O.failures teller.new output.new) result }
{
    match read_or_tell(alloc, input, teller, output) {
        Ok(bytes) => record_text(rt, alloc, options, &bytes, teller, output),
        Err(status) => status,
    }
}

/// Runs a text, and tells it with its picks.
fn record_text<O: Output, T: Teller, R: Threads + Wait + Sync>(
    rt: &R,
    alloc: Global,
    options: RecordOptions,
    text: &[u8],
    teller: &mut T,
    output: &mut O,
) -> Status
    requires { length text.now ≤ MAX_INPUT }
    ensures { Speaks T.tells T.breaks (SaysOfAny (SaysOfRecord (lending_for options.lend) options.run.steps options.seed) text.now)
        (at O.written O.failures teller.old output.old) (at O.written O.failures teller.new output.new) result }
{
    match code_of_text(alloc, text) {
        Ok(compiled) => {
            let verified = compiled.verified();
            let made = record_picks(rt, alloc, options, verified);
            let status = tell_made(alloc, text, &verified.code().names, made, teller, output);
            drop(compiled);
            status
        }
        Err(fault) => tell_fault(teller, output, &fault),
    }
}

/// Tells a text with the picks that were made of a run of its code, or why there are none.
pub(crate) fn tell_made<O: Output, T: Teller>(
    alloc: Global,
    text: &[u8],
    names: &Names,
    made: Result<Option<Recorded>, RunFault>,
    teller: &mut T,
    output: &mut O,
) -> Status
    requires { CanBeTold (names_view names.now) made }
    ensures { Speaks T.tells T.breaks (SaysOfMade text.now (names_view names.now) made)
        (at O.written O.failures teller.old output.old) (at O.written O.failures teller.new output.new) result }
{
    match made {
        Ok(Some(recorded)) => tell_recorded(
            alloc,
            text,
            names,
            &recorded.picks,
            recorded.status,
            teller,
            output,
        ),
        Ok(None) => tell_last(teller, output, Said::LongOutput, Status::Refused),
        Err(fault) => tell_no_run(fault, teller, output),
    }
}

/// Tells why there is no run: out of memory, or a thread could not be started.
fn tell_no_run<O: Output, T: Teller>(fault: RunFault, teller: &mut T, output: &mut O) -> Status
    ensures memory { fault ≡ RunFault.NoMemory → Ends T.tells T.breaks (at O.written O.failures teller.old output.old)
        (OutOfMemory ∷ []) status.Memory (at O.written O.failures teller.new output.new) result }
    ensures threads { fault ≢ RunFault.NoMemory → Ends T.tells T.breaks (at O.written O.failures teller.old output.old)
        (NoThreads ∷ []) status.Threads (at O.written O.failures teller.new output.new) result }
{
    match fault {
        RunFault::NoMemory => tell_last(teller, output, Said::NoMemory, Status::Memory),
        _ => tell_last(teller, output, Said::Threads, Status::Threads),
    }
}

/// Returns the picks of a run of the code, with their status: drawn ones if there is a seed, else those that workers
/// report; nothing if their lines would be too long for an input. With a seed the only fault is out of memory.
fn record_picks<R: Threads + Wait + Sync>(
    rt: &R,
    alloc: Global,
    options: RecordOptions,
    verified: &Verified,
) -> Result<Option<Recorded>, RunFault>
    requires { IsVerified verified.now }
    ensures picks { IfOk result (λ recorded.
        MatchOption recorded (IsTooLong (lending_for options.lend) verified.now.code options.run.steps options.seed)
        (λ r. IsRecordedWith (lending_for options.lend) verified.now.code options.run.steps options.seed r.picks.items r.status)) }
    ensures fault { IfErr result (λ fault. IfSome options.seed (λ seed. fault ≡ RunFault.NoMemory)) }
{
    let Some(seed) = options.seed else {
        return reported(rt, alloc, options.run, verified);
    };
    drawn_run(
        alloc,
        options.lend.lending(),
        options.run.steps,
        seed,
        verified,
    )
}

/// Returns the picks that workers report, with their status: under the banker there is no deadlock.
fn reported<R: Threads + Wait + Sync>(
    rt: &R,
    alloc: Global,
    options: RunOptions,
    verified: &Verified,
) -> Result<Option<Recorded>, RunFault>
    requires { IsVerified verified.now }
    ensures { IfOk result (λ recorded. MatchOption recorded (IsTooLong ByBanker verified.now.code options.steps None)
        (λ r. IsRecordedWith ByBanker verified.now.code options.steps None r.picks.items r.status)) }
{
    let picks = report_picks(rt, alloc, options, verified)?;
    let Some(picks) = picks else {
        return Ok(None);
    };
    Ok(Some(Recorded {
        picks,
        status: Status::Done,
    }))
}

/// Returns the picks of a run that a generator with this seed draws under a lending, with their status: `Deadlock`
/// if they end in one, else `Done`. Nothing is returned if their lines would be too long for an input. The only fault is
/// out of memory.
pub(crate) fn drawn_run(
    alloc: Global,
    lending: Lending,
    steps: u32,
    seed: u64,
    verified: &Verified,
) -> Result<Option<Recorded>, RunFault>
    requires verified { IsVerified verified.now }
    requires steps { steps ≤ MAX_PICKS }
    ensures picks { IfOk result (λ recorded. MatchOption recorded (IsTooLong lending verified.now.code steps (Some seed))
        (λ r. IsRecordedWith lending verified.now.code steps (Some seed) r.picks.items r.status)) }
    ensures fault { IfErr result (λ fault. fault ≡ RunFault.NoMemory) }
{
    let Ok(made) = draw_picks(alloc, lending, steps, seed, verified) else {
        return Err(RunFault::NoMemory);
    };
    let Some((machine, picks)) = made else {
        return Ok(None);
    };
    let mut machine = machine;
    let ending = ending_of(&mut machine, verified);
    Ok(Some(Recorded {
        picks,
        status: status_of(ending),
    }))
}

/// Returns the status of a run that has ended so.
fn status_of(ending: Ending) -> Status
    ensures { result ≡ recorded_status ending }
{
    match ending {
        Ending::Stuck => Status::Deadlock,
        Ending::Over | Ending::Open => Status::Done,
    }
}
