//! The command `claims`, over any input, teller and output.

ghost use Rattle.std.specs.Prelude.{◌≡◌, ℕ, ◌<◌, ◌≤◌, OnErr, OnOk, length, map};
ghost use Rattle.pb_accept.specs.Claims.{SaysOfAny, SaysOfClaims, said_of_process, said_of_program};
ghost use Rattle.pb_base.specs.Banker.{row_of};
ghost use Rattle.pb_names.specs.Meaning.{AreClaims};
ghost use Rattle.pb_names.specs.View.{resolved_view};
ghost use Rattle.pb_voice.specs.Held.{at};
ghost use Rattle.pb_voice.specs.Tellings.{Answers, Breaking, Speaks, Telling};

use crate::said::{Claim, Said};
use crate::teller::{Teller, tell_fault, tell_last};
use bumpalo::Bump;
use pb_base::limits::MAX_INPUT;
use pb_base::{Claims, DeviceFault, Input, Output, ReadFault, read_whole};
use pb_codegen::analyze;
use pb_command_io::Status;
use pb_names::{Resolved, Resource};
use std::alloc::{Allocator, Global};

/// Tells the claims of process p, which has this name.
fn tell_process<O: Output, T: Teller, A: Allocator>(
    teller: &mut T,
    output: &mut O,
    name: &[u8],
    claims: &Claims,
    p: usize,
    resources: &[Resource<A>],
) -> Result<(), DeviceFault>
    requires process { p < length claims.now }
    requires width { (q : ℕ) → q < length claims.now → length (row_of claims.now q) ≡ length resources.now }
    ensures told { OnOk result (Telling T.tells (at O.written O.failures teller.old output.old)
        (said_of_process (map (λ r. r.name.items) resources.now) name.now (row_of claims.now p)) (at O.written O.failures teller.new output.new)) }
    ensures broken { OnErr result (Breaking T.tells T.breaks (at O.written O.failures teller.old output.old)
        (said_of_process (map (λ r. r.name.items) resources.now) name.now (row_of claims.now p)) (at O.written O.failures teller.new output.new)) }
{
    for r in 0..resources.len() {
        let claim = Claim {
            process: name,
            amount: claims.get(p, r),
            resource: &resources[r].name,
        };
        teller.tell(output, Said::Claim(claim))?;
    }
    Ok(())
}

/// Tells the claims of a program.
fn tell_program<O: Output, T: Teller, A: Allocator>(
    teller: &mut T,
    output: &mut O,
    program: &Resolved<A>,
    claims: &Claims,
) -> Result<(), DeviceFault>
    requires { AreClaims (resolved_view program.now) claims.now }
    ensures told { OnOk result (Telling T.tells (at O.written O.failures teller.old output.old)
        (said_of_program (resolved_view program.now) claims.now) (at O.written O.failures teller.new output.new)) }
    ensures broken { OnErr result (Breaking T.tells T.breaks (at O.written O.failures teller.old output.old)
        (said_of_program (resolved_view program.now) claims.now) (at O.written O.failures teller.new output.new)) }
{
    let processes = &program.processes;
    for p in 0..processes.len() {
        tell_process(
            teller,
            output,
            &processes[p].name,
            claims,
            p,
            &program.resources,
        )?;
    }
    Ok(())
}

/// Tells the claims of a text, or why it has none.
fn tell_claims<O: Output, T: Teller>(
    alloc: Global,
    text: &[u8],
    teller: &mut T,
    output: &mut O,
) -> Status
    requires { length text.now ≤ MAX_INPUT }
    ensures { Speaks T.tells T.breaks (SaysOfAny SaysOfClaims text.now) (at O.written O.failures teller.old output.old)
        (at O.written O.failures teller.new output.new) result }
{
    let arena = Bump::new(alloc);
    match analyze(alloc, &arena, text) {
        Ok(analysis) => {
            match tell_program(teller, output, &analysis.program, &analysis.claims) {
                Ok(()) => Status::Done,
                Err(_) => Status::Device,
            }
        }
        Err(fault) => tell_fault(teller, output, &fault),
    }
}

/// Tells, for each process of the text on the input and each resource, in the order in which they are declared, its
/// claim, whether or not the capital is enough; or the refusal of a text that is not a program.
///
/// After a read that failed nothing is told; after a write that failed, no more.
pub fn claims_engine<I: Input, O: Output, T: Teller>(
    alloc: Global,
    input: &mut I,
    teller: &mut T,
    output: &mut O,
) -> Status
    ensures { Answers T.tells T.breaks (SaysOfAny SaysOfClaims) (I.rest input.old) (I.failures input.old) (I.failures input.new)
        (at O.written O.failures teller.old output.old) (at O.written O.failures teller.new output.new) result }
{
    match read_whole(alloc, input, MAX_INPUT) {
        Ok(bytes) => tell_claims(alloc, &bytes, teller, output),
        Err(ReadFault::TooLong) => tell_last(teller, output, Said::TooLong, Status::Refused),
        Err(ReadFault::Memory) => tell_last(teller, output, Said::NoMemory, Status::Memory),
        Err(ReadFault::Device) => Status::Device,
    }
}
