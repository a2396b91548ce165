//! One worker.

ghost use Rattle.std.specs.Prelude.{◌<◌};

use crate::gate::Gate;
use crate::met::{Met, NO_MEMORY, NOTHING, STRANGER};
use pb_base::NoMemory;
use pb_shared::{CodeBrand, HomeFault, Shared, Stretch, Taken};
use std::alloc::Global;
use std::sync::Wait;

/// Takes stretches, runs them with no lock held, and brings them home, until the outcome.
pub fn work<'v, C: CodeBrand, G: Gate, R: Wait>(
    rt: &R,
    alloc: Global,
    shared: &Shared<'v, C>,
    worker: usize,
    quantum: u32,
    gate: &G,
) -> Met
    requires { 0 < quantum }
{
    let mut turn = 0u64;
    let mut stretch = match work_of(shared.take(rt, alloc, quantum)) {
        Ok(stretch) => stretch,
        Err(met) => return met,
    };
    for _ in rt.forever() {
        let _made = stretch.run(quantum);
        gate.between(worker, turn);
        let taken = if gate.give_back(worker, turn) {
            if let Err(stretch) = shared.put_back(rt, stretch) {
                stretch.forfeit();
                return STRANGER;
            }
            shared.take(rt, alloc, quantum)
        } else {
            match shared.commit_and_take(rt, stretch, alloc, quantum) {
                Ok(next) => Ok(next),
                Err(HomeFault::NoMemory) => Err(NoMemory),
                Err(HomeFault::Stranger(stretch)) => {
                    stretch.forfeit();
                    return STRANGER;
                }
            }
        };
        stretch = match work_of(taken) {
            Ok(stretch) => stretch,
            Err(met) => return met,
        };
        turn = turn.wrapping_add(1);
    }
    unreachable!()
}

/// Returns the stretch that was taken, or what ends the worker that was given none.
#[inline(always)]
fn work_of<'v, C: CodeBrand>(taken: Result<Taken<'v, C>, NoMemory>) -> Result<Stretch<'v, C>, Met> {
    match taken {
        Ok(Taken::Work(stretch)) => Ok(stretch),
        Ok(Taken::Over(_)) => Err(NOTHING),
        Ok(Taken::Idle) => Err(NOTHING),
        Err(NoMemory) => Err(NO_MEMORY),
    }
}
