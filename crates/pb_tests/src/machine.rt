//! Code of objects, and what its machine shows.

ghost use Rattle.std.specs.Prelude.{◌<◌, length, IfSome};
ghost use Rattle.pb_machine.specs.Views.{machine_view, IsMachineOf, IsProcessOf};

use pb_base::{Event, FaultKind, Pick, Step};
use pb_groups::{Group, groups_of_code};
use pb_machine::{Machine, Proc, ThreadState};
use pb_object::read_object;
use pb_verifier::{Verified, verify};
use std::alloc::Global;
use std::mem::size_of;

/// What a step showed, of the process and the arm.
#[derive(Clone, Copy, PartialEq, Eq)]
enum Seen {
    Granted(u8, u8),
    Returned(u8, u8),
    Printed(u8, u8, i64),
    Faulted(u8, u8, FaultKind),
    Finished(u8),
}

fn shown(event: Event) -> Seen {
    match event {
        Event::Granted { pick, .. } => Seen::Granted(pick.process, pick.arm),
        Event::Returned { pick, .. } => Seen::Returned(pick.process, pick.arm),
        Event::Printed { pick, value } => Seen::Printed(pick.process, pick.arm, value),
        Event::Faulted { pick, kind } => Seen::Faulted(pick.process, pick.arm, kind),
        Event::Finished { process } => Seen::Finished(process),
    }
}

/// Returns the verified code of an object.
pub(crate) fn code_of(alloc: Global, object: &[u8]) -> Option<Verified> {
    let code = read_object(alloc, object).ok()?;
    verify(alloc, code).ok()
}

/// Makes a pick if it is enabled. Returns whether it shows nothing, or what is wanted next, which it counts.
fn goes_on(
    verified: &Verified,
    machine: &mut Machine,
    pick: Pick,
    wanted: &[Seen],
    count: &mut usize,
) -> bool
    requires { IsMachineOf verified.now machine.old }
    ensures { IsMachineOf verified.now machine.new }
{
    match machine.step(verified, pick) {
        Step::Did(event) => {
            let next = *count;
            *count = next.saturating_add(1);
            wanted.get(next) == Some(&shown(event))
        }
        _ => true,
    }
}

/// Returns whether a list of picks, made this many times from its start, has these events. A pick that is not
/// enabled is passed over.
fn shows(
    verified: &Verified,
    machine: &mut Machine,
    times: u8,
    picks: &[Pick],
    wanted: &[Seen],
) -> bool
    requires { IsMachineOf verified.now machine.old }
    ensures { IsMachineOf verified.now machine.new }
{
    let mut count = 0;
    for _round in 0..times {
        for pick in picks {
            if !goes_on(verified, machine, *pick, wanted, &mut count) {
                return false;
            }
        }
    }
    count == wanted.len()
}

/// Returns what a process holds of a resource, if both are there.
fn loan(machine: &Machine, p: usize, r: usize) -> Option<u32> {
    let bank = machine.lender();
    if p >= bank.processes() || r >= bank.resources() {
        return None;
    }
    Some(bank.loan(p, r))
}

/// Returns the state of an arm and its place, if there is such an arm.
fn arm_state(machine: &Machine, p: usize, arm: usize) -> Option<(ThreadState, Option<u16>)> {
    if p >= machine.processes() {
        return None;
    }
    let process = machine.proc(p);
    if arm >= process.arms() {
        return None;
    }
    let thread = process.thread(arm);
    Some((thread.state(), thread.place()))
}

/// What is done with a machine, or found in it.
#[derive(Clone, Copy)]
enum Act {
    /// The picks of a list, made one after the other and the list this many times, have these events; one that
    /// is not enabled is passed over.
    Picks(u8, &'static [Pick], &'static [Seen]),
    /// A process holds this amount of a resource.
    Holds(usize, usize, u32),
    /// An arm of a process has this state, and is at this place.
    Arm(usize, usize, ThreadState, Option<u16>),
    /// All processes are over, or not.
    Finished(bool),
}

/// Returns whether the machine does this, or whether this is found in it.
fn does(verified: &Verified, machine: &mut Machine, act: Act) -> bool
    requires { IsMachineOf verified.now machine.old }
    ensures { IsMachineOf verified.now machine.new }
{
    match act {
        Act::Picks(times, picks, wanted) => shows(verified, machine, times, picks, wanted),
        Act::Holds(p, r, amount) => loan(machine, p, r) == Some(amount),
        Act::Arm(p, arm, state, place) => arm_state(machine, p, arm) == Some((state, place)),
        Act::Finished(wanted) => machine.finished() == wanted,
    }
}

/// Returns whether the machine does all this, in turn.
fn does_each(verified: &Verified, machine: &mut Machine, acts: &[Act]) -> bool
    requires { IsMachineOf verified.now machine.old }
    ensures { IsMachineOf verified.now machine.new }
{
    for act in acts {
        if !does(verified, machine, *act) {
            return false;
        }
    }
    true
}

/// The picks of four arms of one process, and some of them.
const ARMS: [Pick; 4] = [
    Pick { process: 0, arm: 0 },
    Pick { process: 0, arm: 1 },
    Pick { process: 0, arm: 2 },
    Pick { process: 0, arm: 3 },
];

const THREE_ARMS: [Pick; 3] = [
    Pick { process: 0, arm: 0 },
    Pick { process: 0, arm: 1 },
    Pick { process: 0, arm: 2 },
];

/// The picks of two processes.
const PROCESSES: [Pick; 2] = [Pick { process: 0, arm: 0 }, Pick { process: 1, arm: 0 }];

/// Three rounds of two arms, of which one prints the number of the round, and the other ten more.
const ROUNDS: &[u8] = b"PBO 1
resources 2
resource r 4
resource s 1
processes 1
process p
vars 1
arms 3
claims 4 1
arm 0
arm 12
arm 15
code 20
load 0
push 3
lt
jzero 11
fork 1 2
join 1 2
load 0
push 1
add
store 0
jump 0
end
load 0
print
end
load 0
push 10
add
print
end
";

const ROUNDS_PLAYED: [Act; 5] = [
    Act::Finished(false),
    Act::Picks(
        60,
        &ARMS,
        &[
            Seen::Printed(0, 1, 0),
            Seen::Printed(0, 2, 10),
            Seen::Printed(0, 1, 1),
            Seen::Printed(0, 2, 11),
            Seen::Printed(0, 1, 2),
            Seen::Printed(0, 2, 12),
            Seen::Finished(0),
        ],
    ),
    Act::Finished(true),
    Act::Arm(0, 0, ThreadState::Ended, None),
    Act::Arm(0, 2, ThreadState::Idle, None),
];

/// Two arms hold in the hold of their process.
const HOLDS: &[u8] = b"PBO 1
resources 2
resource r 4
resource s 1
processes 1
process p
vars 1
arms 3
claims 4 1
arm 0
arm 5
arm 8
code 11
take 0 1
fork 1 2
join 1 2
give 0 1
end
take 0 1
give 0 1
end
take 0 2
give 0 2
end
";

const HOLDS_PLAYED: [Act; 4] = [
    Act::Picks(
        3,
        &THREE_ARMS,
        &[
            Seen::Granted(0, 0),
            Seen::Granted(0, 1),
            Seen::Granted(0, 2),
            Seen::Returned(0, 1),
            Seen::Returned(0, 2),
        ],
    ),
    Act::Holds(0, 0, 1),
    Act::Picks(4, &THREE_ARMS, &[Seen::Returned(0, 0), Seen::Finished(0)]),
    Act::Holds(0, 0, 0),
];

/// One arm divides by zero while the other holds.
const FAULT: &[u8] = b"PBO 1
resources 2
resource r 4
resource s 1
processes 1
process p
vars 1
arms 3
claims 4 1
arm 0
arm 3
arm 6
code 11
fork 1 2
join 1 2
end
take 0 2
give 0 2
end
push 1
push 0
div
print
end
";

const FAULT_PLAYED: [Act; 7] = [
    Act::Picks(
        1,
        &[
            Pick { process: 0, arm: 0 },
            Pick { process: 0, arm: 1 },
            Pick { process: 0, arm: 2 },
            Pick { process: 0, arm: 2 },
        ],
        &[Seen::Granted(0, 1)],
    ),
    Act::Holds(0, 0, 2),
    Act::Picks(
        1,
        &[
            Pick { process: 0, arm: 2 },
            Pick { process: 0, arm: 1 },
            Pick { process: 0, arm: 0 },
        ],
        &[Seen::Faulted(0, 2, FaultKind::Divide)],
    ),
    Act::Holds(0, 0, 0),
    Act::Arm(0, 0, ThreadState::Idle, None),
    Act::Arm(0, 1, ThreadState::Idle, None),
    Act::Finished(true),
];

/// Two processes that take the two resources in turn, one the first and then the second, the other the other
/// way round.
pub(crate) const CROSSED: &[u8] = b"PBO 1
resources 2
resource r 1
resource s 1
processes 2
process p
vars 1
arms 1
claims 1 1
arm 0
code 5
take 0 1
take 1 1
give 1 1
give 0 1
end
process q
vars 1
arms 1
claims 1 1
arm 0
code 5
take 1 1
take 0 1
give 0 1
give 1 1
end
";

const CROSSED_AT_FIRST: [Act; 3] = [
    Act::Picks(1, &PROCESSES, &[Seen::Granted(0, 0)]),
    Act::Arm(1, 0, ThreadState::Live, Some(0)),
    Act::Holds(1, 1, 0),
];

const CROSSED_THEN: [Act; 2] = [
    Act::Picks(
        12,
        &PROCESSES,
        &[
            Seen::Granted(0, 0),
            Seen::Returned(0, 0),
            Seen::Returned(0, 0),
            Seen::Granted(1, 0),
            Seen::Finished(0),
            Seen::Granted(1, 0),
            Seen::Returned(1, 0),
            Seen::Returned(1, 0),
            Seen::Finished(1),
        ],
    ),
    Act::Finished(true),
];

/// Returns whether the machine does what is said of the crossed processes at first and then, and a copy in
/// between stays as it was.
fn copy_stays(alloc: Global, verified: &Verified, machine: &mut Machine) -> Option<bool>
    requires { IsMachineOf verified.now machine.old }
{
    if !does_each(verified, machine, &CROSSED_AT_FIRST) {
        return None;
    }
    let copy = machine.copy(alloc).ok()?;
    if !does_each(verified, machine, &CROSSED_THEN) {
        return None;
    }
    Some(!copy.finished() && loan(&copy, 0, 0) == Some(1))
}

/// Returns the first process once more, apart from its machine.
fn apart(alloc: Global, verified: &Verified, machine: &Machine) -> Option<Proc>
    requires of { IsMachineOf verified.now machine.now }
    requires there { 0 < length (machine_view machine.now).processes }
    ensures { IfSome result (IsProcessOf verified.now 0) }
{
    let process = machine.proc(0).copy(alloc).ok()?;
    Some(process)
}

/// Divides by zero.
const DIVIDES: &[u8] = b"PBO 1
resources 2
resource r 4
resource s 1
processes 1
process p
vars 1
arms 1
claims 4 1
arm 0
code 5
push 1
push 0
div
print
end
";

const PICK: Pick = Pick { process: 0, arm: 0 };

/// The pick of an arm that is not there.
const NO_ARM: Pick = Pick { process: 0, arm: 1 };

/// Returns whether a process apart from its machine makes two silent picks, and differs then.
fn moves(verified: &Verified, apart: &mut Proc, machine: &Machine) -> bool
    requires of { IsProcessOf verified.now 0 apart.old }
    requires there { 0 < length (machine_view machine.now).processes }
    ensures { IsProcessOf verified.now 0 apart.new }
{
    if !apart.same(machine.proc(0)) || !apart.silent(verified, PICK) {
        return false;
    }
    apart.silent(verified, PICK) && !apart.same(machine.proc(0))
}

/// Returns whether a process makes no more silent picks, and stays as it was before.
fn stays(verified: &Verified, apart: &mut Proc, before: &Proc) -> bool
    requires of { IsProcessOf verified.now 0 apart.old }
    ensures { IsProcessOf verified.now 0 apart.new }
{
    if apart.silent(verified, PICK) || apart.silent(verified, NO_ARM) {
        return false;
    }
    apart.same(before)
}

/// Returns whether silent picks are made apart from the machine, and those that show something are left to
/// it.
fn moves_apart(alloc: Global, verified: &Verified, machine: &mut Machine) -> Option<bool>
    requires { IsMachineOf verified.now machine.old }
{
    if machine.processes() != 1 {
        return None;
    }
    let mut apart = apart(alloc, verified, machine)?;
    if !moves(verified, &mut apart, machine) {
        return None;
    }
    let before = apart.copy(alloc).ok()?;
    if !stays(verified, &mut apart, &before) {
        return None;
    }
    machine.exchange(0, &mut apart);
    Some(machine.processes() == 1 && before.same(machine.proc(0)))
}

/// Counts to three by rounds of nine picks, tests once more by four, puts two operands, and adds them, which
/// overflows.
const COUNT_AND_OVERFLOW: &[u8] = b"PBO 1
resources 2
resource r 4
resource s 1
processes 1
process p
vars 1
arms 1
claims 4 1
arm 0
code 14
load 0
push 3
lt
jzero 9
load 0
push 1
add
store 0
jump 0
push 9223372036854775807
load 0
add
print
end
";

/// Returns whether a run stops at its limit, also in the midst of a round, and before the fault, which it
/// leaves to the machine; it leaves what as many picks leave that are made one by one.
fn stops(verified: &Verified, run: &mut Proc, one_by_one: &mut Proc) -> bool
    requires run { IsProcessOf verified.now 0 run.old }
    requires picks { IsProcessOf verified.now 0 one_by_one.old }
{
    if run.run_silent(verified, PICK, 2) != 2 {
        return false;
    }
    if !one_by_one.silent(verified, PICK) || !one_by_one.silent(verified, PICK) {
        return false;
    }
    if !run.same(one_by_one) || run.run_silent(verified, NO_ARM, 5) != 0 {
        return false;
    }
    if run.run_silent(verified, PICK, 30) != 30 || run.same(one_by_one) {
        return false;
    }
    if one_by_one.run_silent(verified, PICK, 40) != 31 {
        return false;
    }
    if run.run_silent(verified, PICK, 40) != 1 {
        return false;
    }
    run.same(one_by_one) && !run.silent(verified, PICK)
}

fn stops_apart(alloc: Global, verified: &Verified, machine: &Machine) -> Option<bool>
    requires { IsMachineOf verified.now machine.now }
{
    if machine.processes() != 1 {
        return None;
    }
    let mut run = apart(alloc, verified, machine)?;
    let mut one_by_one = apart(alloc, verified, machine)?;
    Some(stops(verified, &mut run, &mut one_by_one))
}

/// Returns what the machine shows after silent runs of its process, if they are as long as they have to be.
fn shown_after_runs(verified: &Verified, machine: &mut Machine) -> Option<Seen>
    requires { IsMachineOf verified.now machine.old }
{
    if machine.run_silent(verified, PICK, 20) != 20 {
        return None;
    }
    if machine.run_silent(verified, PICK, 20) != 13 {
        return None;
    }
    if machine.run_silent(verified, PICK, 20) != 0 {
        return None;
    }
    if machine.run_silent(verified, Pick { process: 1, arm: 0 }, 20) != 0 {
        return None;
    }
    match machine.step(verified, PICK) {
        Step::Did(event) => Some(shown(event)),
        _ => None,
    }
}

/// How many picks the group at each place of that code makes: after the first test a round is one group,
/// with the test of the next round, and no group has the jump alone, the print or the end.
const COUNTS: [u8; 14] = [4, 3, 2, 1, 9, 4, 3, 2, 0, 3, 2, 1, 0, 0];

/// Returns whether the group at each place makes as many picks.
fn have_counts(groups: &[Group], counts: &[u8]) -> bool {
    if groups.len() != counts.len() {
        return false;
    }
    for (place, group) in groups.iter().enumerate() {
        if counts.get(place) != Some(&group.count) {
            return false;
        }
    }
    true
}

/// Returns whether verified code has the groups of its first process, and they are those that are found in
/// the code.
fn have_groups(alloc: Global, verified: &Verified) -> Option<bool> {
    let code = verified.code();
    if code.processes.is_empty() {
        return None;
    }
    let tables = groups_of_code(alloc, code).ok()?;
    let found = tables.as_slice().first()?;
    Some(have_counts(found.as_slice(), &COUNTS) && have_counts(verified.groups(0), &COUNTS))
}

/// A group takes 24 bytes at most.
const _: () = prove!(size_of::<Group>() <= 24);

/// What is tried of a machine and its code.
#[derive(Clone, Copy)]
enum Trial {
    Plays(&'static [Act]),
    CopyStays,
    MovesApart,
    StopsApart,
    FaultsAfterRuns,
    HasGroups,
}

/// Returns whether a trial comes out as it should.
fn comes_out(alloc: Global, verified: &Verified, machine: &mut Machine, trial: Trial) -> bool
    requires { IsMachineOf verified.now machine.old }
{
    match trial {
        Trial::Plays(acts) => does_each(verified, machine, acts),
        Trial::CopyStays => copy_stays(alloc, verified, machine) == Some(true),
        Trial::MovesApart => moves_apart(alloc, verified, machine) == Some(true),
        Trial::StopsApart => stops_apart(alloc, verified, machine) == Some(true),
        Trial::FaultsAfterRuns => {
            shown_after_runs(verified, machine) == Some(Seen::Faulted(0, 0, FaultKind::Overflow))
        }
        Trial::HasGroups => have_groups(alloc, verified) == Some(true),
    }
}

/// Returns whether a trial of the machine of an object comes out as it should.
fn is_so(alloc: Global, object: &[u8], trial: Trial) -> bool {
    let Some(verified) = code_of(alloc, object) else {
        return false;
    };
    match Machine::new(alloc, &verified) {
        Ok(machine) => {
            let mut machine = machine;
            comes_out(alloc, &verified, &mut machine, trial)
        }
        Err(_) => false,
    }
}

/// Objects, and what is tried of the machine of each.
const TRIALS: [(&[u8], Trial, &str); 8] = [
    (ROUNDS, Trial::Plays(&ROUNDS_PLAYED), "rounds of two arms"),
    (HOLDS, Trial::Plays(&HOLDS_PLAYED), "nested holds"),
    (FAULT, Trial::Plays(&FAULT_PLAYED), "a fault beside a hold"),
    (CROSSED, Trial::CopyStays, "a request is refused"),
    (DIVIDES, Trial::MovesApart, "silent picks apart"),
    (COUNT_AND_OVERFLOW, Trial::StopsApart, "silent runs apart"),
    (
        COUNT_AND_OVERFLOW,
        Trial::FaultsAfterRuns,
        "silent runs of the machine",
    ),
    (COUNT_AND_OVERFLOW, Trial::HasGroups, "groups of a process"),
];

#[test]
fn machines_do_what_their_code_says(rt: HostRuntime) {
    for (object, trial, name) in &TRIALS {
        assert!(rt; is_so(rt.alloc(), *object, *trial), "{name}");
    }
}
