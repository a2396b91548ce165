//! What `plan` says, told as lines and as objects.

use pb_base::{Lending, MemoryInput, MemoryOutput, NoMemory};
use pb_capitals::{Changes, changes_of};
use pb_command_io::Status;
use pb_example_texts::banker::{BARBER, BOUNDED_BUFFER, FIVE_PHILOSOPHERS, READERS_WRITERS};
use pb_example_texts::claims::{ARMS_ADD, BRANCHES, NIGHT, TOO_MUCH};
use pb_example_texts::deadlock::{IN_TURN, ORDERED, TWO_PHASE};
use pb_example_texts::first::{CUSTOMERS, DEVICES, PHILOSOPHERS};
use pb_example_texts::grading::TYPED;
use pb_example_texts::limits::{AMOUNTS, FORK, PROCESSES, RESOURCES};
use pb_example_texts::plan::{COPIES, LISTS, ROOMY, WEEK};
use pb_json_lines::{Dialect, json_lines};
use pb_plan_engine::write_plan;
use pb_voice::Form;
use std::alloc::Global;

/// Two processes that hold two resources in two orders; one is called as a line of other commands.
const CIRCLE: &[u8] =
    b"resource tape = 2; resource disk = 3;\nprocess p begin hold 2 of tape do\nhold 3 of disk do print 1 od od end\nprocess deadlock begin hold 1 of disk do\nhold 1 of tape do print 1 od od end\n";

/// A text, and one that is no program with it.
const TWO: &[u8] =
    b"resource tape = 2; process p begin hold 2 of tape do print 1 od end\n%%\nresource tape = 2; process q begin hold 1 of tape do print 1 od end\n";

const TWO_CAPITALS: &[u8] =
    b"resource tape = 2; process p begin print 1 end\n%%\nresource tape = 3; process q begin print 1 end\n";

const OBJECTS: &[u8] =
    b"{\"kind\":\"claim\",\"process\":\"p\",\"of_text\":1,\"claim\":2,\"resource\":\"tape\",\"lines\":[1]}\n{\"kind\":\"claim\",\"process\":\"q\",\"of_text\":2,\"claim\":1,\"resource\":\"tape\",\"lines\":[1]}\n{\"kind\":\"resource\",\"resource\":\"tape\",\"capital\":2,\"least\":2,\"free\":3}\n{\"kind\":\"bottleneck\",\"resource\":\"tape\"}\n{\"kind\":\"order\",\"text\":\"tape\"}\n";

/// Writes the plan of texts, and returns its status.
fn status_of(
    alloc: Global,
    form: Form,
    changes: &Changes,
    text: &[u8],
    output: &mut MemoryOutput,
) -> Status {
    let mut input = MemoryInput::new(text);
    write_plan(alloc, form, Lending::ByCash, changes, &mut input, output)
}

/// Returns the status of the plan of a text, if it is told alike: the objects are the JSON lines of the lines, and the status is
/// the same.
fn status_if_alike(
    alloc: Global,
    changes: &Changes,
    text: &[u8],
) -> Result<Option<Status>, NoMemory> {
    let mut lines = MemoryOutput::new(alloc, 20_000)?;
    let mut objects = MemoryOutput::new(alloc, 40_000)?;
    let of_lines = status_of(alloc, Form::Lines, changes, text, &mut lines);
    let of_objects = status_of(alloc, Form::Objects, changes, text, &mut objects);
    let made = json_lines(alloc, Dialect::Program, lines.as_slice())?;
    let alike = of_lines == of_objects && objects.as_slice() == made.as_slice();
    Ok(if alike { Some(of_lines) } else { None })
}

/// Returns whether the plan of a text is told alike, with this status.
fn says_the_same(
    alloc: Global,
    changes: &Changes,
    text: &[u8],
    status: Status,
) -> Result<bool, NoMemory> {
    Ok(status_if_alike(alloc, changes, text)? == Some(status))
}

/// Returns whether the plan of each of these texts is told alike.
fn all_are_alike(alloc: Global, texts: &[&[u8]]) -> Result<bool, NoMemory> {
    let none = Changes::none();
    for text in texts {
        if status_if_alike(alloc, &none, text)?.is_none() {
            return Ok(false);
        }
    }
    Ok(true)
}

/// Returns whether two texts are planned as these objects.
fn plans(alloc: Global) -> Result<bool, NoMemory> {
    let mut objects = MemoryOutput::new(alloc, 2_000)?;
    let none = Changes::none();
    let status = status_of(alloc, Form::Objects, &none, TWO, &mut objects);
    Ok(status == Status::Done && objects.as_slice() == OBJECTS)
}

/// Returns whether a change that names no resource is refused alike.
fn unknown_is_told_alike(alloc: Global) -> Result<bool, NoMemory> {
    let Some(changes) = changes_of(&["drum=2"]) else {
        return Ok(false);
    };
    says_the_same(alloc, &changes, TWO, Status::Refused)
}

#[test]
fn a_plan_is_told(rt: HostRuntime) {
    assert!(rt; matches!(plans(rt.alloc()), Ok(true)));
}

#[test]
fn plans_are_told_alike(rt: HostRuntime) {
    let alloc = rt.alloc();
    let none = Changes::none();
    let text = b"process p begin print 1 end";
    assert!(rt;
        matches!(
            says_the_same(alloc, &none, CIRCLE, Status::Deadlock),
            Ok(true)
        )
    );
    assert!(rt; matches!(says_the_same(alloc, &none, TWO, Status::Done), Ok(true)));
    assert!(rt; matches!(says_the_same(alloc, &none, text, Status::Done), Ok(true)));
}

#[test]
fn refusals_of_plans_are_told_alike(rt: HostRuntime) {
    let alloc = rt.alloc();
    let none = Changes::none();
    let text = b"process p begin print x end";
    assert!(rt; matches!(says_the_same(alloc, &none, text, Status::Refused), Ok(true)));
    assert!(rt;
        matches!(
            says_the_same(alloc, &none, TWO_CAPITALS, Status::Refused),
            Ok(true)
        )
    );
    assert!(rt; matches!(unknown_is_told_alike(alloc), Ok(true)));
}

#[test]
fn plans_of_examples_are_told_alike(rt: HostRuntime) {
    let alloc = rt.alloc();
    let lessons: &[&[u8]] = &[
        ARMS_ADD,
        BARBER,
        BOUNDED_BUFFER,
        BRANCHES,
        COPIES,
        FIVE_PHILOSOPHERS,
        IN_TURN,
        LISTS,
        NIGHT,
        ORDERED,
        READERS_WRITERS,
        ROOMY,
        TOO_MUCH,
        TWO_PHASE,
        WEEK,
    ];
    let others: &[&[u8]] = &[
        AMOUNTS,
        CUSTOMERS,
        DEVICES,
        FORK,
        PHILOSOPHERS,
        PROCESSES,
        RESOURCES,
        TYPED,
    ];
    assert!(rt; matches!(all_are_alike(alloc, lessons), Ok(true)));
    assert!(rt; matches!(all_are_alike(alloc, others), Ok(true)));
}
