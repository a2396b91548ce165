//! The command `draw`, over any input, teller and output.

ghost use Rattle.std.specs.Prelude.{◌≡◌, ◌≤◌, [], ◌∷◌, IfOk, OnErr, length};
ghost use Rattle.pb_accept.specs.Claims.{SaysOfAny};
ghost use Rattle.pb_accept.specs.Sayings.{NoMemory as OutOfMemory};
ghost use Rattle.pb_draw_engine.specs.Draws.{Fits, IsDrawn, IsSomeCircle, SaysOfDraw, SaysOfDrawnLines, is_stuck, size_of};
ghost use Rattle.pb_code.specs.View.{labels_view};
ghost use Rattle.pb_command_io.specs.declared.status.Status.TheVariants as status;
ghost use Rattle.pb_history.specs.Entries.{picks_of};
ghost use Rattle.pb_history.specs.Positions.{AreEnabledBy};
ghost use Rattle.pb_machine.specs.Views.{IsMachine, IsMachineBy, machine_view};
ghost use Rattle.pb_options.specs.Lends.{lending_for};
ghost use Rattle.pb_voice.specs.Held.{at};
ghost use Rattle.pb_voice.specs.Tellings.{Answers, Ends, Speaks};

use pb_accept::{
    Ending, Said, Teller, code_of_text, end_status, ending_of, make_lines_by, read_or_tell,
    status_at, tell_fault, tell_last, tell_lines_fault,
};
use pb_base::limits::{MAX_INPUT, MAX_PICKS};
use pb_base::{Input, Lending, NoMemory, Output};
use pb_circles::{Link, find_circle};
use pb_code::Labels;
use pb_command_io::{Reply, Status, two_parts};
use pb_draw::draw;
use pb_draw_picture::{Size, lay_out, write_svg};
use pb_history::Trace;
use pb_machine::Machine;
use pb_options::DrawOptions;
use pb_verifier::Verified;
use std::alloc::Global;

/// The most bytes of a picture.
pub const MAX_PICTURE: usize = 8_388_608;

/// Makes the picks that the pick lines after the text of the input say, from the start of the text, under
/// whoever decides on requests, and tells a picture of that run as SVG. A line `%%` separates the text from the pick
/// lines. If the text, a line or a pick is refused, only the refusal is told, as by `replay`; and of a picture that would
/// be longer than 8 MB only that this is the limit, with status `Limit`.
///
/// The status is `Deadlock` if some process has neither ended nor faulted and no pick is enabled, which the picture says
/// too, and else `Fault` if a process faulted. After a read that failed nothing is told; after a write that failed, no
/// more.
pub fn draw_engine<I: Input, O: Output, T: Teller>(
    alloc: Global,
    options: DrawOptions,
    input: &mut I,
    teller: &mut T,
    output: &mut O,
) -> Status
    ensures { Answers T.tells T.breaks (SaysOfAny (SaysOfDraw (lending_for options.lend) (size_of options))) (I.rest input.old)
        (I.failures input.old) (I.failures input.new) (at O.written O.failures teller.old output.old)
        (at O.written O.failures teller.new output.new) result }
{
    match read_or_tell(alloc, input, teller, output) {
        Ok(bytes) => draw_bytes(
            alloc,
            options.lend.lending(),
            size_of(options),
            &bytes,
            teller,
            output,
        ),
        Err(status) => status,
    }
}

/// Draws the run of a whole input.
fn draw_bytes<O: Output, T: Teller>(
    alloc: Global,
    lending: Lending,
    size: Size,
    bytes: &[u8],
    teller: &mut T,
    output: &mut O,
) -> Status
    requires { length bytes.now ≤ MAX_INPUT }
    ensures { Speaks T.tells T.breaks (SaysOfAny (SaysOfDraw lending size) bytes.now) (at O.written O.failures teller.old output.old)
        (at O.written O.failures teller.new output.new) result }
{
    let (text, lines) = two_parts(bytes);
    match code_of_text(alloc, text) {
        Ok(compiled) => {
            let status = draw_lines(
                alloc,
                lending,
                size,
                compiled.verified(),
                compiled.labels(),
                lines,
                teller,
                output,
            );
            drop(compiled);
            status
        }
        Err(fault) => tell_fault(teller, output, &fault),
    }
}

/// Draws the run that lines say, or tells why their picks are not made.
fn draw_lines<O: Output, T: Teller>(
    alloc: Global,
    lending: Lending,
    size: Size,
    verified: &Verified,
    labels: &Labels,
    lines: &[u8],
    teller: &mut T,
    output: &mut O,
) -> Status
    ensures { Speaks T.tells T.breaks (SaysOfDrawnLines lending size verified.now.code (labels_view labels.now) lines.now)
        (at O.written O.failures teller.old output.old) (at O.written O.failures teller.new output.new) result }
{
    match make_lines_by(alloc, lending, verified, lines) {
        Ok((machine, trace)) => {
            let mut machine = machine;
            let picture = drawn(alloc, lending, size, verified, labels, &trace, &mut machine);
            tell_drawn(picture, teller, output)
        }
        Err(fault) => tell_lines_fault(teller, output, fault),
    }
}

/// Tells a picture with its status, or out of memory.
fn tell_drawn<O: Output, T: Teller>(
    picture: Result<Reply, NoMemory>,
    teller: &mut T,
    output: &mut O,
) -> Status
    ensures picture { IfOk picture (λ r. Speaks T.tells T.breaks (Fits r.text.items r.status)
        (at O.written O.failures teller.old output.old) (at O.written O.failures teller.new output.new) result) }
    ensures memory { OnErr picture (Ends T.tells T.breaks (at O.written O.failures teller.old output.old) (OutOfMemory ∷ []) status.Memory
        (at O.written O.failures teller.new output.new) result) }
{
    match picture {
        Ok(picture) => tell_if_it_fits(&picture, teller, output),
        Err(_) => tell_last(teller, output, Said::NoMemory, Status::Memory),
    }
}

/// Tells a picture, or of one that is too large that this is the limit.
fn tell_if_it_fits<O: Output, T: Teller>(picture: &Reply, teller: &mut T, output: &mut O) -> Status
    ensures { Speaks T.tells T.breaks (Fits picture.now.text.items picture.now.status) (at O.written O.failures teller.old output.old)
        (at O.written O.failures teller.new output.new) result }
{
    if picture.text.len() > MAX_PICTURE {
        return tell_last(
            teller,
            output,
            Said::Limit(MAX_PICTURE as u32),
            Status::Limit,
        );
    }
    tell_last(teller, output, Said::Text(&picture.text), picture.status)
}

/// Returns the picture of a replay.
fn drawn(
    alloc: Global,
    lending: Lending,
    size: Size,
    verified: &Verified,
    labels: &Labels,
    trace: &Trace,
    machine: &mut Machine,
) -> Result<Reply, NoMemory>
    requires enabled { AreEnabledBy lending verified.now.code (picks_of trace.now.entries) }
    requires few { length trace.now.entries ≤ MAX_PICKS }
    requires machine { IsMachineBy lending verified.now machine.old }
    ensures { IfOk result (λ r. IsDrawn lending size verified.now.code (labels_view labels.now) trace.now.entries (machine_view machine.old)
        r.text.items r.status) }
{
    let code = verified.code();
    let circle = circle_of(alloc, verified, machine)?;
    let faulted = status_at(machine);
    let ending = ending_of(machine, verified);
    let drawing = draw(alloc, verified, labels, lending, trace)?;
    let picture = lay_out(
        alloc,
        &code.names,
        labels,
        &code.capital,
        &drawing,
        is_stuck(ending),
        circle.as_slice(),
    )?;
    let text = write_svg(alloc, size, &picture)?;
    Ok(Reply {
        text,
        status: end_status(ending, faulted),
    })
}

/// Returns the links of a circular wait, if there is one, and else none.
fn circle_of(alloc: Global, verified: &Verified, machine: &Machine) -> Result<Vec<Link>, NoMemory>
    requires { IsMachine verified.now machine.now }
    ensures { IfOk result (λ links. IsSomeCircle verified.now.code (machine_view machine.now) links.items) }
{
    match find_circle(alloc, verified, machine)? {
        Some(circle) => Ok(circle),
        None => Ok(Vec::new(alloc)),
    }
}

/// Returns how large these options ask a picture to be.
fn size_of(options: DrawOptions) -> Size
    ensures { result ≡ size_of options }
{
    Size {
        width: options.width,
        scale: options.scale,
    }
}

/// Returns whether a replay has ended in a deadlock.
fn is_stuck(ending: Ending) -> bool
    ensures { result ≡ is_stuck ending }
{
    match ending {
        Ending::Stuck => true,
        Ending::Over | Ending::Open => false,
    }
}
