//! Whole inputs, and the pictures or the refusals that are written of them.

use pb_base::{FaultyInput, MemoryInput, MemoryOutput};
use pb_command_io::Status;
use pb_draw_engine::write_drawing;
use pb_engines::write_replay;
use pb_options::{DrawOptions, Lend, ReplayOptions};
use pb_voice::Form;
use std::alloc::Global;

/// An input, the options, the size that its picture begins with, the shapes after [`LOOKS`], and the status.
struct Case {
    input: &'static [u8],
    options: DrawOptions,
    head: &'static [u8],
    shapes: &'static [u8],
    status: Status,
}

/// What is in each picture between its size and its shapes.
const LOOKS: &[u8] =
    b"\">\n<title>A run, pick by pick</title>\n<style>\ntext{font:11px monospace;fill:#000}\npath{fill:#000}\n.name{font-weight:bold}\n.number,.silent,.note,.again,.wait text{fill:#555;font-size:10px}\n.amount{font-size:10px}\n.paper{fill:#fff}\n.gap{fill:#eee}\n.going{fill:#999}\n.short{fill:url(#hatch);stroke:#000;stroke-width:.5}\n.kept{fill:url(#dots);stroke:#000;stroke-width:.5}\n.hatch{stroke:#000}\n.deadlock{fill:#c00;font-weight:bold}\n.hold{stroke:#000;stroke-width:.5}\n.level{fill:#333}\n.r0{fill:#bfe1f6}\n.r1{fill:#f7dca3}\n.r2{fill:#a3dccb}\n.r3{fill:#edcbdd}\n.r4{fill:#f9f5b9}\n.r5{fill:#8fb8dc}\n.r6{fill:#f1c4a6}\n.r7{fill:#d9d9d9}\n.print path{fill:#fff;stroke:#000;stroke-width:1.5}\n.fault path{stroke:#c00;stroke-width:2.5}\n.read path{fill:#fff;stroke:#000}\n@media (prefers-color-scheme:dark){\ntext{fill:#eee}\npath{fill:#eee}\n.number,.silent,.note,.again,.wait text{fill:#aaa}\n.paper{fill:#1b1b1b}\n.gap{fill:#333}\n.going{fill:#888}\n.short,.kept{stroke:#eee}\n.hatch{stroke:#eee}\n.deadlock{fill:#f66}\n.hold{stroke:#eee}\n.level{fill:#ddd}\n.r0{fill:#1f5f86}\n.r1{fill:#7a5600}\n.r2{fill:#00604a}\n.r3{fill:#74405d}\n.r4{fill:#6b6600}\n.r5{fill:#00436a}\n.r6{fill:#7d3800}\n.r7{fill:#555}\n.print path,.read path{fill:#1b1b1b;stroke:#eee}\n.fault path{stroke:#f66}\n}\n</style>\n<defs><pattern id=\"hatch\" width=\"5\" height=\"5\" patternUnits=\"userSpaceOnUse\"><path class=\"hatch\" d=\"M0 5L5 0\"/></pattern><pattern id=\"dots\" width=\"8\" height=\"8\" patternUnits=\"userSpaceOnUse\"><path d=\"M2 4a2 2 0 1 0 4 0a2 2 0 1 0-4 0z\"/></pattern></defs>\n<rect class=\"paper\" width=\"100%\" height=\"100%\"/>\n";

/// A run to its end, and a run whose hold is not given back.
const RUNS: [Case; 2] = [
    Case {
        input: PRINT,
        options: BY_BANKER,
        head: b"<svg xmlns=\"http://www.w3.org/2000/svg\" width=\"680\" height=\"166\" viewBox=\"0 0 680 166",
        shapes: PRINTED,
        status: Status::Done,
    },
    Case {
        input: b"resource tape = 1;\nprocess a begin hold 1 of tape do print 1 od end\n%%\na.0 3\n",
        options: BY_BANKER,
        head: b"<svg xmlns=\"http://www.w3.org/2000/svg\" width=\"680\" height=\"260\" viewBox=\"0 0 680 260",
        shapes: b"<rect class=\"going\" x=\"128\" y=\"66\" width=\"177\" height=\"8\"/>\n<rect class=\"hold r0\" x=\"176\" y=\"76\" width=\"129\" height=\"15\"/>\n<rect class=\"cash r0\" x=\"128\" y=\"132\" width=\"48\" height=\"48\"/>\n<rect class=\"level\" x=\"128\" y=\"131\" width=\"48\" height=\"2\"/>\n<rect class=\"cash r0\" x=\"176\" y=\"180\" width=\"129\" height=\"0\"/>\n<rect class=\"level\" x=\"176\" y=\"179\" width=\"129\" height=\"2\"/>\n<text class=\"number\" x=\"176\" y=\"28\">0</text>\n<text class=\"number\" x=\"240\" y=\"28\">2</text>\n<text class=\"name\" x=\"8\" y=\"74\">a.0</text>\n<text class=\"bundle\" x=\"183\" y=\"87\">1 tape</text>\n<text class=\"name\" x=\"8\" y=\"180\">tape of 1</text>\n<text class=\"amount\" x=\"130\" y=\"128\">1</text>\n<text class=\"amount\" x=\"178\" y=\"176\">0</text>\n<text class=\"note\" x=\"8\" y=\"204\">time goes from left to right, pick by pick, with the numbers of picks above. grey: shortened</text>\n<text class=\"note\" x=\"8\" y=\"218\">line: an arm. hatched: asks for more than is there. dotted: kept back, else those named could not finish</text>\n<text class=\"note\" x=\"8\" y=\"232\">bar: a hold. triangle: grant or return, circle: print, cross: fault, square: end, diamond: assigned, open: read</text>\n<g class=\"grant\"><title>a.0 grant 1 tape</title><path d=\"M176 70m0-6v12l7-6z\"/><text x=\"172\" y=\"61\"></text></g>\n<g class=\"print\"><title>a.0 print 1</title><path d=\"M240 70m-4 0a4 4 0 1 0 8 0a4 4 0 1 0-8 0z\"/><text x=\"236\" y=\"61\">print 1</text></g>\n</svg>\n",
        status: Status::Done,
    },
];

/// The shapes of the run of `PRINT` to its end.
const PRINTED: &[u8] =
    b"<rect class=\"going\" x=\"107\" y=\"66\" width=\"119\" height=\"8\"/>\n<text class=\"number\" x=\"161\" y=\"28\">1</text>\n<text class=\"number\" x=\"226\" y=\"28\">2</text>\n<text class=\"name\" x=\"8\" y=\"74\">p.0</text>\n<text class=\"note\" x=\"8\" y=\"110\">time goes from left to right, pick by pick, with the numbers of picks above. grey: shortened</text>\n<text class=\"note\" x=\"8\" y=\"124\">line: an arm. hatched: asks for more than is there. dotted: kept back, else those named could not finish</text>\n<text class=\"note\" x=\"8\" y=\"138\">bar: a hold. triangle: grant or return, circle: print, cross: fault, square: end, diamond: assigned, open: read</text>\n<g class=\"print\"><title>p.0 print 1</title><path d=\"M161 70m-4 0a4 4 0 1 0 8 0a4 4 0 1 0-8 0z\"/><text x=\"157\" y=\"61\">print 1</text></g>\n<g class=\"end\"><title>p end</title><path d=\"M226 70m-4-4h8v8h-8z\"/><text x=\"222\" y=\"61\">end</text></g>\n</svg>\n";

const PRINT: &[u8] = b"process p begin print 1 end\n%%\np.0 3\n";

/// The same run, larger, smaller, as wide as is asked, and larger than that.
const SIZES: [Case; 4] = [
    Case {
        input: PRINT,
        options: DrawOptions {
            lend: Lend::Banker,
            width: None,
            scale: 200,
        },
        head: b"<svg xmlns=\"http://www.w3.org/2000/svg\" width=\"1360\" height=\"332\" viewBox=\"0 0 680 166",
        shapes: PRINTED,
        status: Status::Done,
    },
    Case {
        input: PRINT,
        options: DrawOptions {
            lend: Lend::Banker,
            width: None,
            scale: 50,
        },
        head: b"<svg xmlns=\"http://www.w3.org/2000/svg\" width=\"340\" height=\"83\" viewBox=\"0 0 680 166",
        shapes: PRINTED,
        status: Status::Done,
    },
    Case {
        input: PRINT,
        options: DrawOptions {
            lend: Lend::Banker,
            width: Some(1_000),
            scale: 100,
        },
        head: b"<svg xmlns=\"http://www.w3.org/2000/svg\" width=\"1000\" height=\"244\" viewBox=\"0 0 680 166",
        shapes: PRINTED,
        status: Status::Done,
    },
    Case {
        input: PRINT,
        options: DrawOptions {
            lend: Lend::Banker,
            width: Some(1_000),
            scale: 150,
        },
        head: b"<svg xmlns=\"http://www.w3.org/2000/svg\" width=\"1500\" height=\"366\" viewBox=\"0 0 680 166",
        shapes: PRINTED,
        status: Status::Done,
    },
];

/// A run that ends with a fault, which gives its hold back.
const FAULT: Case = Case {
    input: b"resource tape = 1;\nprocess a begin hold 1 of tape do print 1 div 0 od end\n%%\na.0 4\n",
    options: BY_BANKER,
    head: b"<svg xmlns=\"http://www.w3.org/2000/svg\" width=\"680\" height=\"260\" viewBox=\"0 0 680 260",
    shapes: b"<rect class=\"going\" x=\"128\" y=\"66\" width=\"118\" height=\"8\"/>\n<rect class=\"hold r0\" x=\"176\" y=\"76\" width=\"70\" height=\"15\"/>\n<rect class=\"cash r0\" x=\"128\" y=\"132\" width=\"48\" height=\"48\"/>\n<rect class=\"level\" x=\"128\" y=\"131\" width=\"48\" height=\"2\"/>\n<rect class=\"cash r0\" x=\"176\" y=\"180\" width=\"70\" height=\"0\"/>\n<rect class=\"level\" x=\"176\" y=\"179\" width=\"70\" height=\"2\"/>\n<rect class=\"cash r0\" x=\"246\" y=\"132\" width=\"156\" height=\"48\"/>\n<rect class=\"level\" x=\"246\" y=\"131\" width=\"156\" height=\"2\"/>\n<text class=\"number\" x=\"176\" y=\"28\">0</text>\n<text class=\"number\" x=\"246\" y=\"28\">3</text>\n<text class=\"name\" x=\"8\" y=\"74\">a.0</text>\n<text class=\"bundle\" x=\"183\" y=\"87\">1 tape</text>\n<text class=\"name\" x=\"8\" y=\"180\">tape of 1</text>\n<text class=\"amount\" x=\"130\" y=\"128\">1</text>\n<text class=\"amount\" x=\"178\" y=\"176\">0</text>\n<text class=\"amount\" x=\"248\" y=\"128\">1</text>\n<text class=\"note\" x=\"8\" y=\"204\">time goes from left to right, pick by pick, with the numbers of picks above. grey: shortened</text>\n<text class=\"note\" x=\"8\" y=\"218\">line: an arm. hatched: asks for more than is there. dotted: kept back, else those named could not finish</text>\n<text class=\"note\" x=\"8\" y=\"232\">bar: a hold. triangle: grant or return, circle: print, cross: fault, square: end, diamond: assigned, open: read</text>\n<g class=\"grant\"><title>a.0 grant 1 tape</title><path d=\"M176 70m0-6v12l7-6z\"/><text x=\"172\" y=\"61\"></text></g>\n<g class=\"fault\"><title>a.0 fault divide</title><path d=\"M246 70m-5-5l10 10m0-10l-10 10\"/><text x=\"242\" y=\"61\">fault divide, line 2</text></g>\n</svg>\n",
    status: Status::Fault,
};

/// A run into a deadlock, by the cash alone, and the same up to where the banker keeps back what is there.
const WAITS: [Case; 2] = [
    Case {
        input: b"resource r = 1; resource s = 1; process p begin hold 1 of r do hold 1 of s do skip od od end process q begin hold 1 of s do hold 1 of r do skip od od end\n%%\np.0 1\nq.0 1\n",
        options: BY_CASH,
        head: b"<svg xmlns=\"http://www.w3.org/2000/svg\" width=\"770\" height=\"400\" viewBox=\"0 0 770 400",
        shapes: b"<rect class=\"going\" x=\"107\" y=\"66\" width=\"85\" height=\"8\"/>\n<rect class=\"short\" x=\"192\" y=\"66\" width=\"37\" height=\"8\"/>\n<rect class=\"going\" x=\"107\" y=\"130\" width=\"85\" height=\"8\"/>\n<rect class=\"short\" x=\"192\" y=\"130\" width=\"37\" height=\"8\"/>\n<rect class=\"hold r0\" x=\"155\" y=\"76\" width=\"74\" height=\"15\"/>\n<rect class=\"hold r1\" x=\"192\" y=\"140\" width=\"37\" height=\"15\"/>\n<rect class=\"cash r0\" x=\"107\" y=\"196\" width=\"48\" height=\"48\"/>\n<rect class=\"level\" x=\"107\" y=\"195\" width=\"48\" height=\"2\"/>\n<rect class=\"cash r0\" x=\"155\" y=\"244\" width=\"74\" height=\"0\"/>\n<rect class=\"level\" x=\"155\" y=\"243\" width=\"74\" height=\"2\"/>\n<rect class=\"cash r1\" x=\"107\" y=\"272\" width=\"85\" height=\"48\"/>\n<rect class=\"level\" x=\"107\" y=\"271\" width=\"85\" height=\"2\"/>\n<rect class=\"cash r1\" x=\"192\" y=\"320\" width=\"37\" height=\"0\"/>\n<rect class=\"level\" x=\"192\" y=\"319\" width=\"37\" height=\"2\"/>\n<text class=\"number\" x=\"155\" y=\"28\">0</text>\n<text class=\"number\" x=\"192\" y=\"28\">1</text>\n<text class=\"name\" x=\"8\" y=\"74\">p.0</text>\n<text class=\"name\" x=\"8\" y=\"138\">q.0</text>\n<text class=\"bundle\" x=\"162\" y=\"87\">1 r</text>\n<text class=\"bundle\" x=\"199\" y=\"151\">1 s</text>\n<text class=\"name\" x=\"8\" y=\"244\">r of 1</text>\n<text class=\"amount\" x=\"109\" y=\"192\">1</text>\n<text class=\"amount\" x=\"157\" y=\"240\">0</text>\n<text class=\"name\" x=\"8\" y=\"320\">s of 1</text>\n<text class=\"amount\" x=\"109\" y=\"268\">1</text>\n<text class=\"amount\" x=\"194\" y=\"316\">0</text>\n<text class=\"note\" x=\"8\" y=\"344\">time goes from left to right, pick by pick, with the numbers of picks above. grey: shortened</text>\n<text class=\"note\" x=\"8\" y=\"358\">line: an arm. hatched: asks for more than is there. dotted: kept back, else those named could not finish</text>\n<text class=\"note\" x=\"8\" y=\"372\">bar: a hold. triangle: grant or return, circle: print, cross: fault, square: end, diamond: assigned, open: read</text>\n<text class=\"deadlock\" x=\"8\" y=\"14\">deadlock: no arm can go on; p.0 waits for s, some of which q holds; q.0 waits for r, some of which p holds</text>\n<g class=\"grant\"><title>p.0 grant 1 r</title><path d=\"M155 70m0-6v12l7-6z\"/><text x=\"151\" y=\"61\"></text></g>\n<g class=\"grant\"><title>q.0 grant 1 s</title><path d=\"M192 134m0-6v12l7-6z\"/><text x=\"188\" y=\"125\"></text></g>\n</svg>\n",
        status: Status::Deadlock,
    },
    Case {
        input: b"resource r = 1; resource s = 1; process p begin hold 1 of r do hold 1 of s do skip od od end process q begin hold 1 of s do hold 1 of r do skip od od end\n%%\np.0 1\n",
        options: BY_BANKER,
        head: b"<svg xmlns=\"http://www.w3.org/2000/svg\" width=\"680\" height=\"382\" viewBox=\"0 0 680 382",
        shapes: b"<rect class=\"going\" x=\"107\" y=\"66\" width=\"85\" height=\"8\"/>\n<rect class=\"going\" x=\"107\" y=\"130\" width=\"48\" height=\"8\"/>\n<rect class=\"hold r0\" x=\"155\" y=\"76\" width=\"37\" height=\"15\"/>\n<rect class=\"cash r0\" x=\"107\" y=\"178\" width=\"48\" height=\"48\"/>\n<rect class=\"level\" x=\"107\" y=\"177\" width=\"48\" height=\"2\"/>\n<rect class=\"cash r0\" x=\"155\" y=\"226\" width=\"37\" height=\"0\"/>\n<rect class=\"level\" x=\"155\" y=\"225\" width=\"37\" height=\"2\"/>\n<rect class=\"cash r1\" x=\"107\" y=\"254\" width=\"85\" height=\"48\"/>\n<rect class=\"level\" x=\"107\" y=\"253\" width=\"85\" height=\"2\"/>\n<g class=\"wait\"><title>q.0 kept back: p, q could not finish</title><rect class=\"kept\" x=\"155\" y=\"130\" width=\"37\" height=\"8\"/><text x=\"155\" y=\"116\">p, q</text></g>\n<text class=\"number\" x=\"155\" y=\"28\">0</text>\n<text class=\"name\" x=\"8\" y=\"74\">p.0</text>\n<text class=\"name\" x=\"8\" y=\"138\">q.0</text>\n<text class=\"bundle\" x=\"162\" y=\"87\">1 r</text>\n<text class=\"name\" x=\"8\" y=\"226\">r of 1</text>\n<text class=\"amount\" x=\"109\" y=\"174\">1</text>\n<text class=\"amount\" x=\"157\" y=\"222\">0</text>\n<text class=\"name\" x=\"8\" y=\"302\">s of 1</text>\n<text class=\"amount\" x=\"109\" y=\"250\">1</text>\n<text class=\"note\" x=\"8\" y=\"326\">time goes from left to right, pick by pick, with the numbers of picks above. grey: shortened</text>\n<text class=\"note\" x=\"8\" y=\"340\">line: an arm. hatched: asks for more than is there. dotted: kept back, else those named could not finish</text>\n<text class=\"note\" x=\"8\" y=\"354\">bar: a hold. triangle: grant or return, circle: print, cross: fault, square: end, diamond: assigned, open: read</text>\n<g class=\"grant\"><title>p.0 grant 1 r</title><path d=\"M155 70m0-6v12l7-6z\"/><text x=\"151\" y=\"61\"></text></g>\n</svg>\n",
        status: Status::Done,
    },
];

/// An input that is refused, and its refusal line.
struct Refusal {
    input: &'static [u8],
    said: &'static [u8],
}

/// One each of a text, of pick lines and of their sum, and of a pick that is not enabled.
const REFUSALS: [Refusal; 4] = [
    Refusal {
        input: b"process p begin print 1 end process\n%%\nq.0 1\n",
        said: b"refused P1 at 35\n",
    },
    Refusal {
        input: b"process p begin print 1 end\n%%\np.0 9\nq.0 1\n",
        said: b"refused K1 at 6\n",
    },
    Refusal {
        input: b"process p begin print 1 end\n%%\np.0 9\np.0 10000000\n",
        said: b"refused K2\n",
    },
    Refusal {
        input: b"process p begin print 1 end\n%%\np.0 9\n",
        said: b"refused H1 at 3\n",
    },
];

const BY_BANKER: DrawOptions = DrawOptions {
    lend: Lend::Banker,
    width: None,
    scale: 100,
};

const BY_CASH: DrawOptions = DrawOptions {
    lend: Lend::Cash,
    width: None,
    scale: 100,
};

/// Returns whether exactly the picture of a case is written, with its status.
fn draws(alloc: Global, case: &Case) -> Option<bool> {
    let mut picture = Vec::from_slice(alloc, case.head).ok()?;
    picture.extend_from_slice(LOOKS).ok()?;
    picture.extend_from_slice(case.shapes).ok()?;
    let mut output = MemoryOutput::new(alloc, 16_384).ok()?;
    let status = write_drawing(
        alloc,
        Form::Lines,
        case.options,
        &mut MemoryInput::new(case.input),
        &mut output,
    );
    Some(status == case.status && output.as_slice() == picture.as_slice())
}

/// Returns whether `draw` and `replay` both write this refusal line alone, with the same status.
fn refuses(alloc: Global, refusal: &Refusal) -> Option<bool> {
    let mut drawn = MemoryOutput::new(alloc, 4_096).ok()?;
    let mut replayed = MemoryOutput::new(alloc, 4_096).ok()?;
    let mut input = MemoryInput::new(refusal.input);
    let draw_status = write_drawing(alloc, Form::Lines, BY_BANKER, &mut input, &mut drawn);
    let options = ReplayOptions { lend: Lend::Banker };
    let mut input = MemoryInput::new(refusal.input);
    let replay_status = write_replay(alloc, Form::Lines, options, &mut input, &mut replayed);
    let by_draw = draw_status == Status::Refused && drawn.as_slice() == refusal.said;
    let by_replay = replay_status == Status::Refused && replayed.as_slice() == refusal.said;
    Some(by_draw && by_replay)
}

#[test]
fn runs_are_drawn(rt: HostRuntime) {
    for case in &RUNS {
        assert!(rt; draws(rt.alloc(), case) == Some(true));
    }
}

#[test]
fn a_picture_is_as_large_as_is_asked(rt: HostRuntime) {
    for case in &SIZES {
        assert!(rt; draws(rt.alloc(), case) == Some(true));
    }
}

/// Returns whether the picture of an input has these bytes in it.
fn has(alloc: Global, input: &'static [u8], line: &[u8]) -> Option<bool> {
    let mut output = MemoryOutput::new(alloc, 65_536).ok()?;
    let _ = write_drawing(
        alloc,
        Form::Lines,
        BY_BANKER,
        &mut MemoryInput::new(input),
        &mut output,
    );
    let picture = output.as_slice();
    for at in 0..picture.len() {
        if picture[at..].starts_with(line) {
            return Some(true);
        }
    }
    Some(false)
}

#[test]
fn a_wide_picture_has_names_again(rt: HostRuntime) {
    let prints = b"process p begin while 1 do print 1 od end\n%%\np.0 60\n";
    let again = b"<text class=\"again\" x=\"800\" y=\"41\">p.0</text>\n";
    assert!(rt; has(rt.alloc(), prints, again) == Some(true));
    assert!(rt; has(rt.alloc(), PRINT, again) == Some(false));
}

/// Two arms that each add one to an integer, and both read it before either assigns to it.
const LOST: &[u8] =
    b"process p begin integer x; parbegin x := x + 1; x := x + 1 parend; print x end\n%%\np.0 1\np.2 2\np.1 5\np.2 3\np.0 4\n";

/// The marks of the reads and of the assignments, as far as they say what is read and assigned.
const LOST_MARKS: [&[u8]; 5] = [
    b"<g class=\"read\"><title>p.2 read x 0</title>",
    b"<g class=\"read\"><title>p.1 read x 0</title>",
    b"<g class=\"assign\"><title>p.1 x := 1</title>",
    b"<g class=\"assign\"><title>p.2 x := 1</title>",
    b"<g class=\"read\"><title>p.0 read x 1</title>",
];

#[test]
fn reads_and_assignments_are_drawn(rt: HostRuntime) {
    for mark in &LOST_MARKS {
        assert!(rt; has(rt.alloc(), LOST, mark) == Some(true));
    }
}

/// A loop that assigns 40 times and reads 80 times, and one that assigns 110 times.
const LOOP: &[u8] = b"process p begin integer x; while x < 40 do x := x + 1 od end\n%%\np.0 360\n";

const LONG_LOOP: &[u8] =
    b"process p begin integer x; while x < 110 do x := x + 1 od end\n%%\np.0 990\n";

#[test]
fn it_is_said_what_is_left_out(rt: HostRuntime) {
    let reads = b"assign to an integer or read one: reads are not drawn</text>";
    let both = b"assign to an integer: assignments and reads are not drawn</text>";
    assert!(rt; has(rt.alloc(), LOOP, reads) == Some(true));
    assert!(rt; has(rt.alloc(), LONG_LOOP, both) == Some(true));
    assert!(rt; has(rt.alloc(), LOST, b"not drawn") == Some(false));
}

/// A run whose picture would have more than 8 MB.
const LARGE: &[u8] = b"process p begin while 1 do print 1 od end\n%%\np.0 250000\n";

/// Returns whether it is told that a picture is too large, and nothing else.
fn is_too_large(alloc: Global) -> Option<bool> {
    let mut output = MemoryOutput::new(alloc, 64).ok()?;
    let status = write_drawing(
        alloc,
        Form::Lines,
        BY_BANKER,
        &mut MemoryInput::new(LARGE),
        &mut output,
    );
    Some(status == Status::Limit && output.as_slice() == b"limit 8388608\n".as_slice())
}

/// Returns whether this is written of a picture that is too large, as an object.
fn says_limit(alloc: Global) -> Option<bool> {
    let mut input = MemoryInput::new(LARGE);
    let mut output = MemoryOutput::new(alloc, 64).ok()?;
    let status = write_drawing(alloc, Form::Objects, BY_BANKER, &mut input, &mut output);
    let object = b"{\"kind\":\"limit\",\"limit\":8388608}\n";
    Some(status == Status::Limit && output.as_slice() == object.as_slice())
}

#[test]
fn the_limit_of_a_picture_is_an_object(rt: HostRuntime) {
    assert!(rt; says_limit(rt.alloc()) == Some(true));
}

#[test]
fn a_picture_that_is_too_large_is_not_written(rt: HostRuntime) {
    assert!(rt; is_too_large(rt.alloc()) == Some(true));
}

#[test]
fn a_fault_is_drawn_with_its_status(rt: HostRuntime) {
    assert!(rt; draws(rt.alloc(), &FAULT) == Some(true));
}

#[test]
fn both_kinds_of_waiting_are_drawn(rt: HostRuntime) {
    for case in &WAITS {
        assert!(rt; draws(rt.alloc(), case) == Some(true));
    }
}

#[test]
fn refusals_are_those_of_replay(rt: HostRuntime) {
    for refusal in &REFUSALS {
        assert!(rt; refuses(rt.alloc(), refusal) == Some(true));
    }
}

/// Returns whether nothing is written of an input of which a read fails.
fn says_nothing(alloc: Global) -> Option<bool> {
    let mut input = FaultyInput::new(b"process p begin print 1 end\n%%\np.0 3\n", 2, 8);
    let mut output = MemoryOutput::new(alloc, 64).ok()?;
    let status = write_drawing(alloc, Form::Lines, BY_BANKER, &mut input, &mut output);
    Some(status == Status::Device && output.as_slice().is_empty())
}

#[test]
fn a_failed_read_is_told(rt: HostRuntime) {
    assert!(rt; says_nothing(rt.alloc()) == Some(true));
}
