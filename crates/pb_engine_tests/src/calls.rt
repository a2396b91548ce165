//! Calls of the whole program, each with its words and its input, and what it writes, with its status.

use pb_answer::answer::answer;
use pb_base::{FaultyInput, MemoryInput, MemoryOutput};
use pb_command_io::Status;
use pb_explain::{Example, ExampleInput, entry_for};
use pb_options::Code;
use std::alloc::{AllocError, Global};
use std::sync::Wait;
use std::thread::Threads;

/// The words of a call after the program's name, its input, what its output begins and ends with, how many bytes
/// it has if that is all of it, and its status.
struct Call {
    words: &'static str,
    input: &'static [u8],
    first: &'static [u8],
    last: &'static [u8],
    length: Option<usize>,
    status: Status,
}

/// A program with two outcomes.
const TWO_OUTCOMES: &[u8] = b"process p begin integer x; parbegin x := 1; x := 2 parend end";

/// A program, the picks of its run, and commands of a debugger, the second of which it refuses.
const SESSION: &[u8] = b"process p begin print 1 end\n%%\np.0 2\n%%\nto 2\nstep 1\n";

/// Two programs that run beside one another, with a resource that both declare.
const BESIDE: &[u8] =
    b"resource r = 1; process p begin hold 1 of r do skip od end\n%%\nresource r = 1; process q begin skip end";

/// Two processes that each ask for a second one of the resource that they hold.
const ONE_MORE: &[u8] =
    b"resource r = 2;\nprocess p begin hold 1 of r do\nhold 1 of r do skip od od end\nprocess q begin hold 1 of r do\nhold 1 of r do skip od od end";

/// The same with enough for all that both may hold.
const ENOUGH: &[u8] =
    b"resource r = 4;\nprocess p begin hold 1 of r do\nhold 1 of r do skip od od end\nprocess q begin hold 1 of r do\nhold 1 of r do skip od od end";

/// Two processes hold two resources in opposite order, and there is enough of one of them for both claims.
const SOME: &[u8] =
    b"resource t = 1; resource r = 4;\nprocess p begin hold 1 of t do\nhold 2 of r do skip od od end\n\nprocess q begin hold 2 of r do\nhold 1 of t do skip od od end";

/// At least one call of each crate with an engine but pb_explain, and one of words that say no command.
const CALLS: [Call; 15] = [
    Call {
        words: "run --steps 1",
        input: b"process p begin print 1 end",
        first: b"limit 1\n",
        last: b"",
        length: Some(8),
        status: Status::Limit,
    },
    Call {
        words: "debug",
        input: SESSION,
        first: b"at 2\nrefused G1\n",
        last: b"",
        length: Some(16),
        status: Status::Done,
    },
    Call {
        words: "debug --live",
        input: SESSION,
        first: b"at 2\nrefused G1\n",
        last: b"",
        length: Some(16),
        status: Status::Done,
    },
    Call {
        words: "draw",
        input: b"process p begin print 1 div 0 end\n%%\np.0 3\n",
        first: b"<svg xmlns=",
        last: b"</svg>\n",
        length: None,
        status: Status::Fault,
    },
    Call {
        words: "outcomes --states=1000",
        input: TWO_OUTCOMES,
        first: b"",
        last: b"2 outcomes\n",
        length: None,
        status: Status::Done,
    },
    Call {
        words: "outcomes --states=2",
        input: TWO_OUTCOMES,
        first: b"",
        last: b"more than 2 configurations, there may be others\n",
        length: None,
        status: Status::Limit,
    },
    Call {
        words: "plan",
        input: BESIDE,
        first: b"p of text 1 claim 1 r lines 1\nq of text 2 claim 0 r\nr capital 1 least 1 free 1\n",
        last: b"no request waits\norder r\n",
        length: Some(104),
        status: Status::Done,
    },
    Call {
        words: "plan --lend cash",
        input: BESIDE,
        first: b"p of text 1 claim 1 r lines 1\nq of text 2 claim 0 r\nr capital 1 least 1 free 1\n",
        last: b"no request waits\norder r\n",
        length: Some(104),
        status: Status::Done,
    },
    Call {
        words: "plan --lend banker",
        input: ONE_MORE,
        first: b"p claim 2 r lines 2 3\nq claim 2 r lines 4 5\nr capital 2 least 2 free 4\nbottleneck r\n",
        last: b"no order\np holds r line 2 around r line 3\n",
        length: Some(126),
        status: Status::Done,
    },
    Call {
        words: "plan --lend cash",
        input: ONE_MORE,
        first: b"p claim 2 r lines 2 3\nq claim 2 r lines 4 5\nr capital 2 least 2 free 4\nbottleneck r\n",
        last: b"no order\np holds r line 2 around r line 3\n",
        length: Some(126),
        status: Status::Deadlock,
    },
    Call {
        words: "plan --lend cash",
        input: ENOUGH,
        first: b"p claim 2 r lines 2 3\nq claim 2 r lines 4 5\nr capital 4 least 2 free 4\nno request waits\n",
        last: b"no request waits\norder\n",
        length: Some(94),
        status: Status::Done,
    },
    Call {
        words: "plan --lend cash",
        input: SOME,
        first: b"p claim 1 t lines 2\np claim 2 r lines 3\nq claim 1 t lines 6\nq claim 2 r lines 5\nt capital 1 least 1 free 2\nr capital 4 least 2 free 4\n",
        last: b"bottleneck t\norder t\n",
        length: Some(155),
        status: Status::Done,
    },
    Call {
        words: "plan",
        input: b"process p begin skip end\n%%\nprocess p begin skip end",
        first: b"text 2 refused N2 at 8\n",
        last: b"",
        length: Some(23),
        status: Status::Refused,
    },
    Call {
        words: "plan",
        input: b"process p begin skip\n%%\nprocess q begin skip end",
        first: b"text 1 refused P1 at 20\n",
        last: b"",
        length: Some(24),
        status: Status::Refused,
    },
    Call {
        words: "fly",
        input: b"",
        first: b"error: ",
        last: b"\n",
        length: None,
        status: Status::Words,
    },
];

/// Returns the words of a call: the program's name, and those of the text, which spaces separate.
fn words_of<'a>(alloc: Global, text: &'a str) -> Option<Vec<&'a str>> {
    let mut words = Vec::new(alloc);
    words.push("parbegin").ok()?;
    for word in text.split(' ') {
        words.push(word).ok()?;
    }
    Some(words)
}

/// Returns whether the output is that of the call.
fn is_output_of(output: &[u8], call: &Call) -> bool {
    output.starts_with(call.first)
        && output.ends_with(call.last)
        && call.length.is_none_or(|length| output.len() == length)
}

/// Returns whether a call writes what it should, with its status.
fn writes<R: AllocGlobal + Threads + Wait + Sync>(rt: &R, call: &Call) -> Option<bool> {
    let alloc = rt.alloc();
    let words = words_of(alloc, call.words)?;
    let mut output = MemoryOutput::new(alloc, 4_096).ok()?;
    let mut input = MemoryInput::new(call.input);
    let status = answer(rt, alloc, words.as_slice(), &mut input, &mut output);
    Some(status == call.status && is_output_of(output.as_slice(), call))
}

#[test]
fn does_what_the_words_say(rt: HostRuntime) {
    for call in &CALLS {
        assert!(rt; writes(&rt, call) == Some(true), "{}", call.words);
    }
}

/// Returns whether this page is written, of an input that no read succeeds on.
fn is_explained<R: AllocGlobal + Threads + Wait + Sync>(
    rt: &R,
    words: &str,
    first: &[u8],
) -> Option<bool> {
    let alloc = rt.alloc();
    let words = words_of(alloc, words)?;
    let mut output = MemoryOutput::new(alloc, 4_096).ok()?;
    let mut input = FaultyInput::new(b"", 0, 1);
    let status = answer(rt, alloc, words.as_slice(), &mut input, &mut output);
    Some(status == Status::Done && output.as_slice().starts_with(first))
}

#[test]
fn explains(rt: HostRuntime) {
    let page = b"N3: a name that is not declared\n\n";
    assert!(rt; is_explained(&rt, "explain N3", page) == Some(true));
    let list = b"L1: the text is too long\nL2: a byte";
    assert!(rt; is_explained(&rt, "explain", list) == Some(true));
}

/// Returns the bytes that the call of an example reads.
fn bytes_of(alloc: Global, input: ExampleInput) -> Result<Vec<u8>, AllocError> {
    let mut bytes = Vec::new(alloc);
    match input {
        ExampleInput::Text(text) => bytes.extend_from_slice(text.as_bytes())?,
        ExampleInput::Repeated { line, times } => {
            bytes.extend_from_slice(b"process p begin\n")?;
            for _ in 0..times {
                bytes.extend_from_slice(line.as_bytes())?;
                bytes.push(b'\n')?;
            }
            bytes.extend_from_slice(b"print 1 end\n")?;
        }
    }
    Ok(bytes)
}

/// Returns whether the call of an example writes what its page shows, with the code in its refusal line, which is
/// the only one, or in the line of a warning.
fn has_its_code<R: AllocGlobal + Threads + Wait + Sync>(
    rt: &R,
    code: Code,
    example: &Example,
) -> Option<bool> {
    let alloc = rt.alloc();
    let words = words_of(alloc, example.command)?;
    let bytes = bytes_of(alloc, example.input).ok()?;
    let mut input = MemoryInput::new(bytes.as_slice());
    let mut output = MemoryOutput::new(alloc, 256).ok()?;
    answer(rt, alloc, words.as_slice(), &mut input, &mut output);
    let written = output.as_slice().strip_suffix(b"\n")?;
    let refused = example.answer.split_once("refused ");
    let (_, cause) = match refused {
        Some(parts) => parts,
        None => example.answer.split_once("warning ")?,
    };
    let named = cause.split(' ').next()?;
    let alone = !cause.contains("refused ");
    Some(written == example.answer.as_bytes() && named == code.name() && alone)
}

#[test]
fn examples_have_their_codes(rt: HostRuntime) {
    for code in Code::ALL {
        if let Some(example) = entry_for(code).example {
            assert!(rt; has_its_code(&rt, code, &example) == Some(true), "{code}");
        }
    }
}
