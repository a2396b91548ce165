//! Runs of small texts that never end, and what is said of them.

use pb_base::{MemoryInput, MemoryOutput};
use pb_command_io::Status;
use pb_options::{Lend, OutcomesOptions};
use pb_search_engine::outcomes_engine;
use pb_voice::Form;
use std::alloc::Global;

/// A text, whether only fair runs count, what is said of it in a form, and the status.
struct Case {
    form: Form,
    text: &'static [u8],
    fair: bool,
    said: &'static [u8],
    status: Status,
}

/// A loop that never ends; one that waits for another arm; a program that ends; and a text that is refused; as lines, and
/// some as objects.
const CASES: [Case; 10] = [
    Case {
        form: Form::Lines,
        text: b"process p begin while 1 do skip od end",
        fair: false,
        said: b"endless\nreached by\nround\np.0 3\nsome runs do not end\n",
        status: Status::Done,
    },
    Case {
        form: Form::Lines,
        text: b"process p begin while 1 do skip od end",
        fair: true,
        said: b"endless\nreached by\nround\np.0 6\nsome fair runs do not end\n",
        status: Status::Done,
    },
    Case {
        form: Form::Lines,
        text: b"process p begin integer x; parbegin while x = 0 do skip od; x := 1 parend end",
        fair: false,
        said: b"endless\nreached by\np.0 1\nround\np.1 5\nsome runs do not end\n",
        status: Status::Done,
    },
    Case {
        form: Form::Lines,
        text: b"process p begin integer x; parbegin while x = 0 do skip od; x := 1 parend end",
        fair: true,
        said: b"every fair run ends\n",
        status: Status::Done,
    },
    Case {
        form: Form::Lines,
        text: b"process p begin skip end",
        fair: false,
        said: b"every run ends\n",
        status: Status::Done,
    },
    Case {
        form: Form::Lines,
        text: b"process p begin parbegin
begin print 1; print 2; print 3 end; begin print 1; print 2; print 3 end;
begin print 1; print 2; print 3 end; begin print 1; print 2; print 3 end
parend end",
        fair: false,
        said: b"more than 1000 configurations\n",
        status: Status::Limit,
    },
    Case {
        form: Form::Lines,
        text: b"process p begin print 1 end process",
        fair: false,
        said: b"refused P1 at 35\n",
        status: Status::Refused,
    },
    Case {
        form: Form::Objects,
        text: b"process p begin integer x; parbegin while x = 0 do skip od; x := 1 parend end",
        fair: false,
        said: b"{\"kind\":\"endless\",\"processes\":[],\"integers\":[],\"holds\":[],\"asks\":[],\"prints\":[],\"picks\":[{\"kind\":\"picks\",\"process\":\"p\",\"arm\":0,\"count\":1}]}\n{\"kind\":\"round\",\"processes\":[],\"integers\":[],\"holds\":[],\"asks\":[],\"prints\":[],\"picks\":[{\"kind\":\"picks\",\"process\":\"p\",\"arm\":1,\"count\":5}]}\n{\"kind\":\"some runs do not end\"}\n",
        status: Status::Done,
    },
    Case {
        form: Form::Objects,
        text: b"process p begin integer x; parbegin while x = 0 do skip od; x := 1 parend end",
        fair: true,
        said: b"{\"kind\":\"every fair run ends\"}\n",
        status: Status::Done,
    },
    Case {
        form: Form::Objects,
        text: b"process p begin parbegin
begin print 1; print 2; print 3 end; begin print 1; print 2; print 3 end;
begin print 1; print 2; print 3 end; begin print 1; print 2; print 3 end
parend end",
        fair: false,
        said: b"{\"kind\":\"others\",\"of\":\"configurations\",\"limit\":1000}\n",
        status: Status::Limit,
    },
];

/// Returns the options of a case: at most a thousand configurations.
fn options(fair: bool) -> OutcomesOptions {
    OutcomesOptions {
        states: 1_000,
        lend: Lend::Banker,
        first_deadlock: false,
        prints: false,
        fair,
        expect: false,
        any_order: false,
        endless: true,
        graph: false,
        run: None,
        deadlock: None,
    }
}

/// Returns whether this is said of a text.
fn says(alloc: Global, case: &Case) -> Option<bool> {
    let mut input = MemoryInput::new(case.text);
    let mut output = MemoryOutput::new(alloc, 4_096).ok()?;
    let status = outcomes_engine(
        alloc,
        case.form,
        options(case.fair),
        &mut input,
        &mut output,
    );
    Some(status == case.status && output.as_slice() == case.said)
}

#[test]
fn endless_runs_are_told(rt: HostRuntime) {
    for case in &CASES {
        assert!(rt; says(rt.alloc(), case) == Some(true));
    }
}
