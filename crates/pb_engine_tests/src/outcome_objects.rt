//! What `outcomes` says of whole inputs, as objects of JSON.

use pb_base::{MemoryInput, MemoryOutput};
use pb_command_io::Status;
use pb_options::{Lend, OutcomesOptions};
use pb_search_engine::outcomes_engine;
use pb_voice::Form;
use std::alloc::Global;

/// A text, what is said of it, and the status.
struct Case {
    text: &'static [u8],
    said: &'static [u8],
    status: Status,
}

const OPTIONS: OutcomesOptions = OutcomesOptions {
    states: 1_000_000,
    lend: Lend::Cash,
    first_deadlock: false,
    prints: true,
    fair: true,
    expect: false,
    any_order: false,
    endless: false,
    graph: false,
    run: None,
    deadlock: None,
};

/// Whether all runs are as expected.
const COMPARING: OutcomesOptions = OutcomesOptions {
    states: 1_000,
    lend: Lend::Banker,
    first_deadlock: false,
    prints: false,
    fair: false,
    expect: true,
    any_order: false,
    endless: false,
    graph: false,
    run: None,
    deadlock: None,
};

/// Names that are words of other lines, an integer that a reader might round, a deadlock, and a refused text.
const CASES: [Case; 3] = [
    Case {
        text: b"process deadlock begin integer at; at := 9007199254740992; print at end process outcome begin integer x; x := 1 div x end\n",
        said: b"{\"kind\":\"outcome\",\"number\":1,\"processes\":[{\"kind\":\"ended\",\"process\":\"deadlock\"},{\"kind\":\"faulted\",\"process\":\"outcome\"}],\"integers\":[{\"kind\":\"integer\",\"process\":\"deadlock\",\"integer\":\"at\",\"value\":\"9007199254740992\"},{\"kind\":\"integer\",\"process\":\"outcome\",\"integer\":\"x\",\"value\":0}],\"holds\":[],\"asks\":[],\"prints\":[{\"kind\":\"print\",\"process\":\"deadlock\",\"arm\":0,\"value\":\"9007199254740992\"}],\"picks\":[{\"kind\":\"picks\",\"process\":\"deadlock\",\"arm\":0,\"count\":3},{\"kind\":\"picks\",\"process\":\"outcome\",\"arm\":0,\"count\":3},{\"kind\":\"picks\",\"process\":\"deadlock\",\"arm\":0,\"count\":2}]}\n{\"kind\":\"outcomes\",\"deadlocks\":0,\"endless\":false,\"outcomes\":1}\n{\"kind\":\"every fair run ends\"}\n",
        status: Status::Done,
    },
    Case {
        text: b"resource tape = 1; resource disk = 1;\nprocess a begin hold 1 of tape do hold 1 of disk do skip od od end\nprocess b begin hold 1 of disk do hold 1 of tape do skip od od end\n",
        said: b"{\"kind\":\"outcome\",\"number\":1,\"processes\":[{\"kind\":\"ended\",\"process\":\"a\"},{\"kind\":\"ended\",\"process\":\"b\"}],\"integers\":[],\"holds\":[],\"asks\":[],\"prints\":[],\"picks\":[{\"kind\":\"picks\",\"process\":\"a\",\"arm\":0,\"count\":5},{\"kind\":\"picks\",\"process\":\"b\",\"arm\":0,\"count\":5}]}\n{\"kind\":\"deadlock\",\"number\":1,\"processes\":[{\"kind\":\"waits\",\"process\":\"a\"},{\"kind\":\"waits\",\"process\":\"b\"}],\"integers\":[],\"holds\":[{\"kind\":\"holds\",\"process\":\"a\",\"amount\":1,\"resource\":\"tape\"},{\"kind\":\"holds\",\"process\":\"b\",\"amount\":1,\"resource\":\"disk\"}],\"asks\":[{\"kind\":\"asks\",\"process\":\"a\",\"arm\":0,\"amounts\":[{\"amount\":1,\"resource\":\"disk\"}]},{\"kind\":\"asks\",\"process\":\"b\",\"arm\":0,\"amounts\":[{\"amount\":1,\"resource\":\"tape\"}]}],\"prints\":[],\"picks\":[{\"kind\":\"picks\",\"process\":\"a\",\"arm\":0,\"count\":1},{\"kind\":\"picks\",\"process\":\"b\",\"arm\":0,\"count\":1}]}\n{\"kind\":\"outcomes\",\"endless\":false,\"outcomes\":1,\"deadlocks\":1}\n{\"kind\":\"every fair run ends\"}\n",
        status: Status::Deadlock,
    },
    Case {
        text: b"process p begin x := 1 end\n",
        said: b"{\"kind\":\"refused\",\"code\":\"N3\",\"at\":16}\n",
        status: Status::Refused,
    },
];

/// Texts with what is asked of them: a requirement that is not met, a line that asks for nothing, a fault, and what is as
/// expected.
const ASKED: [Case; 4] = [
    Case {
        text: b"process p begin skip end\n%%\nclaims at least 3 tape\n",
        said: b"{\"kind\":\"not as expected\",\"text\":\"claims at least 3 tape\"}\n",
        status: Status::Unexpected,
    },
    Case {
        text: b"process p begin skip end\n%%\np.0 print 1\np.1 print 1\n",
        said: b"{\"kind\":\"refused\",\"code\":\"K1\",\"at\":12}\n",
        status: Status::Refused,
    },
    Case {
        text: b"process p begin print 1; print 1 div 0 end\n%%\np.0 print 1\n",
        said: b"{\"kind\":\"outcome\",\"number\":1,\"processes\":[{\"kind\":\"faulted\",\"process\":\"p\"}],\"integers\":[],\"holds\":[],\"asks\":[],\"prints\":[{\"kind\":\"print\",\"process\":\"p\",\"arm\":0,\"value\":1}],\"picks\":[{\"kind\":\"picks\",\"process\":\"p\",\"arm\":0,\"count\":5}]}\n{\"kind\":\"not as expected\",\"text\":\"a fault\"}\n",
        status: Status::Unexpected,
    },
    Case {
        text: b"process p begin skip end\n",
        said: b"{\"kind\":\"as expected\"}\n",
        status: Status::Done,
    },
];

/// Returns whether this is said of a text.
fn says(alloc: Global, options: OutcomesOptions, case: &Case) -> Option<bool> {
    let mut input = MemoryInput::new(case.text);
    let mut output = MemoryOutput::new(alloc, 4_096).ok()?;
    let status = outcomes_engine(alloc, Form::Objects, options, &mut input, &mut output);
    Some(status == case.status && output.as_slice() == case.said)
}

#[test]
fn outcomes_are_objects(rt: HostRuntime) {
    for case in &CASES {
        assert!(rt; says(rt.alloc(), OPTIONS, case) == Some(true));
    }
}

#[test]
fn what_is_asked_is_answered_by_objects(rt: HostRuntime) {
    for case in &ASKED {
        assert!(rt; says(rt.alloc(), COMPARING, case) == Some(true));
    }
}
