//! Whole inputs, and the documents or the refusals that are written of them.

use pb_base::{Lending, MemoryInput, MemoryOutput};
use pb_command_io::Status;
use pb_page::Shown;
use pb_page_engine::write_states;
use pb_sources::is_object;
use pb_voice::Form;
use std::alloc::Global;

/// An input, who lends, the part that is shown, what is written, and the status.
struct Case {
    input: &'static [u8],
    lending: Lending,
    shown: Shown,
    said: &'static [u8],
    status: Status,
}

/// A whole run, in which the banker keeps b waiting.
const WHOLE: Case = Case {
    input: b"resource tape = 1;\nresource disk = 1;\nprocess a begin hold 1 of tape do hold 1 of disk do print 1 od od end\nprocess b begin hold 1 of disk do hold 1 of tape do print 2 od od end\n%%\na.0 6\nb.0 1\na.0 1\nb.0 6\n",
    lending: Lending::ByBanker,
    shown: Shown {
        from: 0,
        rows: 20_000,
    },
    said: b"{\"parbegin\":1,\"kind\":\"run\",\"text\":\"resource tape = 1;\\nresource disk = 1;\\nprocess a begin hold 1 of tape do hold 1 of disk do print 1 od od end\\nprocess b begin hold 1 of disk do hold 1 of tape do print 2 od od end\\n\",\"object\":\"PBO 2\\nresources 2\\nresource tape 1\\nresource disk 1\\nprocesses 2\\nprocess a\\nvars 0\\narms 1\\nclaims 1 1\\narm 0\\ncode 7\\n3 take 0 1\\n3 take 1 1\\n3 push 1\\n3 print\\n3 give 1 1\\n3 give 0 1\\n0 end\\nprocess b\\nvars 0\\narms 1\\nclaims 1 1\\narm 0\\ncode 7\\n4 take 1 1\\n4 take 0 1\\n4 push 2\\n4 print\\n4 give 0 1\\n4 give 1 1\\n0 end\\n\",\"lend\":\"banker\",\"picks\":14,\"from\":0,\"start\":[0,0,[],[],1,1,0,0,0,0,[0,1],\"asks for 1 tape\",\"asks for 1 disk\"],\"rows\":[[0,0,0,1,5,[\"rest\",0,1],6,1,11,\"asks for 1 disk\",12,\"asks for 1 disk, and waits: it is there, but if it were granted none of these could be sure to finish: a b\",\"a.0 grant 1 tape\"],[0,0,0,2,4,0,5,[\"cash\",1],7,1,11,\"takes the number 1\",12,\"asks for 1 disk, and waits: only 0 of disk is there\",\"a.0 grant 1 disk\"],[0,0,0,3,2,[1],11,\"prints 1\"],[0,0,0,4,2,[],11,\"gives back 1 disk\",\"a.0 print 1\"],[0,0,0,5,5,[\"rest\",0,1],7,0,11,\"gives back 1 tape\",12,\"asks for 1 disk, and waits: it is there, but if it were granted none of these could be sure to finish: a b\",\"a.0 return 1 disk\"],[0,0,0,6,5,1,6,0,11,\"ends the process\",12,\"asks for 1 disk\",\"a.0 return 1 tape\"],[1,0,1,1,9,1,10,[1,0],12,\"asks for 1 tape\",\"b.0 grant 1 disk\"],[0,0,0,-2,11,\"\",\"a end\"],[1,0,1,2,5,0,8,1,12,\"takes the number 2\",\"b.0 grant 1 tape\"],[1,0,1,3,3,[2],12,\"prints 2\"],[1,0,1,4,3,[],12,\"gives back 1 tape\",\"b.0 print 2\"],[1,0,1,5,8,0,12,\"gives back 1 disk\",\"b.0 return 1 tape\"],[1,0,1,6,9,0,10,[0,1],12,\"ends the process\",\"b.0 return 1 disk\"],[1,0,1,-2,12,\"\",\"b end\"]],\"end\":\"done\"}\n",
    status: Status::Done,
};

/// A part of the same run: two rows from position 6 on.
const PART: Case = Case {
    input: b"resource tape = 1;\nresource disk = 1;\nprocess a begin hold 1 of tape do hold 1 of disk do print 1 od od end\nprocess b begin hold 1 of disk do hold 1 of tape do print 2 od od end\n%%\na.0 6\nb.0 1\na.0 1\nb.0 6\n",
    lending: Lending::ByBanker,
    shown: Shown { from: 6, rows: 2 },
    said: b"{\"parbegin\":1,\"kind\":\"run\",\"text\":\"resource tape = 1;\\nresource disk = 1;\\nprocess a begin hold 1 of tape do hold 1 of disk do print 1 od od end\\nprocess b begin hold 1 of disk do hold 1 of tape do print 2 od od end\\n\",\"object\":\"PBO 2\\nresources 2\\nresource tape 1\\nresource disk 1\\nprocesses 2\\nprocess a\\nvars 0\\narms 1\\nclaims 1 1\\narm 0\\ncode 7\\n3 take 0 1\\n3 take 1 1\\n3 push 1\\n3 print\\n3 give 1 1\\n3 give 0 1\\n0 end\\nprocess b\\nvars 0\\narms 1\\nclaims 1 1\\narm 0\\ncode 7\\n4 take 1 1\\n4 take 0 1\\n4 push 2\\n4 print\\n4 give 0 1\\n4 give 1 1\\n0 end\\n\",\"lend\":\"banker\",\"picks\":14,\"from\":6,\"start\":[6,0,[],[],0,1,0,0,0,0,[0,1],\"ends the process\",\"asks for 1 disk\"],\"rows\":[[1,0,1,1,9,1,10,[1,0],12,\"asks for 1 tape\",\"b.0 grant 1 disk\"],[0,0,0,-2,11,\"\",\"a end\"]],\"end\":\"more\"}\n",
    status: Status::Done,
};

/// A run that stops early, from after its end.
const OPEN: Case = Case {
    input: b"resource tape = 1;\nresource disk = 1;\nprocess a begin hold 1 of tape do hold 1 of disk do print 1 od od end\nprocess b begin hold 1 of disk do hold 1 of tape do print 2 od od end\n%%\na.0 6\n",
    lending: Lending::ByBanker,
    shown: Shown { from: 9, rows: 5 },
    said: b"{\"parbegin\":1,\"kind\":\"run\",\"text\":\"resource tape = 1;\\nresource disk = 1;\\nprocess a begin hold 1 of tape do hold 1 of disk do print 1 od od end\\nprocess b begin hold 1 of disk do hold 1 of tape do print 2 od od end\\n\",\"object\":\"PBO 2\\nresources 2\\nresource tape 1\\nresource disk 1\\nprocesses 2\\nprocess a\\nvars 0\\narms 1\\nclaims 1 1\\narm 0\\ncode 7\\n3 take 0 1\\n3 take 1 1\\n3 push 1\\n3 print\\n3 give 1 1\\n3 give 0 1\\n0 end\\nprocess b\\nvars 0\\narms 1\\nclaims 1 1\\narm 0\\ncode 7\\n4 take 1 1\\n4 take 0 1\\n4 push 2\\n4 print\\n4 give 0 1\\n4 give 1 1\\n0 end\\n\",\"lend\":\"banker\",\"picks\":6,\"from\":6,\"start\":[6,0,[],[],0,1,0,0,0,0,[0,1],\"ends the process\",\"asks for 1 disk\"],\"rows\":[],\"end\":\"open\"}\n",
    status: Status::Done,
};

/// A run that ends with a fault, of a text that a page must not read as markup, with integers that a float has not.
const FAULT: Case = Case {
    input: b"process p\nbegin\n\tinteger x; // </script> \"quoted\" \\ \r\n\tx := 9007199254740993; x := x - 2; x := 1 div 0\nend\n%%\np.0 9\n",
    lending: Lending::ByBanker,
    shown: Shown {
        from: 0,
        rows: 20_000,
    },
    said: b"{\"parbegin\":1,\"kind\":\"run\",\"text\":\"process p\\nbegin\\n\\u0009integer x; // \\u003c/script> \\\"quoted\\\" \\\\ \\u000d\\n\\u0009x := 9007199254740993; x := x - 2; x := 1 div 0\\nend\\n\",\"object\":\"PBO 2\\nresources 0\\nprocesses 1\\nprocess p\\nvars 1 x\\narms 1\\nclaims\\narm 0\\ncode 11\\n4 push 9007199254740993\\n4 store 0\\n4 load 0\\n4 push 2\\n4 sub\\n4 store 0\\n4 push 1\\n4 push 0\\n4 div\\n4 store 0\\n0 end\\n\",\"lend\":\"banker\",\"picks\":9,\"from\":0,\"start\":[0,[],0,0,[0],\"takes the number 9007199254740993\"],\"rows\":[[0,0,0,1,1,[\"9007199254740993\"],5,\"assigns 9007199254740993 to x (it was 0)\"],[0,0,0,2,1,[],3,\"9007199254740993\",5,\"reads x (9007199254740993)\"],[0,0,0,3,1,[\"9007199254740993\"],5,\"takes the number 2\"],[0,0,0,4,1,[\"9007199254740993\",2],5,\"computes 9007199254740993 - 2: 9007199254740991\"],[0,0,0,5,1,[9007199254740991],5,\"assigns 9007199254740991 to x (it was 9007199254740993)\"],[0,0,0,6,1,[],3,9007199254740991,5,\"takes the number 1\"],[0,0,0,7,1,[1],5,\"takes the number 0\"],[0,0,0,8,1,[1,0],5,\"faults (divide): 1 div 0\"],[0,0,0,-3,1,[],5,\"\",\"p.0 fault divide\"]],\"end\":\"done\"}\n",
    status: Status::Fault,
};

/// A text, a pick line and a pick that are refused.
const REFUSALS: [Case; 3] = [
    Case {
        input: b"process p begin print 1 end process\n%%\nq.0 1\n",
        lending: Lending::ByBanker,
        shown: Shown { from: 0, rows: 1 },
        said: b"refused P1 at 35\n",
        status: Status::Refused,
    },
    Case {
        input: b"process p begin print 1 end\n%%\np.0 9\nq.0 1\n",
        lending: Lending::ByBanker,
        shown: Shown { from: 0, rows: 1 },
        said: b"refused K1 at 6\n",
        status: Status::Refused,
    },
    Case {
        input: b"process p begin print 1 end\n%%\np.0 9\n",
        lending: Lending::ByBanker,
        shown: Shown { from: 0, rows: 1 },
        said: b"refused H1 at 3\n",
        status: Status::Refused,
    },
];

/// Runs by the cash alone: into a deadlock, up to the pick before it, and the first row of that one; the banker
/// refuses the last pick.
const BY_THE_CASH: [Case; 4] = [
    Case {
        input: b"resource tape = 1;\nresource disk = 1;\nprocess a begin hold 1 of tape do hold 1 of disk do print 1 od od end\nprocess b begin hold 1 of disk do hold 1 of tape do print 2 od od end\n%%\na.0 1\nb.0 1\n",
        lending: Lending::ByCash,
        shown: Shown { from: 0, rows: 9 },
        said: b"{\"parbegin\":1,\"kind\":\"run\",\"text\":\"resource tape = 1;\\nresource disk = 1;\\nprocess a begin hold 1 of tape do hold 1 of disk do print 1 od od end\\nprocess b begin hold 1 of disk do hold 1 of tape do print 2 od od end\\n\",\"object\":\"PBO 2\\nresources 2\\nresource tape 1\\nresource disk 1\\nprocesses 2\\nprocess a\\nvars 0\\narms 1\\nclaims 1 1\\narm 0\\ncode 7\\n3 take 0 1\\n3 take 1 1\\n3 push 1\\n3 print\\n3 give 1 1\\n3 give 0 1\\n0 end\\nprocess b\\nvars 0\\narms 1\\nclaims 1 1\\narm 0\\ncode 7\\n4 take 1 1\\n4 take 0 1\\n4 push 2\\n4 print\\n4 give 0 1\\n4 give 1 1\\n0 end\\n\",\"lend\":\"cash\",\"picks\":2,\"from\":0,\"start\":[0,0,[],[],1,1,0,0,0,0,[],\"asks for 1 tape\",\"asks for 1 disk\"],\"rows\":[[0,0,0,1,6,1,11,\"asks for 1 disk\",\"a.0 grant 1 tape\"],[1,0,1,1,4,[\"cash\",1],5,[\"cash\",0],9,1,11,\"asks for 1 disk, and waits: only 0 of disk is there\",12,\"asks for 1 tape, and waits: only 0 of tape is there\",\"b.0 grant 1 disk\"]],\"end\":\"deadlock\"}\n",
        status: Status::Deadlock,
    },
    Case {
        input: b"resource tape = 1;\nresource disk = 1;\nprocess a begin hold 1 of tape do hold 1 of disk do print 1 od od end\nprocess b begin hold 1 of disk do hold 1 of tape do print 2 od od end\n%%\na.0 1\n",
        lending: Lending::ByCash,
        shown: Shown { from: 0, rows: 9 },
        said: b"{\"parbegin\":1,\"kind\":\"run\",\"text\":\"resource tape = 1;\\nresource disk = 1;\\nprocess a begin hold 1 of tape do hold 1 of disk do print 1 od od end\\nprocess b begin hold 1 of disk do hold 1 of tape do print 2 od od end\\n\",\"object\":\"PBO 2\\nresources 2\\nresource tape 1\\nresource disk 1\\nprocesses 2\\nprocess a\\nvars 0\\narms 1\\nclaims 1 1\\narm 0\\ncode 7\\n3 take 0 1\\n3 take 1 1\\n3 push 1\\n3 print\\n3 give 1 1\\n3 give 0 1\\n0 end\\nprocess b\\nvars 0\\narms 1\\nclaims 1 1\\narm 0\\ncode 7\\n4 take 1 1\\n4 take 0 1\\n4 push 2\\n4 print\\n4 give 0 1\\n4 give 1 1\\n0 end\\n\",\"lend\":\"cash\",\"picks\":1,\"from\":0,\"start\":[0,0,[],[],1,1,0,0,0,0,[],\"asks for 1 tape\",\"asks for 1 disk\"],\"rows\":[[0,0,0,1,6,1,11,\"asks for 1 disk\",\"a.0 grant 1 tape\"]],\"end\":\"open\"}\n",
        status: Status::Done,
    },
    Case {
        input: b"resource tape = 1;\nresource disk = 1;\nprocess a begin hold 1 of tape do hold 1 of disk do print 1 od od end\nprocess b begin hold 1 of disk do hold 1 of tape do print 2 od od end\n%%\na.0 1\nb.0 1\n",
        lending: Lending::ByCash,
        shown: Shown { from: 0, rows: 1 },
        said: b"{\"parbegin\":1,\"kind\":\"run\",\"text\":\"resource tape = 1;\\nresource disk = 1;\\nprocess a begin hold 1 of tape do hold 1 of disk do print 1 od od end\\nprocess b begin hold 1 of disk do hold 1 of tape do print 2 od od end\\n\",\"object\":\"PBO 2\\nresources 2\\nresource tape 1\\nresource disk 1\\nprocesses 2\\nprocess a\\nvars 0\\narms 1\\nclaims 1 1\\narm 0\\ncode 7\\n3 take 0 1\\n3 take 1 1\\n3 push 1\\n3 print\\n3 give 1 1\\n3 give 0 1\\n0 end\\nprocess b\\nvars 0\\narms 1\\nclaims 1 1\\narm 0\\ncode 7\\n4 take 1 1\\n4 take 0 1\\n4 push 2\\n4 print\\n4 give 0 1\\n4 give 1 1\\n0 end\\n\",\"lend\":\"cash\",\"picks\":2,\"from\":0,\"start\":[0,0,[],[],1,1,0,0,0,0,[],\"asks for 1 tape\",\"asks for 1 disk\"],\"rows\":[[0,0,0,1,6,1,11,\"asks for 1 disk\",\"a.0 grant 1 tape\"]],\"end\":\"more\"}\n",
        status: Status::Deadlock,
    },
    Case {
        input: b"resource tape = 1;\nresource disk = 1;\nprocess a begin hold 1 of tape do hold 1 of disk do print 1 od od end\nprocess b begin hold 1 of disk do hold 1 of tape do print 2 od od end\n%%\na.0 1\nb.0 1\n",
        lending: Lending::ByBanker,
        shown: Shown { from: 0, rows: 9 },
        said: b"refused H1 at 1\n",
        status: Status::Refused,
    },
];

/// Runs of objects: of code that no text has, and a part of one in the first format, of which the document has the
/// second.
const OF_OBJECTS: [Case; 2] = [
    Case {
        input: b"PBO 2\nresources 0\nprocesses 1\nprocess p\nvars 1 x\narms 1\nclaims\narm 0\ncode 9\n0 push 1\n0 push 2\n0 print\n0 load 0\n0 jzero 6\n0 jump 7\n0 jump 7\n0 print\n0 end\n%%\np.0 8\n",
        lending: Lending::ByBanker,
        shown: Shown {
            from: 0,
            rows: 20_000,
        },
        said: b"{\"parbegin\":1,\"kind\":\"run\",\"text\":\"\",\"object\":\"PBO 2\\nresources 0\\nprocesses 1\\nprocess p\\nvars 1 x\\narms 1\\nclaims\\narm 0\\ncode 9\\n0 push 1\\n0 push 2\\n0 print\\n0 load 0\\n0 jzero 6\\n0 jump 7\\n0 jump 7\\n0 print\\n0 end\\n\",\"lend\":\"banker\",\"picks\":8,\"from\":0,\"start\":[0,[],0,0,[0],\"takes the number 1\"],\"rows\":[[0,0,0,1,1,[1],5,\"takes the number 2\"],[0,0,0,2,1,[1,2],5,\"prints 2\"],[0,0,0,3,1,[1],5,\"reads x (0)\",\"p.0 print 2\"],[0,0,0,4,1,[1,0],5,\"tests 0, which is false, and goes on to the end\"],[0,0,0,6,1,[1],5,\"goes on to the end\"],[0,0,0,7,5,\"prints 1\"],[0,0,0,8,1,[],5,\"ends the process\",\"p.0 print 1\"],[0,0,0,-2,5,\"\",\"p end\"]],\"end\":\"done\"}\n",
        status: Status::Done,
    },
    Case {
        input: b"PBO 1\nresources 1\nresource tape 1\nprocesses 1\nprocess p\nvars 1\narms 1\nclaims 1\narm 0\ncode 3\ntake 0 1\ngive 0 1\nend\n%%\np.0 2\n",
        lending: Lending::ByCash,
        shown: Shown { from: 1, rows: 9 },
        said: b"{\"parbegin\":1,\"kind\":\"run\",\"text\":\"\",\"object\":\"PBO 2\\nresources 1\\nresource tape 1\\nprocesses 1\\nprocess p\\nvars 1 v0\\narms 1\\nclaims 1\\narm 0\\ncode 3\\n0 take 0 1\\n0 give 0 1\\n0 end\\n\",\"lend\":\"cash\",\"picks\":2,\"from\":1,\"start\":[1,[],0,0,1,[],\"gives back 1 tape\"],\"rows\":[[0,0,0,2,4,0,6,\"ends the process\",\"p.0 return 1 tape\"]],\"end\":\"open\"}\n",
        status: Status::Done,
    },
];

/// What is no object, an object that is not safe, and a pick line and a pick over an object, which are refused.
const REFUSED_OBJECTS: [Case; 4] = [
    Case {
        input: b"PBO 3\n%%\n",
        lending: Lending::ByBanker,
        shown: Shown { from: 0, rows: 1 },
        said: b"refused O1 at 0\n",
        status: Status::Refused,
    },
    Case {
        input: b"PBO 2\nresources 0\nprocesses 1\nprocess p\nvars 0\narms 1\nclaims\narm 0\ncode 2\n0 print\n0 end\n%%\n",
        lending: Lending::ByBanker,
        shown: Shown { from: 0, rows: 1 },
        said: b"refused V2\n",
        status: Status::Refused,
    },
    Case {
        input: b"PBO 1\nresources 1\nresource tape 1\nprocesses 1\nprocess p\nvars 1\narms 1\nclaims 1\narm 0\ncode 3\ntake 0 1\ngive 0 1\nend\n%%\np.0 2\nq.0 1\n",
        lending: Lending::ByBanker,
        shown: Shown { from: 0, rows: 1 },
        said: b"refused K1 at 6\n",
        status: Status::Refused,
    },
    Case {
        input: b"PBO 1\nresources 1\nresource tape 1\nprocesses 1\nprocess p\nvars 1\narms 1\nclaims 1\narm 0\ncode 3\ntake 0 1\ngive 0 1\nend\n%%\np.0 4\n",
        lending: Lending::ByBanker,
        shown: Shown { from: 0, rows: 1 },
        said: b"refused H1 at 3\n",
        status: Status::Refused,
    },
];

/// Returns whether exactly what a case says is written, with its status.
fn says(alloc: Global, case: &Case) -> bool {
    let Ok(mut output) = MemoryOutput::new(alloc, 16_384) else {
        return false;
    };
    let status = write_states(
        alloc,
        Form::Lines,
        case.lending,
        case.shown,
        &mut MemoryInput::new(case.input),
        &mut output,
    );
    status == case.status && output.as_slice() == case.said
}

#[test]
fn a_run_has_a_row_for_each_pick(rt: HostRuntime) {
    assert!(rt; says(rt.alloc(), &WHOLE));
}

#[test]
fn a_limit_is_told(rt: HostRuntime) {
    assert!(rt; says(rt.alloc(), &PART));
    assert!(rt; says(rt.alloc(), &OPEN));
}

#[test]
fn a_fault_ends_a_process(rt: HostRuntime) {
    assert!(rt; says(rt.alloc(), &FAULT));
}

#[test]
fn the_cash_alone_can_lead_to_a_deadlock(rt: HostRuntime) {
    for case in &BY_THE_CASH {
        assert!(rt; says(rt.alloc(), case));
    }
}

#[test]
fn refusals_are_those_of_replay(rt: HostRuntime) {
    for case in &REFUSALS {
        assert!(rt; says(rt.alloc(), case));
    }
}

#[test]
fn an_object_has_no_text(rt: HostRuntime) {
    for case in &OF_OBJECTS {
        assert!(rt; says(rt.alloc(), case));
    }
    for case in &REFUSED_OBJECTS {
        assert!(rt; says(rt.alloc(), case));
    }
}

#[test]
fn an_object_begins_so(rt: HostRuntime) {
    assert!(rt; is_object(b"PBO 1\nresources 0\n"));
    assert!(rt; !is_object(b"PBO"));
    assert!(rt; !is_object(b"process PBO begin skip end"));
}
