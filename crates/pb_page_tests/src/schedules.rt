//! Texts, and the documents of all their schedules.

use pb_base::{Lending, MemoryInput, MemoryOutput};
use pb_command_io::Status;
use pb_page_engine::write_schedules;
use pb_voice::Form;
use std::alloc::Global;

/// A text, who lends, and what is written of all its schedules as lines.
struct Case {
    text: &'static [u8],
    lending: Lending,
    said: &'static [u8],
}

/// One process, which prints.
const TINY: Case = Case {
    text: b"process p begin print 1 end\n",
    lending: Lending::ByBanker,
    said: b"{\"parbegin\":1,\"kind\":\"schedules\",\"text\":\"process p begin print 1 end\\n\",\"object\":\"PBO 2\\nresources 0\\nprocesses 1\\nprocess p\\nvars 0\\narms 1\\nclaims\\narm 0\\ncode 3\\n1 push 1\\n1 print\\n0 end\\n\",\"lend\":\"banker\",\"start\":[0,[],0,[0],\"takes the number 1\"],\"nodes\":[[[0,0,1,0,1,1,[1],4,\"prints 1\"]],[[0,0,2,0,2,1,[],4,\"ends the process\",\"p.0 print 1\"]],[[0,0,3,0,-2,4,\"\",\"p end\"]],[]],\"outcomes\":[3],\"deadlocks\":[],\"endless\":false}\n",
};

/// Two jobs that want the same devices, in opposite order: the banker lets them come to no deadlock.
const DEVICES: Case = Case {
    text: b"resource tape = 1;\nresource disk = 1;\nprocess a begin hold 1 of tape do hold 1 of disk do print 1 od od end\nprocess b begin hold 1 of disk do hold 1 of tape do print 2 od od end\n",
    lending: Lending::ByBanker,
    said: b"{\"parbegin\":1,\"kind\":\"schedules\",\"text\":\"resource tape = 1;\\nresource disk = 1;\\nprocess a begin hold 1 of tape do hold 1 of disk do print 1 od od end\\nprocess b begin hold 1 of disk do hold 1 of tape do print 2 od od end\\n\",\"object\":\"PBO 2\\nresources 2\\nresource tape 1\\nresource disk 1\\nprocesses 2\\nprocess a\\nvars 0\\narms 1\\nclaims 1 1\\narm 0\\ncode 7\\n3 take 0 1\\n3 take 1 1\\n3 push 1\\n3 print\\n3 give 1 1\\n3 give 0 1\\n0 end\\nprocess b\\nvars 0\\narms 1\\nclaims 1 1\\narm 0\\ncode 7\\n4 take 1 1\\n4 take 0 1\\n4 push 2\\n4 print\\n4 give 0 1\\n4 give 1 1\\n0 end\\n\",\"lend\":\"banker\",\"start\":[0,0,[],[],1,1,0,0,0,0,[0,1],\"asks for 1 tape\",\"asks for 1 disk\"],\"nodes\":[[[0,0,1,0,1,5,[\"rest\",0,1],6,1,11,\"asks for 1 disk\",12,\"asks for 1 disk, and waits: it is there, but if it were granted none of these could be sure to finish: a b\",\"a.0 grant 1 tape\"],[1,0,2,1,1,4,[\"rest\",0,1],9,1,10,[1,0],11,\"asks for 1 tape, and waits: it is there, but if it were granted none of these could be sure to finish: a b\",12,\"asks for 1 tape\",\"b.0 grant 1 disk\"]],[[0,0,3,0,2,4,0,5,[\"cash\",1],7,1,11,\"takes the number 1\",12,\"asks for 1 disk, and waits: only 0 of disk is there\",\"a.0 grant 1 disk\"]],[[1,0,4,1,2,4,[\"cash\",0],5,0,8,1,11,\"asks for 1 tape, and waits: only 0 of tape is there\",12,\"takes the number 2\",\"b.0 grant 1 tape\"]],[[0,0,5,0,3,2,[1],11,\"prints 1\"]],[[1,0,6,1,3,3,[2],12,\"prints 2\"]],[[0,0,7,0,4,2,[],11,\"gives back 1 disk\",\"a.0 print 1\"]],[[1,0,8,1,4,3,[],12,\"gives back 1 tape\",\"b.0 print 2\"]],[[0,0,9,0,5,5,[\"rest\",0,1],7,0,11,\"gives back 1 tape\",12,\"asks for 1 disk, and waits: it is there, but if it were granted none of these could be sure to finish: a b\",\"a.0 return 1 disk\"]],[[1,0,10,1,5,4,[\"rest\",0,1],8,0,11,\"asks for 1 tape, and waits: it is there, but if it were granted none of these could be sure to finish: a b\",12,\"gives back 1 disk\",\"b.0 return 1 tape\"]],[[0,0,11,0,6,5,1,6,0,11,\"ends the process\",12,\"asks for 1 disk\",\"a.0 return 1 tape\"]],[[1,0,12,1,6,4,1,9,0,10,[0,1],11,\"asks for 1 tape\",12,\"ends the process\",\"b.0 return 1 disk\"]],[[0,0,13,0,-2,11,\"\",\"a end\"],[1,0,14,1,1,9,1,10,[1,0],12,\"asks for 1 tape\",\"b.0 grant 1 disk\"]],[[0,0,15,0,1,6,1,11,\"asks for 1 disk\",\"a.0 grant 1 tape\"],[1,0,16,1,-2,12,\"\",\"b end\"]],[[1,0,17,1,1,9,1,10,[1,0],12,\"asks for 1 tape\",\"b.0 grant 1 disk\"]],[[0,0,17,\"a end\"],[1,0,18,1,2,5,0,8,1,12,\"takes the number 2\",\"b.0 grant 1 tape\"]],[[0,0,19,0,2,4,0,7,1,11,\"takes the number 1\",\"a.0 grant 1 disk\"],[1,0,20,1,-2,12,\"\",\"b end\"]],[[0,0,20,\"a.0 grant 1 tape\"]],[[1,0,21,1,2,5,0,8,1,12,\"takes the number 2\",\"b.0 grant 1 tape\"]],[[0,0,21,\"a end\"],[1,0,22,1,3,3,[2],12,\"prints 2\"]],[[0,0,23,0,3,2,[1],11,\"prints 1\"],[1,0,24,1,-2,12,\"\",\"b end\"]],[[0,0,24,\"a.0 grant 1 disk\"]],[[1,0,25,1,3,3,[2],12,\"prints 2\"]],[[0,0,25,\"a end\"],[1,0,26,1,4,3,[],12,\"gives back 1 tape\",\"b.0 print 2\"]],[[0,0,27,0,4,2,[],11,\"gives back 1 disk\",\"a.0 print 1\"],[1,0,28,1,-2,12,\"\",\"b end\"]],[[0,0,28]],[[1,0,29,1,4,3,[],12,\"gives back 1 tape\",\"b.0 print 2\"]],[[0,0,29,\"a end\"],[1,0,30,1,5,8,0,12,\"gives back 1 disk\",\"b.0 return 1 tape\"]],[[0,0,31,0,5,7,0,11,\"gives back 1 tape\",\"a.0 return 1 disk\"],[1,0,32,1,-2,12,\"\",\"b end\"]],[[0,0,32,\"a.0 print 1\"]],[[1,0,33,1,5,8,0,12,\"gives back 1 disk\",\"b.0 return 1 tape\"]],[[0,0,33,\"a end\"],[1,0,34,1,6,9,0,10,[0,1],12,\"ends the process\",\"b.0 return 1 disk\"]],[[0,0,34,\"a.0 return 1 tape\"],[1,0,35,1,-2,12,\"\",\"b end\"]],[[0,0,35,\"a.0 return 1 disk\"]],[[1,0,36,1,6,9,0,10,[0,1],12,\"ends the process\",\"b.0 return 1 disk\"]],[[0,0,36,\"a end\"],[1,0,37,1,-2,12,\"\",\"b end\"]],[[0,0,37,\"a.0 return 1 tape\"]],[[1,0,38,1,-2,12,\"\",\"b end\"]],[[0,0,38,\"a end\"]],[]],\"outcomes\":[38],\"deadlocks\":[],\"endless\":false}\n",
};

/// Two such jobs by the cash alone, which can come to a deadlock.
const DEADLOCK: Case = Case {
    text: b"resource t = 1; resource d = 1; process a begin hold 1 of t do hold 1 of d do skip od od end process b begin hold 1 of d do hold 1 of t do skip od od end\n",
    lending: Lending::ByCash,
    said: b"{\"parbegin\":1,\"kind\":\"schedules\",\"text\":\"resource t = 1; resource d = 1; process a begin hold 1 of t do hold 1 of d do skip od od end process b begin hold 1 of d do hold 1 of t do skip od od end\\n\",\"object\":\"PBO 2\\nresources 2\\nresource t 1\\nresource d 1\\nprocesses 2\\nprocess a\\nvars 0\\narms 1\\nclaims 1 1\\narm 0\\ncode 5\\n1 take 0 1\\n1 take 1 1\\n1 give 1 1\\n1 give 0 1\\n0 end\\nprocess b\\nvars 0\\narms 1\\nclaims 1 1\\narm 0\\ncode 5\\n1 take 1 1\\n1 take 0 1\\n1 give 0 1\\n1 give 1 1\\n0 end\\n\",\"lend\":\"cash\",\"start\":[0,0,[],[],1,1,0,0,0,0,[],\"asks for 1 t\",\"asks for 1 d\"],\"nodes\":[[[0,0,1,0,1,6,1,11,\"asks for 1 d\",\"a.0 grant 1 t\"],[1,0,2,1,1,9,1,12,\"asks for 1 t\",\"b.0 grant 1 d\"]],[[0,0,3,0,2,4,0,5,[\"cash\",1],7,1,11,\"gives back 1 d\",12,\"asks for 1 d, and waits: only 0 of d is there\",\"a.0 grant 1 d\"],[1,0,4,1,1,4,[\"cash\",1],5,[\"cash\",0],9,1,11,\"asks for 1 d, and waits: only 0 of d is there\",12,\"asks for 1 t, and waits: only 0 of t is there\",\"b.0 grant 1 d\"]],[[0,0,4,\"a.0 grant 1 t\"],[1,0,5,1,2,4,[\"cash\",0],5,0,8,1,11,\"asks for 1 t, and waits: only 0 of t is there\",12,\"gives back 1 t\",\"b.0 grant 1 t\"]],[[0,0,6,0,3,5,1,7,0,11,\"gives back 1 t\",12,\"asks for 1 d\",\"a.0 return 1 d\"]],[],[[1,0,7,1,3,4,1,8,0,11,\"asks for 1 t\",12,\"gives back 1 d\",\"b.0 return 1 t\"]],[[0,0,8,0,4,6,0,11,\"ends the process\",\"a.0 return 1 t\"],[1,0,9,1,1,5,[\"cash\",0],9,1,12,\"asks for 1 t, and waits: only 0 of t is there\",\"b.0 grant 1 d\"]],[[0,0,10,0,1,4,[\"cash\",1],6,1,11,\"asks for 1 d, and waits: only 0 of d is there\",\"a.0 grant 1 t\"],[1,0,11,1,4,9,0,12,\"ends the process\",\"b.0 return 1 d\"]],[[0,0,12,0,-2,11,\"\",\"a end\"],[1,0,13,1,1,9,1,12,\"asks for 1 t\",\"b.0 grant 1 d\"]],[[0,0,13,\"a.0 return 1 t\"]],[[1,0,14,1,4,4,1,9,0,11,\"asks for 1 d\",12,\"ends the process\",\"b.0 return 1 d\"]],[[0,0,14,\"a.0 grant 1 t\"],[1,0,15,1,-2,12,\"\",\"b end\"]],[[1,0,16,1,1,9,1,12,\"asks for 1 t\",\"b.0 grant 1 d\"]],[[0,0,16,\"a end\"],[1,0,17,1,2,5,0,8,1,12,\"gives back 1 t\",\"b.0 grant 1 t\"]],[[0,0,18,0,2,4,0,7,1,11,\"gives back 1 d\",\"a.0 grant 1 d\"],[1,0,19,1,-2,12,\"\",\"b end\"]],[[0,0,19,\"a.0 grant 1 t\"]],[[1,0,20,1,2,5,0,8,1,12,\"gives back 1 t\",\"b.0 grant 1 t\"]],[[0,0,20,\"a end\"],[1,0,21,1,3,8,0,12,\"gives back 1 d\",\"b.0 return 1 t\"]],[[0,0,22,0,3,7,0,11,\"gives back 1 t\",\"a.0 return 1 d\"],[1,0,23,1,-2,12,\"\",\"b end\"]],[[0,0,23,\"a.0 grant 1 d\"]],[[1,0,24,1,3,8,0,12,\"gives back 1 d\",\"b.0 return 1 t\"]],[[0,0,24,\"a end\"],[1,0,25,1,4,9,0,12,\"ends the process\",\"b.0 return 1 d\"]],[[0,0,25,\"a.0 return 1 t\"],[1,0,26,1,-2,12,\"\",\"b end\"]],[[0,0,26,\"a.0 return 1 d\"]],[[1,0,27,1,4,9,0,12,\"ends the process\",\"b.0 return 1 d\"]],[[0,0,27,\"a end\"],[1,0,28,1,-2,12,\"\",\"b end\"]],[[0,0,28,\"a.0 return 1 t\"]],[[1,0,29,1,-2,12,\"\",\"b end\"]],[[0,0,29,\"a end\"]],[]],\"outcomes\":[29],\"deadlocks\":[4],\"endless\":false}\n",
};

/// Two arms that add one to the same integer, where one of both can be lost.
const LOST: Case = Case {
    text: b"process p begin integer x; parbegin x := x + 1; x := x + 1 parend end\n",
    lending: Lending::ByCash,
    said: b"{\"parbegin\":1,\"kind\":\"schedules\",\"text\":\"process p begin integer x; parbegin x := x + 1; x := x + 1 parend end\\n\",\"object\":\"PBO 2\\nresources 0\\nprocesses 1\\nprocess p\\nvars 1 x\\narms 3\\nclaims\\narm 0\\narm 3\\narm 8\\ncode 13\\n1 fork 1 2\\n1 join 1 2\\n0 end\\n1 load 0\\n1 push 1\\n1 add\\n1 store 0\\n0 end\\n1 load 0\\n1 push 1\\n1 add\\n1 store 0\\n0 end\\n\",\"lend\":\"cash\",\"start\":[0,-1,-1,[],[],[],0,0,0,0,[],\"starts p.1 and p.2\",\"\",\"\"],\"nodes\":[[[0,0,1,0,1,1,3,2,8,11,\"waits for p.1 and p.2\",12,\"reads x (0)\",13,\"reads x (0)\"]],[[0,1,2,1,4,4,[0],12,\"takes the number 1\"],[0,2,3,2,9,5,[0],13,\"takes the number 1\"]],[[0,1,4,1,5,4,[0,1],12,\"computes 0 + 1: 1\"],[0,2,5,2,9,5,[0],13,\"takes the number 1\"]],[[0,1,5],[0,2,6,2,10,5,[0,1],13,\"computes 0 + 1: 1\"]],[[0,1,7,1,6,4,[1],12,\"assigns 1 to x (it was 0)\"],[0,2,8,2,9,5,[0],13,\"takes the number 1\"]],[[0,1,8],[0,2,9,2,10,5,[0,1],13,\"computes 0 + 1: 1\"]],[[0,1,9],[0,2,10,2,11,5,[1],13,\"assigns 1 to x (it was 0)\"]],[[0,1,11,1,7,4,[],9,1,12,\"ends\",13,\"reads x (1)\"],[0,2,12,2,9,5,[0],13,\"takes the number 1\"]],[[0,1,12],[0,2,13,2,10,5,[0,1],13,\"computes 0 + 1: 1\"]],[[0,1,13],[0,2,14,2,11,5,[1],13,\"assigns 1 to x (it was 0)\"]],[[0,1,14],[0,2,15,2,12,5,[],9,1,12,\"reads x (1)\",13,\"ends\"]],[[0,1,16,1,-2,11,\"waits for p.2\",12,\"\"],[0,2,17,2,9,5,[1],13,\"takes the number 1\"]],[[0,1,18,1,7,4,[],9,1,12,\"ends\"],[0,2,19,2,10,5,[0,1],13,\"computes 0 + 1: 1\"]],[[0,1,19],[0,2,20,2,11,5,[1],13,\"assigns 1 to x (it was 0)\"]],[[0,1,20],[0,2,21,2,12,5,[],9,1,13,\"ends\"]],[[0,1,22,1,4,4,[1],12,\"takes the number 1\"],[0,2,23,2,-2,11,\"waits for p.1\",13,\"\"]],[[0,2,24,2,9,5,[1],13,\"takes the number 1\"]],[[0,1,24],[0,2,25,2,10,5,[1,1],13,\"computes 1 + 1: 2\"]],[[0,1,26,1,-2,11,\"waits for p.2\",12,\"\"],[0,2,27,2,10,5,[0,1],13,\"computes 0 + 1: 1\"]],[[0,1,27],[0,2,28,2,11,5,[1],13,\"assigns 1 to x (it was 0)\"]],[[0,1,28],[0,2,29,2,12,5,[],9,1,13,\"ends\"]],[[0,1,29],[0,2,30,2,-2,11,\"waits for p.1\",13,\"\"]],[[0,1,31,1,5,4,[1,1],12,\"computes 1 + 1: 2\"],[0,2,32,2,-2,11,\"waits for p.1\",13,\"\"]],[[0,1,32]],[[0,2,33,2,10,5,[1,1],13,\"computes 1 + 1: 2\"]],[[0,1,33],[0,2,34,2,11,5,[2],13,\"assigns 2 to x (it was 1)\"]],[[0,2,35,2,10,5,[0,1],13,\"computes 0 + 1: 1\"]],[[0,1,35],[0,2,36,2,11,5,[1],13,\"assigns 1 to x (it was 1)\"]],[[0,1,36],[0,2,37,2,12,5,[],9,1,12,\"assigns 1 to x (it was 1)\",13,\"ends\"]],[[0,1,37],[0,2,38,2,-2,11,\"waits for p.1\",13,\"\"]],[[0,1,38]],[[0,1,39,1,6,4,[2],12,\"assigns 2 to x (it was 1)\"],[0,2,40,2,-2,11,\"waits for p.1\",13,\"\"]],[[0,1,40]],[[0,2,41,2,11,5,[2],13,\"assigns 2 to x (it was 1)\"]],[[0,1,41],[0,2,42,2,12,5,[],9,2,13,\"ends\"]],[[0,2,43,2,11,5,[1],13,\"assigns 1 to x (it was 1)\"]],[[0,1,43],[0,2,44,2,12,5,[],13,\"ends\"]],[[0,1,44],[0,2,45,2,-2,11,\"waits for p.1\",13,\"\"]],[[0,1,45]],[[0,1,42],[0,2,46,2,-2,11,\"waits for p.1\",13,\"\"]],[[0,1,46]],[[0,2,47,2,12,5,[],9,2,13,\"ends\"]],[[0,1,47],[0,2,48,2,-2,11,\"waits for p.1\",13,\"\"]],[[0,2,49,2,12,5,[],13,\"ends\"]],[[0,1,49],[0,2,50,2,-2,11,\"waits for p.1\",13,\"\"]],[[0,1,50]],[[0,1,48]],[[0,2,51,2,-2,11,\"goes on after p.1 and p.2\",13,\"\"]],[[0,1,51]],[[0,2,52,2,-2,11,\"goes on after p.1 and p.2\",13,\"\"]],[[0,1,52]],[[0,0,53,0,2,1,-1,2,-1,11,\"ends the process\"]],[[0,0,54,0,2,1,-1,2,-1,11,\"ends the process\"]],[[0,0,55,0,-2,11,\"\",\"p end\"]],[[0,0,56,0,-2,11,\"\",\"p end\"]],[],[]],\"outcomes\":[55,56],\"deadlocks\":[],\"endless\":false}\n",
};

/// A process that never ends.
const LOOP: Case = Case {
    text: b"process p begin while 1 = 1 do skip od end\n",
    lending: Lending::ByBanker,
    said: b"{\"parbegin\":1,\"kind\":\"schedules\",\"text\":\"process p begin while 1 = 1 do skip od end\\n\",\"object\":\"PBO 2\\nresources 0\\nprocesses 1\\nprocess p\\nvars 0\\narms 1\\nclaims\\narm 0\\ncode 6\\n1 push 1\\n1 push 1\\n1 eq\\n1 jzero 5\\n1 jump 0\\n0 end\\n\",\"lend\":\"banker\",\"start\":[0,[],0,[0],\"takes the number 1\"],\"nodes\":[[[0,0,1,0,1,1,[1]]],[[0,0,2,0,2,1,[1,1],4,\"computes 1 = 1: 1\"]],[[0,0,3,0,3,1,[1],4,\"tests 1, which is true, and goes on at line 1\"]],[[0,0,4,0,4,1,[],4,\"goes on at line 1\"]],[[0,0,0]]],\"outcomes\":[],\"deadlocks\":[],\"endless\":true}\n",
};

/// The process of `TINY`, if at most three configurations are allowed.
const TINY_LIMIT: Case = Case {
    text: b"process p begin print 1 end\n",
    lending: Lending::ByBanker,
    said: b"{\"parbegin\":1,\"kind\":\"schedules\",\"text\":\"process p begin print 1 end\\n\",\"object\":\"PBO 2\\nresources 0\\nprocesses 1\\nprocess p\\nvars 0\\narms 1\\nclaims\\narm 0\\ncode 3\\n1 push 1\\n1 print\\n0 end\\n\",\"lend\":\"banker\",\"more_than\":3}\n",
};

/// The same as an object.
const TINY_LIMIT_OBJECT: &[u8] =
    b"{\"kind\":\"line\",\"text\":\"{\\\"parbegin\\\":1,\\\"kind\\\":\\\"schedules\\\",\\\"text\\\":\\\"process p begin print 1 end\\\\n\\\",\\\"object\\\":\\\"PBO 2\\\\nresources 0\\\\nprocesses 1\\\\nprocess p\\\\nvars 0\\\\narms 1\\\\nclaims\\\\narm 0\\\\ncode 3\\\\n1 push 1\\\\n1 print\\\\n0 end\\\\n\\\",\\\"lend\\\":\\\"banker\\\",\\\"more_than\\\":3}\"}\n";

/// A text that is none.
const REFUSED: Case = Case {
    text: b"process p begin print 1 end process",
    lending: Lending::ByBanker,
    said: b"refused P1 at 35\n",
};

/// Returns whether this is written of a text in a form, with this status.
fn writes(
    alloc: Global,
    form: Form,
    case: &Case,
    states: u32,
    status: Status,
    said: &[u8],
) -> Option<bool> {
    let mut input = MemoryInput::new(case.text);
    let mut output = MemoryOutput::new(alloc, 16_384).ok()?;
    let told = write_schedules(alloc, form, case.lending, states, &mut input, &mut output);
    Some(told == status && output.as_slice() == said)
}

/// Returns whether this is written of a text as lines, with this status.
fn tells(alloc: Global, case: &Case, states: u32, status: Status) -> Option<bool> {
    writes(alloc, Form::Lines, case, states, status, case.said)
}

#[test]
fn each_node_has_its_rows(rt: HostRuntime) {
    assert!(rt; tells(rt.alloc(), &TINY, 1000, Status::Done) == Some(true));
    assert!(rt; tells(rt.alloc(), &DEVICES, 1000, Status::Done) == Some(true));
}

#[test]
fn deadlocks_are_told(rt: HostRuntime) {
    assert!(rt; tells(rt.alloc(), &DEADLOCK, 1000, Status::Done) == Some(true));
}

#[test]
fn each_outcome_is_told(rt: HostRuntime) {
    assert!(rt; tells(rt.alloc(), &LOST, 1000, Status::Done) == Some(true));
}

#[test]
fn a_run_that_never_ends_is_told(rt: HostRuntime) {
    assert!(rt; tells(rt.alloc(), &LOOP, 1000, Status::Done) == Some(true));
}

#[test]
fn a_limit_is_told(rt: HostRuntime) {
    assert!(rt; tells(rt.alloc(), &TINY, 4, Status::Done) == Some(true));
    assert!(rt; tells(rt.alloc(), &TINY_LIMIT, 3, Status::Limit) == Some(true));
}

#[test]
fn refused_texts_are_told(rt: HostRuntime) {
    assert!(rt; tells(rt.alloc(), &REFUSED, 3, Status::Refused) == Some(true));
}

#[test]
fn documents_are_objects(rt: HostRuntime) {
    let alloc = rt.alloc();
    let limit = writes(
        alloc,
        Form::Objects,
        &TINY_LIMIT,
        3,
        Status::Limit,
        TINY_LIMIT_OBJECT,
    );
    assert!(rt; limit == Some(true));
    let object = b"{\"kind\":\"refused\",\"code\":\"P1\",\"at\":35}\n";
    let refused = writes(alloc, Form::Objects, &REFUSED, 3, Status::Refused, object);
    assert!(rt; refused == Some(true));
}
