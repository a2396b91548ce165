//! Texts of commands, and the JSON lines that are made of them.

use pb_json_lines::{Dialect, json_lines};
use std::alloc::Global;

/// A text, and its JSON lines.
struct Case {
    text: &'static [u8],
    lines: &'static [u8],
}

/// What `run` and `replay` write.
const EVENTS: [Case; 3] = [
    Case {
        text: b"p.0 grant 1 tape 2 disk\np.12 return 1 tape\np.0 print -9223372036854775808\np.0 print 9007199254740991\np.0 fault divide\nend end\nlimit 40\n",
        lines: b"{\"kind\":\"grant\",\"process\":\"p\",\"arm\":0,\"amounts\":[{\"amount\":1,\"resource\":\"tape\"},{\"amount\":2,\"resource\":\"disk\"}]}\n{\"kind\":\"return\",\"process\":\"p\",\"arm\":12,\"amounts\":[{\"amount\":1,\"resource\":\"tape\"}]}\n{\"kind\":\"print\",\"process\":\"p\",\"arm\":0,\"value\":\"-9223372036854775808\"}\n{\"kind\":\"print\",\"process\":\"p\",\"arm\":0,\"value\":9007199254740991}\n{\"kind\":\"fault\",\"process\":\"p\",\"arm\":0,\"fault\":\"divide\"}\n{\"kind\":\"end\",\"process\":\"end\"}\n{\"kind\":\"limit\",\"limit\":40}\n",
    },
    Case {
        text: b"done\nopen\ndeadlock\nmemory\nthreads\nok",
        lines: b"{\"kind\":\"done\"}\n{\"kind\":\"open\"}\n{\"kind\":\"deadlocked\"}\n{\"kind\":\"memory\"}\n{\"kind\":\"threads\"}\n{\"kind\":\"ok\"}\n",
    },
    Case {
        text: b"",
        lines: b"",
    },
];

/// What `claims` and `plan` write, and refusal lines.
const CLAIMS: [Case; 2] = [
    Case {
        text: b"p claim 2 tape\np claim 0 disk\nq claim 3 tape lines 4 7\ntape capital 4 least 3 free 5\nbottleneck tape\nno request waits\n",
        lines: b"{\"kind\":\"claim\",\"process\":\"p\",\"claim\":2,\"resource\":\"tape\"}\n{\"kind\":\"claim\",\"process\":\"p\",\"claim\":0,\"resource\":\"disk\"}\n{\"kind\":\"claim\",\"process\":\"q\",\"claim\":3,\"resource\":\"tape\",\"lines\":[4,7]}\n{\"kind\":\"resource\",\"resource\":\"tape\",\"capital\":4,\"least\":3,\"free\":5}\n{\"kind\":\"bottleneck\",\"resource\":\"tape\"}\n{\"kind\":\"no request waits\"}\n",
    },
    Case {
        text: b"refused input\nrefused N3 at 12\nrefused N1 processes\nrefused C1 p tape claim 5 capital 4\nrefused P2\n",
        lines: b"{\"kind\":\"refused\",\"code\":\"input\"}\n{\"kind\":\"refused\",\"code\":\"N3\",\"at\":12}\n{\"kind\":\"refused\",\"code\":\"N1\",\"text\":\"processes\"}\n{\"kind\":\"refused\",\"code\":\"C1\",\"process\":\"p\",\"resource\":\"tape\",\"claim\":5,\"capital\":4}\n{\"kind\":\"refused\",\"code\":\"P2\"}\n",
    },
];

/// Names that make a line look like another one.
const NAMES: [Case; 2] = [
    Case {
        text: b"outcome 1\norder ended\nbottleneck faulted\nrefused ended\nrefused.x 4\nprinted\nprinted.0 print 1\nreached by\norder.0 2\ndeadlock 1\nrefused waits\norder holds 2 order\n1 outcome, 1 deadlock\n",
        lines: b"{\"kind\":\"outcome\",\"number\":1,\"processes\":[{\"kind\":\"ended\",\"process\":\"order\"},{\"kind\":\"faulted\",\"process\":\"bottleneck\"},{\"kind\":\"ended\",\"process\":\"refused\"}],\"integers\":[{\"kind\":\"integer\",\"process\":\"refused\",\"integer\":\"x\",\"value\":4}],\"holds\":[],\"asks\":[],\"prints\":[{\"kind\":\"print\",\"process\":\"printed\",\"arm\":0,\"value\":1}],\"picks\":[{\"kind\":\"picks\",\"process\":\"order\",\"arm\":0,\"count\":2}]}\n{\"kind\":\"deadlock\",\"number\":1,\"processes\":[{\"kind\":\"waits\",\"process\":\"refused\"}],\"integers\":[],\"holds\":[{\"kind\":\"holds\",\"process\":\"order\",\"amount\":2,\"resource\":\"order\"}],\"asks\":[],\"prints\":[],\"picks\":[]}\n{\"kind\":\"outcomes\",\"endless\":false,\"outcomes\":1,\"deadlocks\":1}\n",
    },
    Case {
        text: b"refused claim 2 tape\norder claim 0 order lines 4\nrefused capital 4 least 3 free 5\nbottleneck ended\norder waits holds\norder\nno order\norder end\nrefused end\n",
        lines: b"{\"kind\":\"claim\",\"process\":\"refused\",\"claim\":2,\"resource\":\"tape\"}\n{\"kind\":\"claim\",\"process\":\"order\",\"claim\":0,\"resource\":\"order\",\"lines\":[4]}\n{\"kind\":\"resource\",\"resource\":\"refused\",\"capital\":4,\"least\":3,\"free\":5}\n{\"kind\":\"bottleneck\",\"resource\":\"ended\"}\n{\"kind\":\"order\",\"text\":\"waits holds\"}\n{\"kind\":\"order\",\"text\":\"\"}\n{\"kind\":\"no order\"}\n{\"kind\":\"end\",\"process\":\"order\"}\n{\"kind\":\"end\",\"process\":\"refused\"}\n",
    },
];

/// What `outcomes` writes.
const OUTCOMES: [Case; 3] = [
    Case {
        text: b"outcome 1\np ended\np.x 5\nq faulted\nprinted\np.0 print 3\nreached by\np.0 12\nq.1 3\noutcome 2\np ended\nreached by\n2 outcomes\n",
        lines: b"{\"kind\":\"outcome\",\"number\":1,\"processes\":[{\"kind\":\"ended\",\"process\":\"p\"},{\"kind\":\"faulted\",\"process\":\"q\"}],\"integers\":[{\"kind\":\"integer\",\"process\":\"p\",\"integer\":\"x\",\"value\":5}],\"holds\":[],\"asks\":[],\"prints\":[{\"kind\":\"print\",\"process\":\"p\",\"arm\":0,\"value\":3}],\"picks\":[{\"kind\":\"picks\",\"process\":\"p\",\"arm\":0,\"count\":12},{\"kind\":\"picks\",\"process\":\"q\",\"arm\":1,\"count\":3}]}\n{\"kind\":\"outcome\",\"number\":2,\"processes\":[{\"kind\":\"ended\",\"process\":\"p\"}],\"integers\":[],\"holds\":[],\"asks\":[],\"prints\":[],\"picks\":[]}\n{\"kind\":\"outcomes\",\"deadlocks\":0,\"endless\":false,\"outcomes\":2}\n",
    },
    Case {
        text: b"deadlock 1\na waits\na holds 1 tape\na.0 asks 1 disk\nreached by\na.0 1\nsomething else\na ended\n1 outcome, 1 deadlock, some runs do not end\n",
        lines: b"{\"kind\":\"deadlock\",\"number\":1,\"processes\":[{\"kind\":\"waits\",\"process\":\"a\"}],\"integers\":[],\"holds\":[{\"kind\":\"holds\",\"process\":\"a\",\"amount\":1,\"resource\":\"tape\"}],\"asks\":[{\"kind\":\"asks\",\"process\":\"a\",\"arm\":0,\"amounts\":[{\"amount\":1,\"resource\":\"disk\"}]}],\"prints\":[],\"picks\":[{\"kind\":\"picks\",\"process\":\"a\",\"arm\":0,\"count\":1}]}\n{\"kind\":\"line\",\"text\":\"something else\"}\n{\"kind\":\"line\",\"text\":\"a ended\"}\n{\"kind\":\"outcomes\",\"endless\":true,\"outcomes\":1,\"deadlocks\":1}\n",
    },
    Case {
        text: b"more than 5 configurations, there may be others\nno outcome 3\nas expected\nnot as expected: a deadlock\n\n p end\np.01 print 1\np.0 grant\np.0 grant 1 tape \n",
        lines: b"{\"kind\":\"others\",\"of\":\"configurations\",\"limit\":5}\n{\"kind\":\"no outcome\",\"number\":3}\n{\"kind\":\"as expected\"}\n{\"kind\":\"not as expected\",\"text\":\"a deadlock\"}\n{\"kind\":\"line\",\"text\":\"\"}\n{\"kind\":\"line\",\"text\":\" p end\"}\n{\"kind\":\"line\",\"text\":\"p.01 print 1\"}\n{\"kind\":\"line\",\"text\":\"p.0 grant\"}\n{\"kind\":\"line\",\"text\":\"p.0 grant 1 tape \"}\n",
    },
];

/// What `plan` writes after `no order`, and of several texts.
const CIRCLES: [Case; 2] = [
    Case {
        text: b"no order\norder holds tape line 7 around disk line 8\nb holds disk line 11 around tape line 12\norder tape disk\n",
        lines: b"{\"kind\":\"no order\"}\n{\"kind\":\"nest\",\"process\":\"order\",\"outer\":\"tape\",\"outer_line\":7,\"inner\":\"disk\",\"inner_line\":8}\n{\"kind\":\"nest\",\"process\":\"b\",\"outer\":\"disk\",\"outer_line\":11,\"inner\":\"tape\",\"inner_line\":12}\n{\"kind\":\"order\",\"text\":\"tape disk\"}\n",
    },
    Case {
        text: b"night of text 1 claim 1 tape lines 7\nday of text 2 claim 0 disk\nday of text 2 holds disk line 3 around tape line 4\ntext 2 refused N2 at 9\ntext 2 refused P2\ntext 3 refused N1 processes\n",
        lines: b"{\"kind\":\"claim\",\"process\":\"night\",\"of_text\":1,\"claim\":1,\"resource\":\"tape\",\"lines\":[7]}\n{\"kind\":\"claim\",\"process\":\"day\",\"of_text\":2,\"claim\":0,\"resource\":\"disk\"}\n{\"kind\":\"nest\",\"process\":\"day\",\"of_text\":2,\"outer\":\"disk\",\"outer_line\":3,\"inner\":\"tape\",\"inner_line\":4}\n{\"kind\":\"refused\",\"of_text\":2,\"code\":\"N2\",\"at\":9}\n{\"kind\":\"refused\",\"of_text\":2,\"code\":\"P2\"}\n{\"kind\":\"refused\",\"of_text\":3,\"code\":\"N1\",\"text\":\"processes\"}\n",
    },
];

/// What `record` and `explain` write.
const TEXTS: [Case; 1] = [Case {
    text: b"process p // \xff\x22\nbegin\n  ok\ndone\n%%\np.0 12\nq.1 3\n",
    lines: b"{\"kind\":\"source\",\"text\":\"process p // \\u00ff\\\"\"}\n{\"kind\":\"source\",\"text\":\"begin\"}\n{\"kind\":\"source\",\"text\":\"  ok\"}\n{\"kind\":\"source\",\"text\":\"done\"}\n{\"kind\":\"picks follow\"}\n{\"kind\":\"picks\",\"process\":\"p\",\"arm\":0,\"count\":12}\n{\"kind\":\"picks\",\"process\":\"q\",\"arm\":1,\"count\":3}\n",
}];

const PAGES: [Case; 1] = [Case {
    text: b"N3: a name that is not declared\ninput: the input is too long\nrange: an object has\nrefused N3 at 4\n",
    lines: b"{\"kind\":\"code\",\"code\":\"N3\",\"text\":\"a name that is not declared\"}\n{\"kind\":\"code\",\"code\":\"input\",\"text\":\"the input is too long\"}\n{\"kind\":\"line\",\"text\":\"range: an object has\"}\n{\"kind\":\"line\",\"text\":\"refused N3 at 4\"}\n",
}];

/// What `debug` writes.
const SESSIONS: [Case; 2] = [
    Case {
        text: b"at 3\nat 4 p.0 grant 1 tape\nat 5 p.0 print -2\nat 6 p end\nat 7 p.1 line 12\nat 8 p.1 line none\nno event\nx -5\n0 idle\n1 at 7\n2 ended\nfaulted\nmark 7\np.1 line 12 7 div 0\np.1 line none - -9\nno fault\np.1 line 12: reads x (-7)\np.0: ends the process\nstack\nstack 7 -3\n",
        lines: b"{\"kind\":\"at\",\"at\":3}\n{\"kind\":\"at\",\"event\":\"grant\",\"at\":4,\"process\":\"p\",\"arm\":0,\"amounts\":[{\"amount\":1,\"resource\":\"tape\"}]}\n{\"kind\":\"at\",\"event\":\"print\",\"at\":5,\"process\":\"p\",\"arm\":0,\"value\":-2}\n{\"kind\":\"at\",\"event\":\"end\",\"at\":6,\"process\":\"p\"}\n{\"kind\":\"wrote\",\"at\":7,\"process\":\"p\",\"arm\":1,\"line\":12}\n{\"kind\":\"wrote\",\"at\":8,\"process\":\"p\",\"arm\":1}\n{\"kind\":\"no event\"}\n{\"kind\":\"variable\",\"integer\":\"x\",\"value\":-5}\n{\"kind\":\"arm\",\"state\":\"idle\",\"arm\":0}\n{\"kind\":\"arm\",\"state\":\"at\",\"arm\":1,\"place\":7}\n{\"kind\":\"arm\",\"state\":\"ended\",\"arm\":2}\n{\"kind\":\"faulted\"}\n{\"kind\":\"mark\",\"number\":7}\n{\"kind\":\"faulted at\",\"process\":\"p\",\"arm\":1,\"line\":12,\"text\":\"7 div 0\"}\n{\"kind\":\"faulted at\",\"process\":\"p\",\"arm\":1,\"text\":\"- -9\"}\n{\"kind\":\"no fault\"}\n{\"kind\":\"does\",\"process\":\"p\",\"arm\":1,\"line\":12,\"text\":\"reads x (-7)\"}\n{\"kind\":\"does\",\"process\":\"p\",\"arm\":0,\"text\":\"ends the process\"}\n{\"kind\":\"stack\",\"text\":\"\"}\n{\"kind\":\"stack\",\"text\":\"7 -3\"}\n",
    },
    Case {
        text: b"p holds 1 tape claim 2\ncash 0 tape\np.0 asks 1 tape\np.0 waits tape holder q\nline 4\nline none\n4|   x := \x7f;\norder p q\nrest q\nrefused G3\nrefused N3 at 4\n",
        lines: b"{\"kind\":\"loan\",\"process\":\"p\",\"amount\":1,\"resource\":\"tape\",\"claim\":2}\n{\"kind\":\"cash\",\"amount\":0,\"resource\":\"tape\"}\n{\"kind\":\"asks\",\"process\":\"p\",\"arm\":0,\"amounts\":[{\"amount\":1,\"resource\":\"tape\"}]}\n{\"kind\":\"waits for\",\"process\":\"p\",\"arm\":0,\"resource\":\"tape\",\"holder\":\"q\"}\n{\"kind\":\"source line\",\"line\":4}\n{\"kind\":\"source line\"}\n{\"kind\":\"source\",\"line\":4,\"text\":\"  x := \\u007f;\"}\n{\"kind\":\"order\",\"text\":\"p q\"}\n{\"kind\":\"rest\",\"text\":\"q\"}\n{\"kind\":\"refused\",\"code\":\"G3\"}\n{\"kind\":\"refused\",\"code\":\"N3\",\"at\":4}\n",
    },
];

/// What `bank` writes.
const BANKS: [Case; 1] = [Case {
    text: b"granted 1-a.b 10 tape, 0 2.-\ngranted a 01 tape\ngranted a 1 tape,2 disk\nheld a 0 tape\nover claim tape-1\nwait cash tape 3\nwait rest a b\nclaimed a\norder\norder a b\nlacks a tape\nresource tape capital 4 cash 3\njob a tape claim 3 holds 1 needs 2\nwish a 1 tape, 2 disk\nrefused B4 no such resource: tpae\nready\n",
    lines: b"{\"kind\":\"granted\",\"job\":\"1-a.b\",\"amounts\":[{\"amount\":10,\"resource\":\"tape\"},{\"amount\":0,\"resource\":\"2.-\"}]}\n{\"kind\":\"line\",\"text\":\"granted a 01 tape\"}\n{\"kind\":\"line\",\"text\":\"granted a 1 tape,2 disk\"}\n{\"kind\":\"held\",\"job\":\"a\",\"amounts\":[{\"amount\":0,\"resource\":\"tape\"}]}\n{\"kind\":\"over claim\",\"resource\":\"tape-1\"}\n{\"kind\":\"wait cash\",\"resource\":\"tape\",\"cash\":3}\n{\"kind\":\"wait rest\",\"text\":\"a b\"}\n{\"kind\":\"claimed\",\"text\":\"a\"}\n{\"kind\":\"order\",\"text\":\"\"}\n{\"kind\":\"order\",\"text\":\"a b\"}\n{\"kind\":\"lacks\",\"job\":\"a\",\"resource\":\"tape\"}\n{\"kind\":\"resource\",\"resource\":\"tape\",\"capital\":4,\"cash\":3}\n{\"kind\":\"job\",\"job\":\"a\",\"resource\":\"tape\",\"claim\":3,\"holds\":1,\"needs\":2}\n{\"kind\":\"wish\",\"job\":\"a\",\"amounts\":[{\"amount\":1,\"resource\":\"tape\"},{\"amount\":2,\"resource\":\"disk\"}]}\n{\"kind\":\"refused\",\"code\":\"B4\",\"text\":\"no such resource: tpae\"}\n{\"kind\":\"ready\"}\n",
}];

/// Returns whether the JSON lines of a case are made.
fn makes(alloc: Global, dialect: Dialect, case: &Case) -> bool {
    match json_lines(alloc, dialect, case.text) {
        Ok(lines) => lines.as_slice() == case.lines,
        Err(_) => false,
    }
}

#[test]
fn events_are_objects(rt: HostRuntime) {
    for case in &EVENTS {
        assert!(rt; makes(rt.alloc(), Dialect::Program, case));
    }
}

#[test]
fn claims_and_refusals_are_objects(rt: HostRuntime) {
    for case in &CLAIMS {
        assert!(rt; makes(rt.alloc(), Dialect::Program, case));
    }
}

#[test]
fn names_make_no_line_another_one(rt: HostRuntime) {
    for case in &NAMES {
        assert!(rt; makes(rt.alloc(), Dialect::Program, case));
    }
}

#[test]
fn an_outcome_is_one_object(rt: HostRuntime) {
    for case in &OUTCOMES {
        assert!(rt; makes(rt.alloc(), Dialect::Program, case));
    }
}

#[test]
fn circles_are_objects(rt: HostRuntime) {
    for case in &CIRCLES {
        assert!(rt; makes(rt.alloc(), Dialect::Program, case));
    }
}

#[test]
fn recorded_runs_are_objects(rt: HostRuntime) {
    for case in &TEXTS {
        assert!(rt; makes(rt.alloc(), Dialect::Record, case));
    }
}

#[test]
fn pages_are_objects(rt: HostRuntime) {
    for case in &PAGES {
        assert!(rt; makes(rt.alloc(), Dialect::Explain, case));
    }
}

#[test]
fn sessions_are_objects(rt: HostRuntime) {
    for case in &SESSIONS {
        assert!(rt; makes(rt.alloc(), Dialect::Debug, case));
    }
}

#[test]
fn banks_are_objects(rt: HostRuntime) {
    for case in &BANKS {
        assert!(rt; makes(rt.alloc(), Dialect::Bank, case));
    }
}
