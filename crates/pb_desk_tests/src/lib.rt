//! Tests of a served bank: lines of journals, and what is told of them.
#![tactic(auto)]

use pb_base::NoMemory;
use pb_base::writing::{put, put_line, put_number};
use pb_desk::{Message, Service, Told, entry_in};
use std::alloc::Global;

/// Lines of a journal, and what is told of each: `a` or `n`, the session and the number, and then the text.
struct Case {
    lines: &'static [&'static str],
    told: &'static [u8],
}

const CASES: [Case; 5] = [
    // A wish is granted when its amount comes back, and its session is told so.
    Case {
        lines: &[
            "A resource tape 1",
            "O 1 one 30",
            "O 2 two 60",
            "C 1 1 job a 1 tape",
            "C 2 1 job b 1 tape",
            "C 1 2 ask a 1 tape",
            "C 2 2 want b 1 tape",
            "C 1 3 give a 1 tape",
            "C 2 3 state",
        ],
        told: b"a 0 0\nready\na 1 0\nsession 1 one 30\nready\na 2 0\nsession 2 two 60\nready\na 1 1\nready\na 2 1\nready\na 1 2\ngranted a 1 tape\nready\na 2 2\nqueued\nready\na 1 3\ngranted b 1 tape\nready\nn 2 1\ngranted b 1 tape\na 2 3\nresource tape capital 1 cash 0\njob a tape claim 1 holds 0 needs 1\njob b tape claim 1 holds 1 needs 0\nready\n",
    },
    // A request with a number is carried out once; one with the number 0 each time.
    Case {
        lines: &[
            "A resource tape 2",
            "O 1 one 30",
            "C 1 0 job a 2 tape",
            "C 1 5 ask a 1 tape",
            "C 1 5 ask a 1 tape",
            "C 1 5 give a 1 tape",
            "C 1 4 ask a 1 tape",
            "C 1 0 ask a 1 tape",
            "C 1 0 ask a 1 tape",
        ],
        told: b"a 0 0\nready\na 1 0\nsession 1 one 30\nready\na 1 0\nready\na 1 5\ngranted a 1 tape\nready\na 1 5\ngranted a 1 tape\nready\na 1 5\ngranted a 1 tape\nready\na 1 4\nrefused S6 the answer to this request is no longer kept\nready\na 1 0\ngranted a 1 tape\nready\na 1 0\nover claim tape\nready\n",
    },
    // Jobs of others, what operators may, and names of the server's.
    Case {
        lines: &[
            "A resource tape 1",
            "O 1 one 30",
            "O 2 two 30",
            "C 1 1 job a 1 tape",
            "C 2 1  ask\ta 1 tape",
            "C 2 2 leave a",
            "C 2 3 job a 1 tape",
            "C 2 4 capital tape 2",
            "P 2 5 capital tape 2",
            "C 2 6 resource disk 1",
            "C 2 7 job -hole-0 1 tape",
            "C 2 8 job -hole 1 tape",
            "C 3 1 state",
        ],
        told: b"a 0 0\nready\na 1 0\nsession 1 one 30\nready\na 2 0\nsession 2 two 30\nready\na 1 1\nready\na 2 1\nrefused S3 the job belongs to another session\nready\na 2 2\nrefused S3 the job belongs to another session\nready\na 2 3\nrefused B7 the name is taken: a\nready\na 2 4\nrefused S4 only an operator changes the capital, and resources are declared at the first start\nready\na 2 5\nready\na 2 6\nrefused S4 only an operator changes the capital, and resources are declared at the first start\nready\na 2 7\nrefused S11 names that begin with -hole- are the server's\nready\na 2 8\nready\na 3 1\nrefused S5 no such session, or not its key\nready\n",
    },
    // The end of a session: its jobs leave, a wish of another one is granted, and its number comes never again.
    Case {
        lines: &[
            "A resource tape 2",
            "O 3 one 30",
            "O 7 two 30",
            "C 3 1 job a 2 tape",
            "C 3 2 job b 2 tape",
            "C 7 1 job c 2 tape",
            "C 3 3 ask a 2 tape",
            "C 3 4 want b 1 tape",
            "C 7 2 want c 2 tape",
            "E 3",
            "E 3",
            "C 3 5 state",
            "O 3 one 30",
            "O 8 three 1",
            "C 8 1 job a 1 tape",
            "C 8 2 order",
        ],
        told: b"a 0 0\nready\na 3 0\nsession 3 one 30\nready\na 7 0\nsession 7 two 30\nready\na 3 1\nready\na 3 2\nready\na 7 1\nready\na 3 3\ngranted a 2 tape\nready\na 3 4\nqueued\nready\na 7 2\nqueued\nready\na 3 0\nready\nn 7 1\ngranted c 2 tape\na 3 0\nrefused S5 no such session, or not its key\nready\na 3 5\nrefused S5 no such session, or not its key\nready\na 3 0\nrefused S5 no such session, or not its key\nready\na 8 0\nsession 8 three 1\nready\na 8 1\nready\na 8 2\norder c a\nready\n",
    },
    // Lines that spell no entry do nothing; and only resources are declared.
    Case {
        lines: &[
            "",
            "X 1",
            "C 1",
            "C 01 1 state",
            "O 1 one",
            "O 1 one 30 40",
            "E one",
            "E 1000000000000000000",
            "A job a 1 tape",
            "D 256 0123456789abcdef",
        ],
        told: b"a 0 0\nrefused S4 only an operator changes the capital, and resources are declared at the first start\nready\n",
    },
];

/// Appends a message to `out`.
fn put_message(out: &mut Vec<u8>, kind: &[u8], message: &Message) -> Result<(), NoMemory> {
    put_number(out, kind, message.session)?;
    put_number(out, b" ", message.number)?;
    put_line(out, b"")?;
    put(out, &message.text)
}

/// Appends what is told to `out`.
fn put_told(out: &mut Vec<u8>, all: &[Told]) -> Result<(), NoMemory> {
    for told in all {
        match told {
            Told::Answer(message) => put_message(out, b"a ", message)?,
            Told::Notice(message) => put_message(out, b"n ", message)?,
        }
    }
    Ok(())
}

/// Returns what is told of the lines of a journal.
fn told_of(alloc: Global, lines: &[&str]) -> Result<Vec<u8>, NoMemory> {
    let mut service = Service::new(alloc)?;
    let mut all = Vec::new(alloc);
    for line in lines {
        service.apply(&mut all, line.as_bytes())?;
    }
    let mut out = Vec::new(alloc);
    put_told(&mut out, &all)?;
    Ok(out)
}

#[test]
fn journals_are_told(rt: HostRuntime) -> Result<(), NoMemory> {
    for case in &CASES {
        let told = told_of(rt.alloc(), case.lines)?;
        assert!(rt; told.as_slice() == case.told);
    }
    Ok(())
}

#[test]
fn a_session_is_served(rt: HostRuntime) -> Result<(), NoMemory> {
    let alloc = rt.alloc();
    let mut service = Service::new(alloc)?;
    let mut all = Vec::new(alloc);
    service.declare(&mut all, b"resource tape 1")?;
    service.begin(&mut all, 1, b"key".to_vec(alloc)?, 30)?;
    service.command(&mut all, 1, 1, false, b"job a 1 tape")?;
    service.end(&mut all, 1)?;
    let mut out = Vec::new(alloc);
    put_told(&mut out, &all)?;
    assert!(rt;
        out.as_slice()
            == b"a 0 0\nready\na 1 0\nsession 1 key 30\nready\na 1 1\nready\na 1 0\nready\n".as_slice()
    );
    assert!(rt; entry_in(b"E 1").is_some());
    assert!(rt; entry_in(b"E").is_none());
    Ok(())
}
