//! Sessions of the command `bank`, and what is said in them.

use pb_bank::{Desk, after_command, put_line_of, put_object_of};
use pb_bank_engine::bank_engine;
use pb_base::{MemoryInput, MemoryOutput, NoMemory};
use pb_command_io::Status;
use pb_voice::Form;
use std::alloc::Global;

/// Commands, and what is said of them.
pub struct Case {
    pub commands: &'static [u8],
    pub said: &'static [u8],
}

const CASES: [Case; 11] = [
    // The textbook's table, and its three requests.
    Case {
        commands: b"# five processes\nresource A 10\nresource B 5\nresource C 7\njob P0 7 A, 5 B, 3 C\njob P1 3 A,2 B , 2 C\njob P2 9 A, 0 B, 2 C\njob P3 2 A, 2 B, 2 C\njob P4 4 A, 3 B, 3 C\nhold P0 1 B\nhold P1 2 A\nhold P2 3 A, 2 C\nhold P3 2 A, 1 B, 1 C\nhold P4 2 C\n\nask P1 1 A, 0 B, 2 C\nask P4 3 A, 3 B, 0 C\nask P0 0 A, 2 B, 0 C\nwhy P0 2 B",
        said: b"ready\nready\nready\nready\nready\nready\nready\nready\nheld P0 1 B\nready\nheld P1 2 A\nready\nheld P2 3 A, 2 C\nready\nheld P3 2 A, 1 B, 1 C\nready\nheld P4 2 C\nready\ngranted P1 1 A, 0 B, 2 C\nready\nwait cash A 2\nready\nwait rest P0 P1 P2 P3 P4\nready\nwait rest P0 P1 P2 P3 P4\nready\n",
    },
    // Orders of the same jobs: those of textbooks, and others.
    Case {
        commands: b"resource A 10\nresource B 5\nresource C 7\norder\njob P0 7 A, 5 B, 3 C\njob P1 3 A, 2 B, 2 C\njob P2 9 A, 2 C\njob P3 2 A, 2 B, 2 C\njob P4 4 A, 3 B, 3 C\nhold P0 1 B\nhold P1 2 A\nhold P2 3 A, 2 C\nhold P3 2 A, 1 B, 1 C\nhold P4 2 C\norder\norder P1 P3 P4 P2 P0\norder P1 P3 P4 P0 P2\norder P1 P4 P2 P3 P0\norder P0 P1 P2 P3 P4\norder P1 P3 P1 P4 P2 P0\norder P1 P3 P4\norder P1 P5\nleave P1\norder\norder P3 P4 P2 P0\norder P1 P3 P4 P2 P0\n",
        said: b"ready\nready\nready\norder\nready\nready\nready\nready\nready\nready\nheld P0 1 B\nready\nheld P1 2 A\nready\nheld P2 3 A, 2 C\nready\nheld P3 2 A, 1 B, 1 C\nready\nheld P4 2 C\nready\norder P1 P3 P0 P2 P4\nready\nfinishes\nready\nfinishes\nready\nlacks P2 A\nready\nlacks P0 A\nready\ntwice P1\nready\nmissing P0\nready\nrefused B5 no such job: P5\nready\nready\norder P3 P0 P2 P4\nready\nfinishes\nready\nrefused B5 no such job: P1\nready\n",
    },
    // What comes back can be lent again, and a name that is free can be taken again.
    Case {
        commands: b"resource tape 3\njob a 3 tape\njob b 2 tape\nask a 2 tape\nask b 2 tape\ngive a 1 tape\nask b 2 tape\ngive a 2 tape\nask a 4 tape\nleave a\nask b 2 tape\njob a 1 tape\nstate\n",
        said: b"ready\nready\nready\ngranted a 2 tape\nready\nwait cash tape 1\nready\nready\ngranted b 2 tape\nready\nrefused B11 the job does not hold as much: tape\nready\nover claim tape\nready\nready\nover claim tape\nready\nready\nresource tape capital 3 cash 1\njob a tape claim 1 holds 0 needs 1\njob b tape claim 2 holds 2 needs 0\nready\n",
    },
    // The queue: a large wish does not hold back those after it, and each is served when its turn comes.
    Case {
        commands: b"resource tape 4\njob a 4 tape\njob b 4 tape\njob c 2 tape\njob d 1 tape\nwant a 3 tape\nwant b 3 tape\nwant c 2 tape\nwant d 2 tape\nask b 1 tape\nwant b 1 tape\nhold c 1 tape\ndrop d\ndrop e\ndrop\ndrop b c\nstate\ngive a 1 tape\njob e 4 tape\ngive c 2 tape\nleave a\nwant c 2 tape\nwant d 1 tape\nleave c\nleave b\njob c 2 tape\nask c 2 tape\nwant e 4 tape\ndrop e\ndrop e\n",
        said: b"ready\nready\nready\nready\nready\ngranted a 3 tape\nready\nqueued\nready\nqueued\nready\nover claim tape\nready\nrefused B12 the job has a wish in the queue: b\nready\nrefused B12 the job has a wish in the queue: b\nready\nrefused B12 the job has a wish in the queue: c\nready\nrefused B13 the job has no wish in the queue: d\nready\nrefused B5 no such job: e\nready\nrefused B1 not a command\nready\nrefused B1 not a command\nready\nresource tape capital 4 cash 1\njob a tape claim 4 holds 3 needs 1\njob b tape claim 4 holds 0 needs 4\njob c tape claim 2 holds 0 needs 2\njob d tape claim 1 holds 0 needs 1\nwish b 3 tape\nwish c 2 tape\nready\ngranted c 2 tape\nready\nready\nready\ngranted b 3 tape\nready\nqueued\nready\ngranted d 1 tape\nready\nready\nready\nready\ngranted c 2 tape\nready\nqueued\nready\nready\nrefused B13 the job has no wish in the queue: e\nready\n",
    },
    Case {
        commands: b"resource tape 2\nresource disk 2\njob a 2 tape, 2 disk\njob b 1 tape, 1 disk\njob c 1 tape\njob d 2 tape\nask a 2 tape, 2 disk\nwant b 1 disk, 1 tape\nwant d 2 tape\nwant c 1 tape\nleave a\nleave b\nleave c\nleave d\n",
        said: b"ready\nready\nready\nready\nready\nready\ngranted a 2 tape, 2 disk\nready\nqueued\nready\nqueued\nready\nqueued\nready\ngranted b 1 disk, 1 tape\ngranted c 1 tape\nready\nready\ngranted d 2 tape\nready\nready\n",
    },
    // More capital serves the queue; less is allowed within the claims, the loans and what is safe.
    Case {
        commands: b"resource tape 4\nresource disk 1\njob a 3 tape\njob b 4 tape\nask a 2 tape\nwant b 3 tape\ncapital tape 5\ncapital tape 6\nstate\ncapital tape 3\ncapital tape 2\ncapital tape 4\ncapital tape 5\ncapital tape 6\ncapital disk 0\nask a 1 disk\ncapital floppy 1\ncapital tape\ncapital tape two\ncapital tape 1000001\ncapital tape 1 disk\ncapital\ngive b 1 tape\ncapital tape 5\nwant b 1 tape\ngive a 2 tape\nstate\n",
        said: b"ready\nready\nready\nready\ngranted a 2 tape\nready\nqueued\nready\nready\ngranted b 3 tape\nready\nresource tape capital 6 cash 1\nresource disk capital 1 cash 1\njob a tape claim 3 holds 2 needs 1\njob a disk claim 0 holds 0 needs 0\njob b tape claim 4 holds 3 needs 1\njob b disk claim 0 holds 0 needs 0\nready\nclaimed b\nready\nclaimed a b\nready\nwait cash tape 1\nready\nwait rest a b\nready\nready\nready\nover claim disk\nready\nrefused B4 no such resource: floppy\nready\nrefused B1 not a command\nready\nrefused B2 an amount is not in 0..=1000000: two\nready\nrefused B2 an amount is not in 0..=1000000: 1000001\nready\nrefused B1 not a command\nready\nrefused B1 not a command\nready\nready\nready\nqueued\nready\ngranted b 1 tape\nready\nresource tape capital 5 cash 2\nresource disk capital 0 cash 0\njob a tape claim 3 holds 0 needs 3\njob a disk claim 0 holds 0 needs 0\njob b tape claim 4 holds 3 needs 1\njob b disk claim 0 holds 0 needs 0\nready\n",
    },
    // Claims that change: a smaller one serves the queue, a larger one is granted if the state with it is safe.
    Case {
        commands: b"resource tape 4\nresource disk 1\njob a 2 tape\njob b 4 tape, 1 disk\nask a 1 tape\nask b 2 tape\nclaim a 3 tape\nclaim a 1 tape\nclaim a 0 tape\nclaim a 5 tape\nclaim b 3 tape\nclaim a 3 tape\nclaim a 1 disk\nstate\nwant b 1 tape\nwant a 2 tape\nclaim a 2 tape\nclaim b 4 tape\nclaim b 0 disk\nclaim a 4 tape\nclaim a 3 tape\ngive b 3 tape\nask b 1 tape\nclaim b 1 tape\nclaim b 2 tape\nclaim\nclaim a\nclaim c 1 tape\nclaim a 1 tape, 1 disk\nclaim a one tape\nclaim a 1 floppy\nclaim a 1 tape disk\nstate\nleave a\nleave b\njob a 3 tape\njob b 3 tape\nask a 1 tape\nask b 1 tape\ncapital tape 3\nwant b 1 tape\nwant a 1 tape\nclaim b 1 tape\nclaim a 2 tape\nleave a\nstate\n",
        said: b"ready\nready\nready\nready\ngranted a 1 tape\nready\ngranted b 2 tape\nready\nwait rest a b\nready\nready\nrefused B14 the job holds or waits for more: tape\nready\nrefused B10 a claim is over the capital: tape\nready\nready\nready\nready\nresource tape capital 4 cash 1\nresource disk capital 1 cash 1\njob a tape claim 3 holds 1 needs 2\njob a disk claim 1 holds 0 needs 1\njob b tape claim 3 holds 2 needs 1\njob b disk claim 1 holds 0 needs 1\nready\ngranted b 1 tape\nready\nqueued\nready\nrefused B14 the job holds or waits for more: tape\nready\nwait rest a b\nready\nready\nready\nready\ngranted a 2 tape\nready\ngranted b 1 tape\nready\nready\nready\nrefused B1 not a command\nready\nrefused B1 not a command\nready\nrefused B5 no such job: c\nready\nrefused B1 not a command\nready\nrefused B2 an amount is not in 0..=1000000: one\nready\nrefused B4 no such resource: floppy\nready\nrefused B1 not a command: a comma is missing before disk\nready\nresource tape capital 4 cash 0\nresource disk capital 1 cash 1\njob a tape claim 3 holds 3 needs 0\njob a disk claim 1 holds 0 needs 1\njob b tape claim 2 holds 1 needs 1\njob b disk claim 0 holds 0 needs 0\nready\nready\nready\nready\nready\ngranted a 1 tape\nready\ngranted b 1 tape\nready\nwait rest a b\nready\ngranted b 1 tape\nready\nqueued\nready\nrefused B14 the job holds or waits for more: tape\nready\ngranted a 1 tape\nready\nready\nresource tape capital 4 cash 2\nresource disk capital 1 cash 1\njob b tape claim 3 holds 2 needs 1\njob b disk claim 0 holds 0 needs 0\nready\n",
    },
    // Refusals.
    Case {
        commands: b"lend\nresource r 1000001\nresource r/s 1\nresource r 2\nresource r 2\njob p 3 r\njob p 1 r, 1 r\njob p 1 s\njob p 2 r\njob p 2 r\nresource s 1\nask q 1 r\nask p one r\nask p 1\nask p 1 r 1 r\nleave p p\nstate now\nleave q\n",
        said: b"refused B1 not a command\nready\nrefused B2 an amount is not in 0..=1000000: 1000001\nready\nrefused B3 not a name of 1 to 32 bytes\nready\nready\nrefused B7 the name is taken: r\nready\nrefused B10 a claim is over the capital: r\nready\nrefused B6 a resource is named twice: r\nready\nrefused B4 no such resource: s\nready\nready\nrefused B7 the name is taken: p\nready\nrefused B8 a job was there before the resource\nready\nrefused B5 no such job: q\nready\nrefused B2 an amount is not in 0..=1000000: one\nready\nrefused B1 not a command\nready\nrefused B1 not a command: a comma is missing before 1\nready\nrefused B1 not a command\nready\nrefused B1 not a command\nready\nrefused B5 no such job: q\nready\n",
    },
    // Names in refusals: of words that are none, as they are shown, and where a comma is missing.
    Case {
        commands: b"resource tape 2\nresource disk 1\njob a 2 tape, 1 disk\nask a 1 tape 1 disk\nask a 1 tape, 1 disk 1 tape\nask a 1 tape and\nask a 1 tape,\nask a 1 tape, 1\nask a 1 tape, 1 floppy\nwant a 1 \x1b\xc3\xa4\nask a 2 tape, 1 disk\ngive a 1 disk, 3 tape\njob b 3 disk, 3 tape\norder a c\norder a a c\ndrop\tz\nleave z\nresource r",
        said: b"ready\nready\nready\nrefused B1 not a command: a comma is missing before 1\nready\nrefused B1 not a command: a comma is missing before 1\nready\nrefused B1 not a command: a comma is missing before and\nready\nrefused B1 not a command\nready\nrefused B1 not a command\nready\nrefused B4 no such resource: floppy\nready\nrefused B4 no such resource: ???\nready\ngranted a 2 tape, 1 disk\nready\nrefused B11 the job does not hold as much: tape\nready\nrefused B10 a claim is over the capital: tape\nready\nrefused B5 no such job: c\nready\nrefused B5 no such job: c\nready\nrefused B5 no such job: z\nready\nrefused B5 no such job: z\nready\nrefused B1 not a command\nready\n",
    },
    // Of several faults of an order the first along it is told.
    Case {
        commands: b"resource r 2\njob a 2 r\njob b 2 r\njob c 2 r\nhold a 1 r\norder b b\norder a a\norder a b b\norder a b\norder b a c\n",
        said: b"ready\nready\nready\nready\nheld a 1 r\nready\nlacks b r\nready\ntwice a\nready\ntwice b\nready\nmissing c\nready\nlacks b r\nready\n",
    },
    Case {
        commands: b"help\n",
        said: b"resource R K\njob J K R, ..\nask J K R, ..\nwant J K R, ..\ndrop J\ngive J K R, ..\nleave J\ncapital R K\nclaim J K R\nwhy J K R, ..\nhold J K R, ..\norder\norder J ..\nstate\nhelp\nready\n",
    },
];

/// Returns what is said of commands in a form, and the status.
pub fn said_of(
    alloc: Global,
    form: Form,
    commands: &[u8],
    room: usize,
) -> Option<(MemoryOutput, Status)> {
    let mut output = MemoryOutput::new(alloc, room).ok()?;
    let status = bank_engine(alloc, form, &mut MemoryInput::new(commands), &mut output);
    Some((output, status))
}

#[test]
fn sessions_are_answered(rt: HostRuntime) {
    for case in &CASES {
        let Some((output, status)) = said_of(rt.alloc(), Form::Lines, case.commands, 4_096) else {
            panic!(rt; "out of memory");
        };
        assert!(rt; status == Status::Done);
        assert!(rt; output.as_slice() == case.said);
    }
}

#[test]
fn a_failed_write_leaves_a_first_part(rt: HostRuntime) {
    for case in &CASES {
        let Some((output, status)) = said_of(rt.alloc(), Form::Lines, case.commands, 10) else {
            panic!(rt; "out of memory");
        };
        assert!(rt; status == Status::Device || case.said.len() <= 10);
        assert!(rt; case.said.starts_with(output.as_slice()));
    }
}

/// Returns a line of this many equal bytes between two texts.
fn line_of(
    alloc: Global,
    first: &[u8],
    byte: u8,
    count: usize,
    last: &[u8],
) -> Result<Vec<u8>, NoMemory> {
    let mut line = first.to_vec(alloc)?;
    for _ in 0..count {
        line.push(byte)?;
    }
    line.extend_from_slice(last)?;
    Ok(line)
}

#[test]
fn lines_may_be_long(rt: HostRuntime) -> Result<(), NoMemory> {
    let alloc = rt.alloc();
    for (first, byte, count, last, said) in &[
        // Comments and empty lines of any length, also after blanks.
        (
            b"# ".as_slice(),
            b'x',
            9_000,
            b"\n".as_slice(),
            b"".as_slice(),
        ),
        (b"  ", b' ', 9_000, b"\r\n", b""),
        (b"", b' ', 9_000, b"# state\n", b""),
        (b"", b'\t', 9_000, b"", b""),
        // A command begins at its first byte that is no blank.
        (b"", b' ', 9_000, b"order\n", b"order\nready\n"),
        (b"order", b' ', 4_091, b"\n", b"order\nready\n"),
        (
            b"order",
            b' ',
            4_092,
            b"\n",
            b"refused B1 not a command\nready\n",
        ),
        (
            b"",
            b'x',
            9_000,
            b"\n",
            b"refused B1 not a command\nready\n",
        ),
    ] {
        let commands = line_of(alloc, *first, *byte, *count, *last)?;
        let Some((output, _)) = said_of(alloc, Form::Lines, commands.as_slice(), 64) else {
            panic!(rt; "out of memory");
        };
        assert!(rt; output.as_slice() == *said);
    }
    Ok(())
}

#[test]
fn things_are_told(rt: HostRuntime) -> Result<(), NoMemory> {
    let alloc = rt.alloc();
    let mut desk = Desk::new(alloc)?;
    let mut said = Vec::new(alloc);
    desk.answer(&mut said, b" order p")?;
    let mut line = Vec::new(alloc);
    let mut object = Vec::new(alloc);
    let words = after_command(b" order p");
    for one in &said {
        put_line_of(&mut line, desk.names(), words, one)?;
        put_object_of(alloc, &mut object, desk.names(), words, one)?;
    }
    assert!(rt; line.as_slice() == b"refused B5 no such job: p\nready\n".as_slice());
    assert!(rt;
        object.as_slice()
            == b"{\"kind\":\"refused\",\"code\":\"B5\",\"text\":\"no such job: p\"}\n{\"kind\":\"ready\"}\n".as_slice()
    );
    Ok(())
}

#[test]
fn wishes_are_counted(rt: HostRuntime) -> Result<(), NoMemory> {
    let mut desk = Desk::new(rt.alloc())?;
    let mut said = Vec::new(rt.alloc());
    for command in &[
        "resource r 1",
        "job p 1 r",
        "job q 1 r",
        "ask p 1 r",
        "want q 1 r",
    ] {
        desk.answer(&mut said, command.as_bytes())?;
    }
    assert!(rt; desk.waiting() == 1);
    desk.answer(&mut said, b"leave p")?;
    assert!(rt; desk.waiting() == 0);
    Ok(())
}
