//! Whose forms the lines of a call have.

use pb_command_io::Status;
use pb_json_lines::{Dialect, dialect_of};

/// The words of a call, its status, and whose forms its lines have.
struct Call {
    words: &'static [&'static str],
    status: Status,
    dialect: Dialect,
}

const CALLS: [Call; 11] = [
    Call {
        words: &["parbegin", "plan"],
        status: Status::Done,
        dialect: Dialect::Program,
    },
    Call {
        words: &["parbegin", "debug", "--live"],
        status: Status::Done,
        dialect: Dialect::Debug,
    },
    Call {
        words: &["parbegin", "bank"],
        status: Status::Done,
        dialect: Dialect::Bank,
    },
    Call {
        words: &["parbegin", "explain", "N3"],
        status: Status::Done,
        dialect: Dialect::Explain,
    },
    Call {
        words: &["parbegin", "record", "--seed", "3"],
        status: Status::Deadlock,
        dialect: Dialect::Record,
    },
    Call {
        words: &["parbegin", "record"],
        status: Status::Refused,
        dialect: Dialect::Program,
    },
    Call {
        words: &["parbegin", "outcomes", "--run=2"],
        status: Status::Done,
        dialect: Dialect::Record,
    },
    Call {
        words: &["parbegin", "outcomes", "--deadlock", "1"],
        status: Status::Done,
        dialect: Dialect::Record,
    },
    Call {
        words: &["parbegin", "outcomes", "--run", "2", "--expect"],
        status: Status::Done,
        dialect: Dialect::Program,
    },
    Call {
        words: &["parbegin", "outcomes", "--endless", "--run", "2"],
        status: Status::Done,
        dialect: Dialect::Program,
    },
    Call {
        words: &["parbegin"],
        status: Status::Words,
        dialect: Dialect::Program,
    },
];

#[test]
fn the_forms_are_those_of_the_command(rt: HostRuntime) {
    for call in &CALLS {
        assert!(rt; dialect_of(call.words, call.status) == call.dialect);
    }
}
