//! The claims of texts.

use crate::calls::{Call, Case, Given, first_wrong};
use crate::texts::{HOLD_NEVER_MADE, HOLDS_IN_ARMS, HOLDS_IN_BRANCHES, TWO_RESOURCES};
use pb_command_io::Status;
use pb_example_texts::first::{CUSTOMERS, DEVICES};

/// Claims four of three.
const OVER: &[u8] = b"resource t = 3; process p begin hold 4 of t do skip od end";

/// Claims one of a resource that is not there.
const UNKNOWN: &[u8] = b"process p begin hold 1 of t do skip od end";

const CLAIMS: [Case; 6] = [
    (
        Call::Claims,
        Given::Text(HOLDS_IN_ARMS),
        Status::Done,
        b"p claim 4 t\n",
    ),
    (
        Call::Claims,
        Given::Text(HOLDS_IN_BRANCHES),
        Status::Done,
        b"p claim 3 t\n",
    ),
    (
        Call::Claims,
        Given::Text(HOLD_NEVER_MADE),
        Status::Done,
        b"p claim 3 t\n",
    ),
    (
        Call::Claims,
        Given::Text(TWO_RESOURCES),
        Status::Done,
        b"p claim 2 t\np claim 4 u\n",
    ),
    (
        Call::Claims,
        Given::Text(CUSTOMERS),
        Status::Done,
        b"a claim 8 florin\nb claim 6 florin\nc claim 4 florin\n",
    ),
    (
        Call::Claims,
        Given::Text(DEVICES),
        Status::Done,
        b"a claim 1 tape\na claim 1 disk\nb claim 1 tape\nb claim 1 disk\n",
    ),
];

#[test]
fn tells_claims(rt: HostRuntime) {
    assert!(rt; first_wrong(&rt, &CLAIMS) == None);
}

const WHATEVER_THE_CAPITAL: [Case; 2] = [
    (
        Call::Claims,
        Given::Text(OVER),
        Status::Done,
        b"p claim 4 t\n",
    ),
    (
        Call::Claims,
        Given::Text(UNKNOWN),
        Status::Refused,
        b"refused N3 at 26\n",
    ),
];

#[test]
fn looks_at_no_capital(rt: HostRuntime) {
    assert!(rt; first_wrong(&rt, &WHATEVER_THE_CAPITAL) == None);
}
