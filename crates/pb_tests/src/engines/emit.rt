//! The objects of texts.

use crate::calls::{Call, Case, Given, first_wrong};
use crate::objects::{FIRST, SECOND};
use crate::texts::SUM;
use pb_code::Format;
use pb_command_io::Status;
use pb_example_texts::first::TOGETHER;

const FORMATS: [Case; 2] = [
    (
        Call::Emit(Format::One),
        Given::Text(SUM),
        Status::Done,
        FIRST,
    ),
    (
        Call::Emit(Format::Two),
        Given::Text(SUM),
        Status::Done,
        SECOND,
    ),
];

#[test]
fn writes_both_formats(rt: HostRuntime) {
    assert!(rt; first_wrong(&rt, &FORMATS) == None);
}

/// Claims two of one.
const OVER: &[u8] =
    b"resource t = 1; resource d = 1; process a begin hold 2 of t, 1 of d do skip od end";

const REFUSED: [Case; 2] = [
    (
        Call::Emit(Format::One),
        Given::Text(TOGETHER),
        Status::Refused,
        b"refused E1\n",
    ),
    (
        Call::Emit(Format::One),
        Given::Text(OVER),
        Status::Refused,
        b"refused C1 a t claim 2 capital 1\n",
    ),
];

#[test]
fn refuses_texts(rt: HostRuntime) {
    assert!(rt; first_wrong(&rt, &REFUSED) == None);
}
