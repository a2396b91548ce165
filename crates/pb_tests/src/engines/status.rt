//! The numbers of statuses.

use pb_command_io::Status;

const NUMBERS: [(Status, u8); 10] = [
    (Status::Done, 0),
    (Status::Refused, 1),
    (Status::Words, 2),
    (Status::Limit, 3),
    (Status::Fault, 4),
    (Status::Memory, 5),
    (Status::Device, 6),
    (Status::Threads, 7),
    (Status::Deadlock, 9),
    (Status::Unexpected, 10),
];

#[test]
fn each_status_has_its_number(rt: HostRuntime) {
    for (status, number) in &NUMBERS {
        assert!(rt; status.number() == *number);
    }
}
