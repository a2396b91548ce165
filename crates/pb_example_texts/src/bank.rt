//! The files of `examples/8-bank`. Written by checks/example_tests.py.

/// The file 8-bank/queue.bank.
#[rattlefmt::skip]
pub const QUEUE_COMMANDS: &[u8] = b"# A wish waits in the queue until it is allowed. A large one does not hold back the small ones behind it, so it waits for
# ever if there is always another small one.
resource tape 2
job large 2 tape
job a 1 tape
job b 1 tape
want a 1 tape
want large 2 tape
want b 1 tape
leave a
job c 1 tape
want c 1 tape
leave b
state
leave c
";

/// The file 8-bank/table.bank.
#[rattlefmt::skip]
pub const TABLE_COMMANDS: &[u8] = b"# Five jobs and three resources: the example of the banker's algorithm in Silberschatz, Galvin and Gagne,
# Operating System Concepts, with its three requests.
resource A 10
resource B 5
resource C 7
job P0 7 A, 5 B, 3 C
job P1 3 A, 2 B, 2 C
job P2 9 A, 0 B, 2 C
job P3 2 A, 2 B, 2 C
job P4 4 A, 3 B, 3 C
hold P0 1 B
hold P1 2 A
hold P2 3 A, 2 C
hold P3 2 A, 1 B, 1 C
hold P4 2 C
ask P1 1 A, 2 C
ask P4 3 A, 3 B
ask P0 2 B
why P0 1 B
leave P1
ask P0 2 B
";
