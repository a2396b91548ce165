//! Programs of examples/.

use pb_example_texts::first;

/// Each with how many events each of its runs to the end has.
pub const EXAMPLES: [(&[u8], usize); 9] = [
    (first::CLOCK, 4),
    (first::CUSTOMERS, 17),
    (first::DEVICES, 12),
    (first::EDGES, 6),
    (first::HELLO, 2),
    (first::LOST, 2),
    (first::PHILOSOPHERS, 33),
    (first::ROUNDS, 7),
    (first::TOGETHER, 8),
];
