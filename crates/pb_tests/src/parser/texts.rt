//! Whole programs.

/// Programs of the grammar that are refused for their names, numbers or claims.
#[rattlefmt::skip]
pub(super) const REFUSED: [&[u8]; 5] = [
    b"resource t = 3; process p begin hold 1 of t do parbegin hold 1 of t do skip od; hold 2 of t do skip od parend od end",
    b"process p begin x := 1 end",
    b"process p begin integer x, x; skip end",
    b"resource t = 1; process p begin hold 0 of t do skip od end",
    b"resource t = 3; process p begin hold 1 of t, 2 of t do skip od end",
];

/// Programs of a head, a piece again and again, and a tail.
pub(super) const LONG: [(&[u8], &[u8], usize, &[u8]); 3] = [
    (
        b"process p begin parbegin ",
        b"skip;",
        16,
        b"skip parend end",
    ),
    (b"process p begin print 1", b"+1", 198, b" end"),
    (b"process p begin ", b"print 1; ", 999, b"print 1 end"),
];
