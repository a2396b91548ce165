//! Long programs that are stepped on both sides.

/// Programs of a head, a piece again and again, and a tail: 64 arms, a long expression, many statements.
#[rattlefmt::skip]
pub(super) const LONG: [(&[u8], &[u8], usize, &[u8]); 3] = [
    (
        b"process p begin integer x; ",
        b"parbegin x:=x+1;skip;skip;skip;skip;skip;skip;skip;skip;skip;skip;skip;skip;skip;skip;print x parend; ",
        3,
        b"parbegin skip;skip;skip;skip;skip;skip;skip;skip;skip;skip;skip;skip;skip;skip;skip parend end",
    ),
    (b"process p begin print 1", b"+1", 198, b" end"),
    (b"process p begin ", b"print 1; ", 999, b"print 1 end"),
];

/// As many processes as a program may have.
pub(super) const PROCESSES: &[u8] =
    b"process p0 begin skip end process p1 begin skip end process p2 begin skip end process p3 begin skip end
process p4 begin skip end process p5 begin skip end process p6 begin skip end process p7 begin skip end
process p8 begin skip end process p9 begin skip end process p10 begin skip end process p11 begin skip end
process p12 begin skip end process p13 begin skip end process p14 begin skip end process p15 begin skip end
process p16 begin skip end process p17 begin skip end process p18 begin skip end process p19 begin skip end
process p20 begin skip end process p21 begin skip end process p22 begin skip end process p23 begin skip end
process p24 begin skip end process p25 begin skip end process p26 begin skip end process p27 begin skip end
process p28 begin skip end process p29 begin skip end process p30 begin skip end process p31 begin skip end
process p32 begin skip end process p33 begin skip end process p34 begin skip end process p35 begin skip end
process p36 begin skip end process p37 begin skip end process p38 begin skip end process p39 begin skip end
process p40 begin skip end process p41 begin skip end process p42 begin skip end process p43 begin skip end
process p44 begin skip end process p45 begin skip end process p46 begin skip end process p47 begin skip end
process p48 begin skip end process p49 begin skip end process p50 begin skip end process p51 begin skip end
process p52 begin skip end process p53 begin skip end process p54 begin skip end process p55 begin skip end
process p56 begin skip end process p57 begin skip end process p58 begin skip end process p59 begin skip end
process p60 begin skip end process p61 begin skip end process p62 begin skip end process p63 begin skip end";
