//! The refusals of texts by their bytes, tokens and grammar, and of what is too long.

use super::{Entry, Example, ExampleInput};

pub static L1: Entry = Entry {
    summary: "the text is too long",
    meaning: "A text has at most 65,536 bytes, blanks and comments included. Of a longer one
nothing else is looked at.",
    example: Some(Example {
        command: "check",
        input: ExampleInput::Repeated {
            line: "print 1;",
            times: 10_000,
        },
        answer: "refused L1",
    }),
    mend: "Shorten comments and blanks, write a loop in place of statements that are
repeated, or split the program.",
};

pub static L2: Entry = Entry {
    summary: "a byte that is not allowed",
    meaning: "A text may not have the byte at this offset (it may have 32 to 126, tab, line feed
and carriage return), or no token, blank or comment begins at it, as at `%`, `!`, a
lone `:` or a lone `/`. Offsets are counted in bytes, from 0.",
    example: Some(Example {
        command: "check",
        input: ExampleInput::Text(
            "process p begin print 7 % 2 end
",
        ),
        answer: "refused L2 at 24",
    }),
    mend: "Write `mod` for the remainder, `:=` to assign, `=` and `<>` to compare, and `//`
before a comment. Accented letters and long dashes are not allowed in a comment
either.",
};

pub static L3: Entry = Entry {
    summary: "a number that is too large",
    meaning: "A number of a text is at most 9223372036854775807, the greatest integer of 64
bits with a sign. The offset is that of its first digit.",
    example: Some(Example {
        command: "check",
        input: ExampleInput::Text(
            "process p begin print 9223372036854775808 end
",
        ),
        answer: "refused L3 at 22",
    }),
    mend: "Write a smaller number. The least integer is -9223372036854775807 - 1.",
};

pub static L4: Entry = Entry {
    summary: "a name that is too long",
    meaning: "A name has at most 32 bytes. The offset is that of its first byte.",
    example: Some(Example {
        command: "check",
        input: ExampleInput::Text(
            "process p
begin
  integer the_number_of_customers_that_are_served;
  skip
end
",
        ),
        answer: "refused L4 at 26",
    }),
    mend: "Shorten the name, at each of its uses too.",
};

pub static P1: Entry = Entry {
    summary: "the text is not a program",
    meaning: "The tokens do not follow the grammar. The offset is the start of the first token
that cannot be there after those before it; if the text only ends too early,
it is the end of the last token.",
    example: Some(Example {
        command: "check",
        input: ExampleInput::Text(
            "process p begin print 1; end
",
        ),
        answer: "refused P1 at 25",
    }),
    mend: "Look at this offset, and just before it. A semicolon comes between statements, and
not after the last one, as in the example; `fi`, `od`, `parend` or `end` may be
missing, or `=` may be written for `:=`. Integers are declared right after the
`begin` of their process, and resources before the first process. The grammar is
in docs/LANGUAGE.md.",
};

pub static P2: Entry = Entry {
    summary: "nested too deep",
    meaning: "More than 256 brackets are open at once, where `(`, `begin`, `if`, `while`, `hold`
and `parbegin` each open one; or more than 256 signs, `-` or `not`, follow one
another; or the tree of the program is more than 200 high. A number has height 1,
and an operator or a statement is one higher than its highest part.",
    example: Some(Example {
        command: "check",
        input: ExampleInput::Text(
            "process p begin print
------------------------------------------------------------------
------------------------------------------------------------------
------------------------------------------------------------------
------------------------------------------------------------------
1 end
",
        ),
        answer: "refused P2",
    }),
    mend: "Assign a part to an integer, and use the integer in its place. A sum of more than
200 terms is too high as well: add it up in several statements.",
};

pub static P3: Entry = Entry {
    summary: "too many nodes",
    meaning: "A program has at most 16,384 nodes, which are its expressions, statements and
processes.",
    example: Some(Example {
        command: "check",
        input: ExampleInput::Repeated {
            line: "print 1+1+1+1+1+1+1+1+1+1;",
            times: 900,
        },
        answer: "refused P3",
    }),
    mend: "Write a loop in place of statements that are repeated, or split the program.",
};

pub static INPUT: Entry = Entry {
    summary: "the input is too long",
    meaning: "An input has at most 4,194,304 bytes. With `debug --live` this is so of the text
and of the pick lines, each by itself.",
    example: Some(Example {
        command: "check",
        input: ExampleInput::Repeated {
            line: "print 1;",
            times: 500_000,
        },
        answer: "refused input",
    }),
    mend: "Check the texts of a long input in several calls. Of a long run record fewer
steps, by `--steps`.",
};

pub static OUTPUT: Entry = Entry {
    summary: "what `record` would write is too long",
    meaning: "A text with the pick lines of its run would be over 4,194,304 bytes, which
`replay` could not read.",
    example: Some(Example {
        command: "record --seed 1",
        input: ExampleInput::Text(
            "process the_first_of_two_processes begin while 1 do skip od end
process the_second_of_two_processes begin while 1 do skip od end
",
        ),
        answer: "refused output",
    }),
    mend: "Record fewer steps, by `--steps`. Shorter names of processes help too, since each
pick line has one.",
};
