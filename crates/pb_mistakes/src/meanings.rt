//! Words of other languages, with what is written here in their place.

/// Words of other languages that mean one thing, and how that is written here.
#[derive(Clone, Copy)]
pub struct Meaning {
    /// The words, in small letters, with blanks between them.
    words: &'static str,
    /// How what they mean is written.
    pub hint: &'static str,
    /// The word that stands in the place of each of them; nothing if there is no such one.
    pub instead: &'static str,
}

/// The words with which other languages read their input.
const INPUT: &str =
    "read readln input scanf scan cin readline gets getchar nextint getline stdin raw_input get";

/// What is written in the place of these.
const INPUT_HINT: &str = "a program reads no input: assign a number, as in x := 5";

/// The words that bring in what is written elsewhere, or a thing that is used for some statements.
const USES: &str = "use uses using with";

/// The words that ask for a thing or give it back.
const ASKS: &str =
    "semaphore mutex lock unlock monitor wait signal acquire release request sem p v synchronized region critical atomic notify notifyall notify_all condition barrier down up enter leave section lockacquire trylock sem_t sem_wait sem_post sem_init pthread_mutex_lock pthread_mutex_unlock pthread_mutex_t claim grab free take give borrow lend loan reserve allocate deallocate occupy obtain seize need needs protect protected guard giveback give_back putback put_back reentrantlock semaphores mutexes";

/// What is written in the place of these.
pub const ASKS_HINT: &str =
    "write resource s = 1; before the first process, and hold 1 of s do .. od where it is needed: od gives it back";

/// The words of each meaning.
const MEANINGS: [Meaning; 42] = [
    Meaning {
        words: "endif",
        hint: "an if ends with fi",
        instead: "fi",
    },
    Meaning {
        words: "endwhile enddo done wend endfor endloop endhold",
        hint: "a while or a hold ends with od",
        instead: "od",
    },
    Meaning {
        words: "coend endpar parallel_end endcobegin",
        hint: "arms that run side by side are written parbegin a; b parend",
        instead: "parend",
    },
    Meaning {
        words: "cobegin parallel_begin",
        hint: "arms that run side by side are written parbegin a; b parend",
        instead: "parbegin",
    },
    Meaning {
        words: "endprocess endproc endprogram endtask endmodule",
        hint: "a process ends with end alone",
        instead: "",
    },
    Meaning {
        words: "elif elsif elseif elsf",
        hint: "write else if, with a fi of its own for the second if",
        instead: "",
    },
    Meaning {
        words: "int var let bool boolean float real char string long double short unsigned signed byte number auto dim local global shared declare integer32 uint mut ref i8 i16 i32 i64 u8 u16 u32 u64 usize isize int8 int16 int32 int64 uint8 uint16 uint32 uint64 float32 float64 size_t natural cardinal str num numeric decimal word bit",
        hint: "the integers of a process are declared after its first begin: integer x, y;",
        instead: "",
    },
    Meaning {
        words: "const constant final static define enum type typedef record struct array object list union volatile register sizeof dict tuple vector map sub_type subtype",
        hint: "there are only integers, which a process declares after its first begin: integer n; and assigns: n := 5",
        instead: "",
    },
    Meaning {
        words: INPUT,
        hint: INPUT_HINT,
        instead: "",
    },
    Meaning {
        words: "write writeln printf println echo cout puts output disp display show put fprintf log system console print_int put_line sysout printn fmt",
        hint: "a number is printed by print: print x",
        instead: "print",
    },
    Meaning {
        words: "par fork spawn thread threads pardo parallel concurrent concurrently concurrency doall forall async go goroutine goroutines together simultaneously multithread worker workers seq",
        hint: "arms that run side by side are written parbegin a; b parend",
        instead: "",
    },
    Meaning {
        words: "forever infinite always",
        hint: "a loop with no end is written while 1 do print 1 od",
        instead: "",
    },
    Meaning {
        words: "for repeat until loop foreach times downto step range endless",
        hint: "the only loop is while: while i < 10 do i := i + 1 od",
        instead: "",
    },
    Meaning {
        words: "return break continue exit goto stop halt quit label terminate abort jump",
        hint: "an arm goes on to the end of its statements: use if, and the test of a while",
        instead: "",
    },
    Meaning {
        words: "case switch select when unless match choose otherwise default alt",
        hint: "a choice is written if x = 1 then print 1 else print 2 fi",
        instead: "",
    },
    Meaning {
        words: "program procedure function def main void class module task proc func fn method sub subroutine begin_process public private protected interface package lambda algorithm actor fun impl trait constructor override virtual abstract extends implements inline",
        hint: "a program is made of processes: process p begin print 1 end",
        instead: "",
    },
    Meaning {
        words: "import include require_once from namespace unit extern export",
        hint: "nothing is imported: a program is one text, of resources and processes",
        instead: "",
    },
    Meaning {
        words: USES,
        hint: "nothing is imported: a program is one text, of resources and processes",
        instead: "",
    },
    Meaning {
        words: ASKS,
        hint: ASKS_HINT,
        instead: "",
    },
    Meaning {
        words: "start run launch create init pthread_create resume execute exec invoke activate",
        hint: "nothing is started: all processes run from the beginning, side by side, and parbegin a; b parend runs its arms",
        instead: "",
    },
    Meaning {
        words: "join waitall wait_all sync pthread_join",
        hint: "nothing is joined: parend waits for the arms of its parbegin",
        instead: "",
    },
    Meaning {
        words: "call perform gosub",
        hint: "there are no procedures: write the statements where they are to run",
        instead: "",
    },
    Meaning {
        words: "defer finalize",
        hint: "nothing is put off: write the statement where it is to run; od gives back what a hold has taken",
        instead: "",
    },
    Meaning {
        words: "send receive recv emit broadcast message channel publish subscribe post reply accept chan entry rendezvous",
        hint: "processes send nothing to each other: they meet in resources alone, and the arms of one process share its integers",
        instead: "",
    },
    Meaning {
        words: "await waituntil wait_until waitfor",
        hint: "to wait for a value of another arm is a loop: while x <> 0 do skip od; to wait for a resource is hold 1 of s do .. od",
        instead: "",
    },
    Meaning {
        words: "sleep delay usleep pause yield suspend idle timeout nanosleep timer relax",
        hint: "there is no time, and nothing to yield: leave it out, as any arm may make the next step",
        instead: "",
    },
    Meaning {
        words: "pass nop noop null nothing none nil",
        hint: "the statement that does nothing is skip",
        instead: "skip",
    },
    Meaning {
        words: "try catch except finally throw raise throws rescue",
        hint: "there are no exceptions: a fault, as of a division by zero, ends its process",
        instead: "",
    },
    Meaning {
        words: "assert assume require ensure requires ensures invariant check",
        hint: "there is no assertion: print what must hold, print x = 1, which prints 1 if it holds",
        instead: "",
    },
    Meaning {
        words: "set assign store move mov",
        hint: "an assignment is written x := 1",
        instead: "",
    },
    Meaning {
        words: "inc dec incr decr increment decrement add subtract",
        hint: "an integer is changed by an assignment: x := x + 1",
        instead: "",
    },
    Meaning {
        words: "random rand randint max min abs sqrt pow len new malloc delete length",
        hint: "there are no functions: an expression has integers, numbers and operators",
        instead: "",
    },
    Meaning {
        words: "is equals equal eq",
        hint: "equal is written a = b",
        instead: "=",
    },
    Meaning {
        words: "ne neq isnt",
        hint: "not equal is written a <> b",
        instead: "<>",
    },
    Meaning {
        words: "lt",
        hint: "less is written a < b",
        instead: "<",
    },
    Meaning {
        words: "gt",
        hint: "greater is written a > b",
        instead: ">",
    },
    Meaning {
        words: "le",
        hint: "at most is written a <= b",
        instead: "<=",
    },
    Meaning {
        words: "ge",
        hint: "at least is written a >= b",
        instead: ">=",
    },
    Meaning {
        words: "xor nand nor shl shr in between than",
        hint: "the operators are + - * div mod = <> < <= > >= and or not",
        instead: "",
    },
    Meaning {
        words: "modulo remainder",
        hint: "a remainder is written a mod b",
        instead: "mod",
    },
    Meaning {
        words: "rem comment note todo",
        hint: "a comment begins with // and goes to the end of its line",
        instead: "",
    },
    Meaning {
        words: "del drop dispose undef",
        hint: "nothing is removed: an integer is there to the end of its process, and od gives back what a hold has taken",
        instead: "",
    },
];

/// The words that other languages write in the place of a value.
const VALUES: [Meaning; 6] = [
    Meaning {
        words: "true",
        hint: "there is no truth value: write 1, as in while 1 do",
        instead: "1",
    },
    Meaning {
        words: "false",
        hint: "there is no truth value: write 0",
        instead: "0",
    },
    Meaning {
        words: "null nil none nullptr undefined",
        hint: "there is no empty value: write 0, as all integers are 0 at the beginning",
        instead: "0",
    },
    Meaning {
        words: "forever infinite always",
        hint: "a loop with no end is written while 1 do print 1 od",
        instead: "1",
    },
    Meaning {
        words: "random rand randint",
        hint: "there is no random number: assign a number, as in x := 5",
        instead: "",
    },
    Meaning {
        words: INPUT,
        hint: INPUT_HINT,
        instead: "",
    },
];

/// Returns whether a word is one of these, ignoring case.
fn is_among(words: &str, text: &[u8]) -> bool {
    words
        .split(' ')
        .any(|word| word.as_bytes().eq_ignore_ascii_case(text))
}

/// Returns the first of some meanings that a word has.
fn found_in(meanings: &[Meaning], text: &[u8]) -> Option<Meaning> {
    for meaning in meanings {
        if is_among(meaning.words, text) {
            return Some(*meaning);
        }
    }
    None
}

/// Returns the meaning of a word of other languages.
pub fn meaning_of(text: &[u8]) -> Option<Meaning> {
    found_in(&MEANINGS, text)
}

/// Returns the meaning of a word that other languages write in the place of a value.
pub fn value_of(text: &[u8]) -> Option<Meaning> {
    found_in(&VALUES, text)
}

/// Returns what is written in the place of a word, if other languages read their input with it.
pub fn input_hint(text: &[u8]) -> Option<&'static str> {
    if is_among(INPUT, text) {
        Some(INPUT_HINT)
    } else {
        None
    }
}

/// Returns whether a word may ask for a thing or give it back.
pub fn is_about_a_thing(text: &[u8]) -> bool {
    is_among(ASKS, text) || is_among(USES, text) || is_among("get", text)
}

/// Returns whether a word may mean that a thing is used for some statements.
pub fn is_use(text: &[u8]) -> bool {
    is_among(USES, text)
}
