//! What a message says in words, put together.

ghost use Rattle.std.specs.Prelude.{◌≡◌, ◌∷◌, ◌++◌, [], MatchResult, codes, false, string_bytes};
ghost use Rattle.pb_mistakes.specs.Wordings.{AddsNote, AddsSpot, IsWording};

use crate::repair::Repair;
use pb_lexer::Token;
use pb_message_excerpts::printable_byte;
use std::alloc::{AllocError, Global};
use std::fmt::{self, Write};

/// Bytes of an input, as a message shows them: a carriage return as a space, and a question mark for each
/// other byte that is neither printable nor a tab.
#[derive(Clone, Copy)]
pub struct Shown<'t>(pub &'t [u8]);

impl fmt::Display for Shown<'_> {
    fn fmt<W: fmt::Write>(&self, f: &mut fmt::Formatter<W>) -> fmt::Result {
        for byte in self.0 {
            f.write_char(char::from(printable_byte(*byte)))?;
        }
        Ok(())
    }
}

/// Another place that has to do with a fault.
#[derive(Drop)]
pub struct Spot {
    /// What is before the number of its line.
    pub label: String,
    /// Its offset.
    pub at: usize,
}

/// What a message says beside the code and the place of a fault. Adding a part returns nothing; if out of
/// memory for one of them it makes no message.
#[derive(Drop)]
pub struct Wording {
    /// The fault in words, without a line feed.
    pub summary: String,
    /// Other places.
    pub spots: Vec<Spot>,
    /// What is expected or usually meant, a line each.
    pub notes: Vec<String>,
    /// Whether there was memory for all parts.
    pub is_whole: bool,
}

impl Wording {
    /// Returns the wording of a fault with no other place and no note.
    pub fn new(alloc: Global, summary: Result<String, AllocError>) -> Wording
        ensures { MatchResult summary (λ words. IsWording (string_bytes words) [] result) (λ _. result.is_whole ≡ false) }
    {
        let is_whole = summary.is_ok();
        Wording {
            summary: summary.unwrap_or(String::new(alloc)),
            spots: Vec::new(alloc),
            notes: Vec::new(alloc),
            is_whole,
        }
    }

    /// Returns the wording of a fault in these words, with no other place and no note.
    pub fn of(alloc: Global, summary: &str) -> Wording
        ensures { IsWording summary.now [] result }
    {
        Wording::new(alloc, String::from_str(alloc, summary))
    }

    /// Returns the wording of a fault in these words, with one note.
    pub fn noted(alloc: Global, summary: &str, note: &str) -> Wording
        ensures { IsWording summary.now (note.now ∷ []) result }
    {
        let mut wording = Wording::of(alloc, summary);
        wording.note_text(alloc, note);
        wording
    }

    /// Adds a note.
    pub fn note(&mut self, note: Result<String, AllocError>)
        ensures { MatchResult note (λ words. AddsNote self.old (string_bytes words) self.new)
            (λ _. self.new.is_whole ≡ false) }
    {
        match note {
            Ok(note) => self.is_whole &= self.notes.push(note).is_ok(),
            Err(_) => self.is_whole = false,
        }
    }

    /// Adds a note in these words.
    pub fn note_text(&mut self, alloc: Global, note: &str)
        ensures { AddsNote self.old note.now self.new }
    {
        self.note(String::from_str(alloc, note));
    }

    /// Adds a note that says what is usually meant.
    pub fn hint(&mut self, alloc: Global, hint: &str)
        ensures { AddsNote self.old (codes "hint: " ++ hint.now) self.new }
    {
        self.note(format!(in alloc; "hint: {hint}"));
    }

    /// Adds another place.
    pub fn spot(&mut self, label: Result<String, AllocError>, at: usize)
        ensures { MatchResult label (λ label. AddsSpot self.old (record { label = label; at = at }) self.new)
            (λ _. self.new.is_whole ≡ false) }
    {
        match label {
            Ok(label) => self.is_whole &= self.spots.push(Spot { label, at }).is_ok(),
            Err(_) => self.is_whole = false,
        }
    }

    /// Adds the place of a token, if there is one.
    pub fn spot_token(&mut self, alloc: Global, label: &str, token: Option<&Token<'_>>) {
        if let Some(token) = token {
            self.spot(String::from_str(alloc, label), token.start());
        }
    }
}

/// A mistake in words. In its texts `@1` to `@4` stand for words of the input, and `@n` for the number of a
/// line. Nothing is allocated before it becomes a wording.
#[derive(Clone, Copy)]
pub struct Told<'t> {
    /// What is wrong.
    pub summary: &'static str,
    /// What is usually meant; nothing if it is empty.
    pub hint: &'static str,
    /// A second hint; none if it is empty.
    pub second: &'static str,
    /// The words of the input.
    pub words: [&'t [u8]; 4],
    /// The number of the line.
    pub line: u32,
    /// What is before the number of the line of another place.
    pub label: &'static str,
    /// The offset of that place, if there is one.
    pub place: Option<usize>,
    /// The edit that is said.
    pub repair: Repair<'t>,
}

/// Returns a mistake in these words.
pub fn telling<'t>(summary: &'static str, hint: &'static str) -> Told<'t> {
    Told {
        summary,
        hint,
        second: "",
        words: [b"", b"", b"", b""],
        line: 0,
        label: "",
        place: None,
        repair: Repair::Unsaid,
    }
}

/// Returns a mistake in these words, which is there.
pub fn usual<'t>(summary: &'static str, hint: &'static str) -> Option<Told<'t>> {
    Some(telling(summary, hint))
}

impl<'t> Told<'t> {
    /// Returns the same with a word of the input.
    pub fn naming(self, first: &'t [u8]) -> Told<'t> {
        self.with_words(first, b"", b"")
    }

    /// Returns the same with three words of the input.
    pub fn with_words(self, first: &'t [u8], second: &'t [u8], third: &'t [u8]) -> Told<'t> {
        Told {
            words: [first, second, third, b""],
            ..self
        }
    }

    /// Returns the same with a fourth word of the input.
    pub fn with_fourth(self, fourth: &'t [u8]) -> Told<'t> {
        let [first, second, third, _] = self.words;
        Told {
            words: [first, second, third, fourth],
            ..self
        }
    }

    /// Returns the same with a second hint.
    pub fn with_second(self, second: &'static str) -> Told<'t> {
        Told { second, ..self }
    }

    /// Returns the same with the number of a line.
    pub fn on_line(self, line: u32) -> Told<'t> {
        Told { line, ..self }
    }

    /// Returns the same with the place of a token, if there is one.
    pub fn placed(self, label: &'static str, token: Option<&Token<'_>>) -> Told<'t> {
        let place = match token {
            Some(token) => Some(token.start()),
            None => None,
        };
        Told {
            label,
            place,
            ..self
        }
    }

    /// Returns the same with the place of a word or symbol of the input.
    pub fn placed_at(self, label: &'static str, at: usize) -> Told<'t> {
        Told {
            label,
            place: Some(at),
            ..self
        }
    }

    /// Returns the same with the edit that writes a word or symbol before the token that cannot be where it is.
    pub fn inserting(self, word: &'static str) -> Told<'t> {
        Told {
            repair: Repair::Insert(word),
            ..self
        }
    }

    /// Returns the same with the edit that leaves the token with a number out.
    pub fn removing(self, number: usize) -> Told<'t> {
        Told {
            repair: Repair::Remove(number),
            ..self
        }
    }

    /// Returns the same with the edit that writes a word in the place of the token with a number.
    pub fn replacing(self, number: usize, word: &'t [u8]) -> Told<'t> {
        self.replacing_by_two(number, word, b"")
    }

    /// Returns the same with the edit that writes a word in the place of the token with a number, and the other one after
    /// that and a blank, if it is not empty.
    pub fn replacing_by_two(self, number: usize, word: &'t [u8], rest: &'t [u8]) -> Told<'t> {
        Told {
            repair: Repair::Replace { number, word, rest },
            ..self
        }
    }

    /// Returns the same with the edit that declares the name that is not declared.
    pub fn declaring(self) -> Told<'t> {
        Told {
            repair: Repair::Declare,
            ..self
        }
    }

    /// Returns the wording of the mistake.
    pub fn wording(&self, alloc: Global) -> Wording {
        let mut wording = Wording::new(alloc, self.filled(alloc, "", self.summary));
        self.put_place(alloc, &mut wording);
        self.put_hint(alloc, &mut wording, self.hint);
        self.put_hint(alloc, &mut wording, self.second);
        wording
    }

    /// Adds the mistake to the wording of another one that it may have caused.
    pub fn put_cause(&self, alloc: Global, wording: &mut Wording) {
        self.put_place(alloc, wording);
        match self.filled(alloc, "hint: ", self.summary) {
            Ok(summary) => {
                let hint = self.filled(alloc, "", self.hint);
                wording.note(joined(summary, hint));
            }
            Err(_) => wording.is_whole = false,
        }
    }

    /// Adds the other place, if there is one.
    fn put_place(&self, alloc: Global, wording: &mut Wording) {
        if let Some(at) = self.place {
            wording.spot(self.filled(alloc, "", self.label), at);
        }
    }

    /// Adds a hint, if it is not empty.
    fn put_hint(&self, alloc: Global, wording: &mut Wording, hint: &'static str) {
        if !hint.is_empty() {
            wording.note(self.filled(alloc, "hint: ", hint));
        }
    }

    /// Returns a text with the words of the input in it, after a beginning.
    fn filled(&self, alloc: Global, begin: &str, text: &str) -> Result<String, AllocError> {
        let mut out = String::from_str(alloc, begin)?;
        let mut is_slot = false;
        for letter in text.chars() {
            if is_slot {
                self.put_slot(&mut out, letter)?;
                is_slot = false;
            } else if letter == '@' {
                is_slot = true;
            } else {
                out.push(letter)?;
            }
        }
        Ok(out)
    }

    /// Appends to `out` what a letter after `@` stands for.
    fn put_slot(&self, out: &mut String, letter: char) -> Result<(), AllocError> {
        match letter {
            '1' => put_word(out, self.words[0]),
            '2' => put_word(out, self.words[1]),
            '3' => put_word(out, self.words[2]),
            '4' => put_word(out, self.words[3]),
            _ => write!(out, "{}", self.line).map_err(|_| AllocError),
        }
    }
}

/// Appends a word of the input to `out`.
fn put_word(out: &mut String, word: &[u8]) -> Result<(), AllocError> {
    for byte in word {
        out.push(char::from(printable_byte(*byte)))?;
    }
    Ok(())
}

/// Returns two texts as one, with a colon between them.
fn joined(first: String, second: Result<String, AllocError>) -> Result<String, AllocError> {
    let second = second?;
    let mut text = first;
    text.push_str(": ")?;
    text.push_str(second.as_str())?;
    Ok(text)
}
