//! What a line that says no pick or no print has wrong at its ends.

ghost use Rattle.std.specs.Prelude.{◌≡◌};
ghost use Rattle.pb_message_stops.specs.Ends as spec;

/// What the lines of an input say.
#[derive(Clone, Copy)]
pub enum Form {
    /// Picks.
    Picks,
    /// Prints that are expected.
    Prints,
}

/// What a line has wrong at its ends.
#[derive(Clone, Copy)]
pub enum Ends {
    /// It is empty.
    Empty,
    /// It ends with a carriage return.
    Return,
    /// It ends with a blank.
    BlankBehind,
    /// It begins with a blank.
    BlankBefore,
}

/// Returns what a line has wrong at its ends, if it has anything wrong there.
pub(crate) fn ends_of(line: &[u8]) -> Option<Ends>
    ensures { result ≡ spec.ends_of line.now }
{
    if line.is_empty() {
        return Some(Ends::Empty);
    }
    let last = line[line.len() - 1];
    if last == b'\r' {
        Some(Ends::Return)
    } else if is_blank(last) {
        Some(Ends::BlankBehind)
    } else if is_blank(line[0]) {
        Some(Ends::BlankBefore)
    } else {
        None
    }
}

/// Returns whether a byte is a space or a tab.
fn is_blank(byte: u8) -> bool
    ensures { result ≡ spec.is_blank byte }
{
    byte == b' ' || byte == b'\t'
}

impl Ends {
    /// Returns it in words.
    pub(crate) fn summary(self) -> &'static str {
        match self {
            Ends::Empty => "this line is empty",
            Ends::Return => "this line ends with a carriage return",
            Ends::BlankBehind => "this line ends with a blank",
            Ends::BlankBefore => "this line begins with a blank",
        }
    }

    /// Returns what is usually meant, by what the lines say.
    pub(crate) fn hint(self, form: Form) -> &'static str
        ensures { result.now ≡ spec.ends_hint form self }
    {
        match (form, self) {
            (Form::Picks, Ends::Empty) => {
                "each line after the line %% is a pick line: leave empty lines out"
            }
            (Form::Prints, Ends::Empty) => {
                "each line after the line %% is a print line: leave empty lines out"
            }
            (Form::Picks, Ends::Return) => {
                "save the picks with the line ends of Unix: a line feed alone"
            }
            (Form::Prints, Ends::Return) => {
                "save the prints with the line ends of Unix: a line feed alone"
            }
            (Form::Picks, Ends::BlankBehind) => "leave out the blank after the count",
            (Form::Prints, Ends::BlankBehind) => "leave out the blank at its end",
            (Form::Picks | Form::Prints, Ends::BlankBefore) => {
                "leave out the blank before the process"
            }
        }
    }
}
