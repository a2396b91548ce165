//! Tokens, and how to read one.

ghost use Rattle.std.specs.Prelude.{◌≡◌};
ghost use Rattle.pb_lexer.specs.Tokens.{lexeme, token};

/// A symbol or a reserved word. Its spelling is above it.
// To add one: specs/Forms, words.rt, lexer.rt of pb_tests, names.rt of pb_code, LANGUAGE.md, extras/;
// docs/CHANGING.md.
#[derive(Clone, Copy, Debug, PartialEq, Eq)]
pub enum Mark {
    /// `:=`
    Assign,
    /// `;`
    Semicolon,
    /// `,`
    Comma,
    /// `(`
    Open,
    /// `)`
    Close,
    /// `+`
    Plus,
    /// `-`
    Minus,
    /// `*`
    Star,
    /// `=`
    Equal,
    /// `<>`
    NotEqual,
    /// `<`
    Less,
    /// `<=`
    AtMost,
    /// `>`
    Greater,
    /// `>=`
    AtLeast,
    /// `and`
    And,
    /// `begin`
    Begin,
    /// `div`
    Div,
    /// `do`
    Do,
    /// `else`
    Else,
    /// `end`
    End,
    /// `fi`
    Fi,
    /// `hold`
    Hold,
    /// `if`
    If,
    /// `integer`
    Integer,
    /// `mod`
    Mod,
    /// `not`
    Not,
    /// `od`
    Od,
    /// `of`
    Of,
    /// `or`
    Or,
    /// `parbegin`
    Parbegin,
    /// `parend`
    Parend,
    /// `print`
    Print,
    /// `process`
    Process,
    /// `resource`
    Resource,
    /// `skip`
    Skip,
    /// `then`
    Then,
    /// `while`
    While,
}

/// What a token is.
#[derive(Clone, Copy, Debug, PartialEq, Eq)]
pub enum Kind {
    /// A letter, then letters, digits or `_`, up to 32 bytes, not a reserved word.
    Name,
    /// Decimal digits, and the number that they say, from 0 to 9223372036854775807.
    Number(i64),
    /// A symbol or a reserved word.
    Mark(Mark),
}

/// A token of a text, with its offset and its line. Only `lex` makes tokens.
#[derive(Clone, Copy, Debug)]
pub struct Token<'t> {
    pub(crate) kind: Kind,
    pub(crate) text: &'t [u8],
    pub(crate) start: usize,
    pub(crate) end: usize,
    pub(crate) line: u32,
}

impl<'t> Token<'t> {
    /// Returns what the token is.
    pub fn kind(&self) -> Kind
        ensures { lexeme result (token self.now).text ≡ (token self.now).lexeme }
    {
        self.kind
    }

    /// Returns the bytes of the token, a slice of the text that it was cut from.
    pub fn text(&self) -> &'t [u8]
        ensures { result.now ≡ (token self.now).text }
    {
        self.text
    }

    /// Returns the offset of its first byte in the text, from 0.
    pub fn start(&self) -> usize
        ensures { result ≡ (token self.now).start }
    {
        self.start
    }

    /// Returns the offset after its last byte, up to 65,536.
    pub fn end(&self) -> usize
        ensures { result ≡ (token self.now).end }
    {
        self.end
    }

    /// Returns the line of its first byte, from 1: one more than the line feeds before it.
    pub fn line(&self) -> u32
        ensures { result ≡ (token self.now).line }
    {
        self.line
    }
}
