//! Where a byte of a text is.

ghost use Rattle.std.specs.Prelude.{◌≡◌, ◌≢◌, ◌<◌, ◌≤◌, ◌⊎◌, ℕ, ◌-◌, length, slice_index};
ghost use Rattle.pb_lexer.specs.Cutting.{line_at};
ghost use Rattle.pb_message_excerpts.specs.Places.{IsPlace};

/// A byte of a text, or its end.
#[derive(Clone, Copy)]
pub struct Place {
    /// The offset of the byte, from 0.
    pub at: usize,
    /// The number of its line, from 1.
    pub line: usize,
    /// The number of the byte in its line, from 1.
    pub column: usize,
    /// The offset at which the line begins.
    pub begin: usize,
    /// The offset after its last byte, that of its line feed if it has one.
    pub end: usize,
}

/// Returns the place of the byte with this offset, or of the end of the text.
pub fn place_of(text: &[u8], offset: usize) -> Place
    requires { offset ≤ length text.now }
    ensures { IsPlace text.now offset result }
{
    let line = line_number(text, offset);
    let begin = line_begin(text, offset);
    let end = line_end(text, offset);
    Place {
        at: offset,
        line,
        column: offset - begin + 1,
        begin,
        end,
    }
}

/// Returns the number of the line of an offset.
fn line_number(text: &[u8], offset: usize) -> usize
    requires { offset ≤ length text.now }
    ensures { result ≡ line_at text.now offset }
{
    text[..offset].iter().filter(|byte| **byte == b'\n').count() + 1
}

/// Returns where the line of an offset begins.
fn line_begin(text: &[u8], offset: usize) -> usize
    requires { offset ≤ length text.now }
    ensures from { result ≤ offset }
    ensures none_before { (k : ℕ) → result ≤ k → k < offset → slice_index text.now k ≢ 10 }
    ensures first { (result ≡ 0) ⊎ ((0 < result) × (slice_index text.now (result - 1) ≡ 10)) }
{
    let mut begin = offset;
    while begin > 0 {
        if text[begin - 1] == b'\n' {
            return begin;
        }
        begin -= 1;
    }
    begin
}

/// Returns where the line of an offset ends: the offset of its line feed, or of the end of the text.
pub fn line_end(text: &[u8], offset: usize) -> usize
    requires { offset ≤ length text.now }
    ensures to { offset ≤ result }
    ensures within { result ≤ length text.now }
    ensures none_behind { (k : ℕ) → offset ≤ k → k < result → slice_index text.now k ≢ 10 }
    ensures last { (result ≡ length text.now) ⊎ (slice_index text.now result ≡ 10) }
{
    for end in offset..text.len() {
        if text[end] == b'\n' {
            return end;
        }
    }
    text.len()
}
