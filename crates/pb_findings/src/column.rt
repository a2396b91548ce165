//! Where a word stands in a line of a text.

use pb_message_excerpts::line_end;

/// Returns whether a byte may be one of a name.
fn is_name_byte(byte: u8) -> bool {
    byte.is_ascii_alphanumeric() || byte == b'_'
}

/// Returns whether a word stands at a place of a line, and no longer one does.
fn is_word_at(row: &[u8], at: usize, word: &[u8]) -> bool {
    let Some(rest) = row.get(at..) else {
        return false;
    };
    let Some(behind) = rest.strip_prefix(word) else {
        return false;
    };
    if at > 0 && at <= row.len() && is_name_byte(row[at - 1]) {
        return false;
    }
    match behind.first() {
        Some(byte) => !is_name_byte(*byte),
        None => true,
    }
}

/// Returns where the line of a text with a number, from 1, begins.
fn line_begin(text: &[u8], line: usize) -> usize {
    let mut number: usize = 1;
    let mut begin = 0;
    for at in 0..text.len() {
        if number >= line {
            return begin;
        }
        if text[at] == b'\n' {
            number = number.saturating_add(1);
            begin = at + 1;
        }
    }
    begin
}

/// Returns the column, from 1, of a word in the line of a text with a number, or of the first byte there that is no blank.
pub fn column_of(text: &[u8], line: usize, word: &[u8]) -> usize {
    let begin = line_begin(text, line).min(text.len());
    let row = &text[begin..line_end(text, begin)];
    for at in 0..row.len() {
        if is_word_at(row, at, word) {
            return at + 1;
        }
    }
    row.len()
        .saturating_sub(row.trim_ascii_start().len())
        .saturating_add(1)
}
