//! Words of a message, as a report has them.

use pb_base::NoMemory;
use std::alloc::Global;

/// What a message names a line by.
const LINE: &str = "of line ";

/// Returns words of a message with the number of a line of the file in the place of one of its text, which so many lines of
/// the file are before.
pub fn in_lines_of_file(alloc: Global, words: &str, before: usize) -> Result<String, NoMemory> {
    let mut out = String::new(alloc);
    match words.split_once(LINE) {
        Some((begin, behind)) => {
            out.push_str(begin)?;
            out.push_str(LINE)?;
            let rest = behind.trim_start_matches(|letter: char| letter.is_ascii_digit());
            match number_before(behind, rest) {
                Some(line) => {
                    let line = format!(in alloc; "{}", line.saturating_add(before))?;
                    out.push_str(&line)?;
                    out.push_str(rest)?;
                }
                None => out.push_str(behind)?,
            }
        }
        None => out.push_str(words)?,
    }
    Ok(out)
}

/// Returns the number that stands before the end of some words.
fn number_before(words: &str, rest: &str) -> Option<usize> {
    words.strip_suffix(rest)?.parse::<usize>().ok()
}

/// Returns what a label says is there: `it is opened here` of `it is opened at `.
pub fn what_of(alloc: Global, label: &str) -> Result<String, NoMemory> {
    let words = label.trim();
    let words = words.strip_suffix(":").unwrap_or(words);
    match words.strip_suffix(" at") {
        Some(words) => Ok(format!(in alloc; "{words} here")?),
        None => Ok(String::from_str(alloc, words)?),
    }
}
