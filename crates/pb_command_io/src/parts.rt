//! Inputs of several parts, which lines `%%` part.
ghost use Rattle.std.specs.Prelude.{◌≡◌, ◌+◌, ◌<◌, ◌↔◌, ℕ, IfSome, IfNone, IsTrue, drop, length, take};
ghost use Rattle.pb_command_io.specs.Parts.{AreTwoParts, HasNoMarkBelow, IsCutAt, IsMark, IsMarkAt};

/// Returns whether a text begins with a line of the two bytes `%%`.
fn is_mark(text: &[u8]) -> bool
    ensures { IsTrue result ↔ IsMark text.now }
{
    matches!(text, [b'%', b'%'] | [b'%', b'%', b'\n', ..])
}

/// Returns whether such a line begins at a place.
pub fn is_mark_at(text: &[u8], at: usize) -> bool
    requires { at < length text.now }
    ensures { IsTrue result ↔ IsMarkAt text.now at }
{
    if at > 0 && text[at - 1] != b'\n' {
        return false;
    }
    is_mark(&text[at..])
}

/// Returns the place of the first line `%%`.
fn first_mark(text: &[u8]) -> Option<usize>
    ensures some { IfSome result (λ at. IsMarkAt text.now at × HasNoMarkBelow text.now at) }
    ensures none { IfNone result ((at : ℕ) → ¬ IsMarkAt text.now at) }
{
    for at in 0..text.len() {
        if is_mark_at(text, at) {
            return Some(at);
        }
    }
    None
}

/// What a text has before its first line `%%`, and what it has after that line.
#[derive(Clone, Copy)]
pub struct FirstPart<'t> {
    pub part: &'t [u8],
    /// Nothing if the text has no such line.
    pub rest: Option<&'t [u8]>,
}

/// Cuts a text at its first line `%%`.
pub fn first_part<'t>(text: &'t [u8]) -> FirstPart<'t>
    ensures marked { IfSome result.rest (λ rest. IsCutAt text.now result.part.now rest.now) }
    ensures whole { IfNone result.rest ((result.part.now ≡ text.now) × ((at : ℕ) → ¬ IsMarkAt text.now at)) }
{
    match first_mark(text) {
        Some(at) => FirstPart {
            part: &text[..at],
            rest: Some(&text[(at + 3).min(text.len())..]),
        },
        None => FirstPart {
            part: text,
            rest: None,
        },
    }
}

/// Returns what a text has before its first line `%%` and what it has after that line: nothing if it has no
/// such line.
pub fn two_parts(text: &[u8]) -> (&[u8], &[u8])
    ensures { AreTwoParts text.now result.0.now result.1.now }
{
    let cut = first_part(text);
    match cut.rest {
        Some(rest) => (cut.part, rest),
        None => (cut.part, &text[text.len()..]),
    }
}
