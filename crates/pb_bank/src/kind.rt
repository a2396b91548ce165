//! The kinds of commands.

ghost use Rattle.std.specs.Prelude.{◌≡◌, ◌==◌, ◌||◌, ◌∷◌, cond, codes, length, slice_index_or};
ghost use Rattle.std.specs.Str.{bytes_eq};
ghost use Rattle.pb_bank.specs.Words as spec;

/// What the first word of a line says.
#[derive(Clone, Copy, Debug, PartialEq, Eq)]
pub enum Kind {
    /// Nothing, or a comment.
    Skip,
    /// `resource R K`
    Resource,
    /// `capital R K`
    Capital,
    /// `claim J K R`
    Claim,
    /// `job J K R, ..`
    Job,
    /// `ask J K R, ..`
    Ask,
    /// `want J K R, ..`
    Want,
    /// `drop J`
    Drop,
    /// `give J K R, ..`
    Give,
    /// `leave J`
    Leave,
    /// `hold J K R, ..`
    Hold,
    /// `why J K R, ..`
    Why,
    /// `order` or `order J ..`
    Order,
    /// `state`
    State,
    /// `help`
    Help,
    /// No command.
    Other,
}

/// Returns whether a word is this text.
fn is(word: &[u8], text: &str) -> bool
    ensures { result ≡ bytes_eq word.now text.now }
{
    word == text.as_bytes()
}

/// Returns which command begins with a word: the last of them.
fn last_kind(word: &[u8]) -> Kind
    ensures { result ≡
        cond (bytes_eq word.now (codes "job")) Kind.Job (
        cond (bytes_eq word.now (codes "resource")) Kind.Resource (
        cond (bytes_eq word.now (codes "capital")) Kind.Capital (
        cond (bytes_eq word.now (codes "claim")) Kind.Claim (
        cond (bytes_eq word.now (codes "order")) Kind.Order (
        cond (bytes_eq word.now (codes "state")) Kind.State (
        cond (bytes_eq word.now (codes "help")) Kind.Help Kind.Other)))))) }
{
    if is(word, "job") {
        Kind::Job
    } else if is(word, "resource") {
        Kind::Resource
    } else if is(word, "capital") {
        Kind::Capital
    } else if is(word, "claim") {
        Kind::Claim
    } else if is(word, "order") {
        Kind::Order
    } else if is(word, "state") {
        Kind::State
    } else if is(word, "help") {
        Kind::Help
    } else {
        Kind::Other
    }
}

/// Returns which command begins with a word that is not skipped.
fn kind_of_word(word: &[u8]) -> Kind
    ensures { result ≡
        cond (bytes_eq word.now (codes "ask")) Kind.Ask (
        cond (bytes_eq word.now (codes "give")) Kind.Give (
        cond (bytes_eq word.now (codes "want")) Kind.Want (
        cond (bytes_eq word.now (codes "drop")) Kind.Drop (
        cond (bytes_eq word.now (codes "why")) Kind.Why (
        cond (bytes_eq word.now (codes "hold")) Kind.Hold (
        cond (bytes_eq word.now (codes "leave")) Kind.Leave (
        cond (bytes_eq word.now (codes "job")) Kind.Job (
        cond (bytes_eq word.now (codes "resource")) Kind.Resource (
        cond (bytes_eq word.now (codes "capital")) Kind.Capital (
        cond (bytes_eq word.now (codes "claim")) Kind.Claim (
        cond (bytes_eq word.now (codes "order")) Kind.Order (
        cond (bytes_eq word.now (codes "state")) Kind.State (
        cond (bytes_eq word.now (codes "help")) Kind.Help Kind.Other))))))))))))) }
{
    if is(word, "ask") {
        Kind::Ask
    } else if is(word, "give") {
        Kind::Give
    } else if is(word, "want") {
        Kind::Want
    } else if is(word, "drop") {
        Kind::Drop
    } else if is(word, "why") {
        Kind::Why
    } else if is(word, "hold") {
        Kind::Hold
    } else if is(word, "leave") {
        Kind::Leave
    } else {
        last_kind(word)
    }
}

/// Returns whether there is no word, or one that begins with `#`.
fn is_skipped(word: &[u8]) -> bool
    ensures { result ≡ spec.is_skipped word.now }
{
    if word.is_empty() {
        return true;
    }
    word[0] == b'#'
}

/// Returns which command begins with a word.
#[tactic(auto, unfolding(crate::specs::Words::kind_of))]
fn kind_of(word: &[u8]) -> Kind
    ensures { result ≡ spec.kind_of word.now }
{
    if is_skipped(word) {
        return Kind::Skip;
    }
    kind_of_word(word)
}

/// Returns which command begins with a word. A command that is too long is none, and a comment may have any length.
pub fn kind_within(too_long: bool, word: &[u8]) -> Kind
    ensures { result ≡ spec.kind_within too_long word.now }
{
    if !too_long {
        return kind_of(word);
    }
    if is_skipped(word) {
        Kind::Skip
    } else {
        Kind::Other
    }
}
