//! What a voice has written, by what it was told: laws over definitions alone.

ghost use Rattle.pb_voice.specs.Laws.{WritesFirstPart, WritesWhatIsTold};

/// What is told is written in the form of the voice, as the bytes of just these things, in order; and so it is with a
/// first part if a write failed. `S` is what is said.
pub fn what_is_told_is_written<S>()
    ensures told { WritesWhatIsTold S }
    ensures broken { WritesFirstPart S }
{}
