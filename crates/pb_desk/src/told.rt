//! What is told to sessions.

use std::marker::Model;

/// A text with its number, to a session.
#[derive(Drop)]
pub struct Message {
    pub session: u64,
    pub number: u64,
    pub text: Vec<u8>,
}

impl Model for Message {
    ghost use Rattle.pb_desk.specs.Sessions.{MessageValue};

    ghost Value = { MessageValue };

    ghost view = { λ m. record { session = m.session; number = m.number; text = m.text.items } };
}

/// One thing that is told.
#[derive(Drop)]
pub enum Told {
    /// The answer to an entry: lines, of which the last is `ready`.
    Answer(Message),
    /// A wish of a job of this session is granted.
    Notice(Message),
}
