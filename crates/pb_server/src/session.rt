//! What a server knows of a client.

ghost use Rattle.std.specs.Prelude.{◌≡◌};
ghost use Rattle.pb_server.specs.Conversations.{fresh};

use crate::documents::Document;
use std::alloc::Global;
use std::marker::Model;

/// What a client has asked for so far.
#[derive(Clone, Copy, Debug, PartialEq, Eq)]
pub enum Phase {
    /// Nothing.
    New,
    /// That the server begins.
    Open,
    /// That the server makes an end.
    ShutDown,
}

/// The documents that are open, what the client has asked for so far, and whether it has gone.
#[derive(Drop)]
pub struct Session {
    pub documents: Vec<Document>,
    pub phase: Phase,
    pub over: bool,
}

impl Model for Session {
    ghost use Rattle.std.specs.Prelude.{map};
    ghost use Rattle.pb_server.specs.Answers.{Serving};
    ghost use Rattle.pb_server.specs.Documents.{document_view};

    ghost Value = { Serving };

    ghost view = { λ s. record { documents = map document_view s.documents.items; phase = s.phase; over = s.over } };
}

impl Session {
    /// Returns the session with a client that has said nothing.
    pub fn new(alloc: Global) -> Session
        ensures { result ≡ fresh }
    {
        Session {
            documents: Vec::new(alloc),
            phase: Phase::New,
            over: false,
        }
    }

    /// Returns whether the client has gone.
    pub fn is_over(&self) -> bool
        ensures { result ≡ self.now.over }
    {
        self.over
    }

    /// Returns what the client has asked for so far.
    pub fn phase(&self) -> Phase
        ensures { result ≡ self.now.phase }
    {
        self.phase
    }
}
