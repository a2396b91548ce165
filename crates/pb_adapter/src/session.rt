//! Sessions with a client.

ghost use Rattle.std.specs.Prelude.{◌≡◌, false};
ghost use Rattle.pb_adapter.specs.Sessions.{AnswersIn, is_last as is_last_kind};

use crate::answer::{Client, answer_request};
use pb_adapter_requests::{Kind, Reply, Request, kind_of};
use pb_base::NoMemory;
use pb_conversations::Adapter;
use pb_debug::Debugger;
use std::alloc::Global;
use std::marker::Model;

/// A run at a position, the client to which it is shown, and whether the client has gone.
#[derive(Drop)]
pub struct Session<'c> {
    debugger: Debugger<'c>,
    client: Client,
    over: bool,
}

impl<'c> Model for Session<'c> {
    ghost use Rattle.pb_adapter.specs.Sessions.{Debugged};

    ghost Value = { Debugged };

    ghost view = { λ s. record { debugger = s.debugger; client = s.client; over = s.over } };
}

impl<'c> Session<'c> {
    /// Returns the session of a debugger with a client.
    pub fn new(debugger: Debugger<'c>, client: Client) -> Session<'c>
        ensures { result ≡ record { debugger = debugger.entry; client = client; over = false } }
    {
        Session {
            debugger,
            client,
            over: false,
        }
    }
}

/// Returns whether a request is the last.
fn is_last(kind: Kind) -> bool
    ensures { result ≡ is_last_kind kind }
{
    matches!(kind, Kind::Disconnect)
}

impl<'c> Adapter for Session<'c> {
    ghost Answers = { AnswersIn };

    ghost over = { λ s. s.over };

    fn answer(&mut self, alloc: Global, seq: u64, request: Request<'_>) -> Result<Reply, NoMemory> {
        let reply = answer_request(alloc, seq, &mut self.debugger, &mut self.client, request)?;
        self.over = is_last(kind_of(request.command));
        Ok(reply)
    }

    fn is_over(&self) -> bool {
        self.over
    }
}
