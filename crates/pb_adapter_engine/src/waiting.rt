//! Requests before a text is launched.

ghost use Rattle.std.specs.Prelude.{◌≡◌, ◌+◌, ◌<◌, ◌^◌, ◌∷◌, [], IfOk, codes};
ghost use Rattle.std.specs.Str.{bytes_eq};
ghost use Rattle.std.specs.Str.Lossy.{utf8_lossy};
ghost use Rattle.serde_json.specs.Data.{null};
ghost use Rattle.pb_adapter_engine.specs.Waiting.{AnswersWaiting, AnswersWaitingKind, Launches, LaunchesBy, LaunchesLent, LaunchesNamed, LaunchesText, TellsUnfit};
ghost use Rattle.pb_adapter_engine.specs.Waiting.{lending_named as named_lending, lending_of as lending_asked, nobody, path_of as path_asked, reading_of, seed_of as seed_asked};
ghost use Rattle.pb_adapter_engine.specs.Waiting as spec;
ghost use Rattle.pb_messages.specs.Said.{SaysToPerson};
ghost use Rattle.pb_adapter_requests.specs.Requests.{request_view, text_of as text_asked};
ghost use Rattle.pb_adapter_requests.specs.Responses.{done_data, event_data, refused_data, told_by};

use crate::launch::launch_of;
use crate::launched::{Launch, Launched};
use pb_adapter::without_last;
use pb_adapter_requests::{
    Counting, Kind, Reply, Request, answered, done, event, is_given, kind_of, number_of, refused,
    text_of, with_event,
};
use pb_adapter_values::capabilities;
use pb_base::{Lending, NoMemory};
use pb_conversations::Adapter;
use pb_messages::{Reading, message_of};
use serde_json::Value;
use std::alloc::Global;
use std::marker::Model;

/// What answers requests until a text is launched.
#[derive(Drop)]
pub struct Waiting {
    pub launched: Option<Launched>,
    pub over: bool,
    /// From which numbers the client counts.
    pub counting: Counting,
}

impl Model for Waiting {
    ghost use Rattle.std.specs.Prelude.{option_map};
    ghost use Rattle.pb_adapter_engine.specs.Waiting.{WaitingValue, launched_view};

    ghost Value = { WaitingValue };

    ghost view = { λ s. record { launched = option_map launched_view s.launched; over = s.over; counting = s.counting } };
}

/// Returns whether a word is this text.
fn is(word: &str, text: &str) -> bool
    ensures { result ≡ bytes_eq word.now text.now }
{
    word.as_bytes() == text.as_bytes()
}

/// Returns who lends, by a word; nobody, if it names nobody.
fn lending_named(word: &str) -> Option<Lending>
    ensures { result ≡ named_lending word.now }
{
    if is(word, "banker") {
        Some(Lending::ByBanker)
    } else if is(word, "cash") {
        Some(Lending::ByCash)
    } else {
        None
    }
}

/// Returns who lends: the banker, if nobody is named.
fn lending_of(request: Request<'_>) -> Option<Lending>
    ensures { result ≡ lending_asked (request_view request.entry) }
{
    match text_of(request, "lend") {
        Some(word) => lending_named(word),
        None => {
            if is_given(request, "lend") {
                None
            } else {
                Some(Lending::ByBanker)
            }
        }
    }
}

/// Returns the seed of a launch: `Some(None)` if it gives none, `None` if what it gives is not in 0..=18446744073709551615.
fn seed_of(request: Request<'_>) -> Option<Option<u64>>
    ensures { result ≡ seed_asked (request_view request.entry) }
{
    match number_of(request, "seed") {
        Some(seed) => Some(Some(seed)),
        None => {
            if is_given(request, "seed") {
                None
            } else {
                Some(None)
            }
        }
    }
}

/// Returns the path that a request names; none if it names none.
fn path_of<'v>(request: Request<'v>) -> &'v str
    ensures { result.now ≡ path_asked (request_view request.entry) }
{
    match text_of(request, "program") {
        Some(path) => path,
        None => "",
    }
}

/// Returns the reply that a request is refused.
fn refuse(alloc: Global, seq: u64, request: Request<'_>, message: &str) -> Result<Reply, NoMemory>
    ensures { IfOk result (λ reply. told_by reply ≡ refused_data seq (request_view request.entry) message.now ∷ []) }
{
    Ok(refused(alloc, seq, request, message)?)
}

/// Returns the reply that a text is launched.
fn tell_launched(alloc: Global, seq: u64, request: Request<'_>) -> Result<Reply, NoMemory>
    requires few { seq < 2 ^ 63 }
    ensures { IfOk result (λ reply. told_by reply ≡ done_data seq (request_view request.entry) null
        ∷ event_data (seq + 1) (codes "initialized") null ∷ []) }
{
    let response = done(alloc, seq, request, Value::Null)?;
    let event = event(alloc, seq + 1, "initialized", Value::Null)?;
    Ok(with_event(response, event))
}

/// Returns what a person is told of a text that is launched, by how the launch reads it.
fn message_for(
    alloc: Global,
    words: &str,
    lending: Lending,
    seed: Option<u64>,
) -> Result<Vec<u8>, NoMemory>
    ensures { IfOk result (λ message. SaysToPerson (reading_of seed lending) words.now message.items) }
{
    match seed {
        None => message_of(alloc, Reading::Replayed(lending), words.as_bytes()),
        Some(_) => message_of(alloc, Reading::Text, words.as_bytes()),
    }
}

/// Returns the line of a refusal, and after it what a person is told, if anything is.
fn in_words(alloc: Global, line: &[u8], message: &[u8]) -> Result<String, NoMemory>
    ensures { IfOk result (λ said. said.bytes.items ≡ utf8_lossy (spec.in_words line.now message.now)) }
{
    let mut said = Vec::from_slice(alloc, line)?;
    said.push(b'\n')?;
    said.extend_from_slice(message)?;
    Ok(String::from_utf8_lossy(alloc, without_last(&said))?)
}

/// Returns the reply that a launch of a text is refused, with the line of the refusal and in words.
fn tell_unfit(
    alloc: Global,
    seq: u64,
    request: Request<'_>,
    words: &str,
    lending: Lending,
    seed: Option<u64>,
    line: &[u8],
) -> Result<Reply, NoMemory>
    ensures { IfOk result (λ reply. TellsUnfit seq (request_view request.entry) words.now lending seed line.now (told_by reply)) }
{
    let message = message_for(alloc, words, lending, seed)?;
    let shown = in_words(alloc, line, &message)?;
    refuse(alloc, seq, request, &shown)
}

impl Waiting {
    /// Returns what answers while nothing is launched.
    pub fn new() -> Waiting
        ensures { result ≡ nobody }
    {
        Waiting {
            launched: None,
            over: false,
            counting: Counting::from_1(),
        }
    }

    /// Launches a text by its seed, or else by the pick lines after it; or refuses it with the message of its fault.
    fn launch_text(
        &mut self,
        alloc: Global,
        seq: u64,
        request: Request<'_>,
        words: &str,
        lending: Lending,
        seed: Option<u64>,
    ) -> Result<Reply, NoMemory>
        requires few { seq < 2 ^ 63 }
        ensures { IfOk result (λ reply. LaunchesText self.old seq (request_view request.entry) words.now lending seed (told_by reply) self.new) }
    {
        let path = path_of(request);
        let launch = launch_of(alloc, words.as_bytes(), seed, lending, path, self.counting)?;
        match launch {
            Launch::Fit(launched) => {
                let reply = tell_launched(alloc, seq, request)?;
                self.launched = Some(launched);
                self.over = true;
                Ok(reply)
            }
            Launch::Unfit(line) => { tell_unfit(alloc, seq, request, words, lending, seed, &line) }
        }
    }

    /// Launches a text under this lending, or refuses it if `seed` is not in its range.
    fn launch_by(
        &mut self,
        alloc: Global,
        seq: u64,
        request: Request<'_>,
        words: &str,
        lending: Lending,
    ) -> Result<Reply, NoMemory>
        requires few { seq < 2 ^ 63 }
        ensures { IfOk result (λ reply. LaunchesBy self.old seq (request_view request.entry) words.now lending
            (seed_asked (request_view request.entry)) (told_by reply) self.new) }
    {
        match seed_of(request) {
            Some(seed) => self.launch_text(alloc, seq, request, words, lending, seed),
            None => refuse(
                alloc,
                seq,
                request,
                "seed is not in 0..=18446744073709551615",
            ),
        }
    }

    /// Launches a text that has a path, or refuses it if `lend` is neither `banker` nor `cash`.
    fn launch_lent(
        &mut self,
        alloc: Global,
        seq: u64,
        request: Request<'_>,
        words: &str,
    ) -> Result<Reply, NoMemory>
        requires few { seq < 2 ^ 63 }
        ensures { IfOk result (λ reply. LaunchesLent self.old seq (request_view request.entry) words.now
            (lending_asked (request_view request.entry)) (told_by reply) self.new) }
    {
        match lending_of(request) {
            Some(lending) => self.launch_by(alloc, seq, request, words, lending),
            None => refuse(alloc, seq, request, "lend is banker or cash"),
        }
    }

    /// Launches a text, or refuses it if `program` is missing or empty.
    fn launch_named(
        &mut self,
        alloc: Global,
        seq: u64,
        request: Request<'_>,
        words: &str,
    ) -> Result<Reply, NoMemory>
        requires few { seq < 2 ^ 63 }
        ensures { IfOk result (λ reply. LaunchesNamed self.old seq (request_view request.entry) words.now
            (path_asked (request_view request.entry)) (told_by reply) self.new) }
    {
        if path_of(request).is_empty() {
            return refuse(
                alloc,
                seq,
                request,
                "there is no program: the path of the text",
            );
        }
        self.launch_lent(alloc, seq, request, words)
    }

    /// Answers a launch.
    fn answer_launch(
        &mut self,
        alloc: Global,
        seq: u64,
        request: Request<'_>,
    ) -> Result<Reply, NoMemory>
        requires few { seq < 2 ^ 63 }
        ensures { IfOk result (λ reply. Launches self.old seq (request_view request.entry)
            (text_asked (codes "text") (request_view request.entry)) (told_by reply) self.new) }
    {
        match text_of(request, "text") {
            Some(words) => self.launch_named(alloc, seq, request, words),
            None => refuse(alloc, seq, request, "there is no text"),
        }
    }

    /// Answers a request of a kind.
    fn answer_kind(
        &mut self,
        alloc: Global,
        seq: u64,
        request: Request<'_>,
        kind: Kind,
    ) -> Result<Reply, NoMemory>
        requires few { seq < 2 ^ 63 }
        ensures { IfOk result (λ reply. AnswersWaitingKind kind self.old seq (request_view request.entry) (told_by reply) self.new) }
    {
        match kind {
            Kind::Initialize => {
                let reply = answered(alloc, seq, request, capabilities(alloc)?)?;
                self.counting = Counting::of(request);
                Ok(reply)
            }
            Kind::Launch => self.answer_launch(alloc, seq, request),
            Kind::Disconnect => {
                let reply = answered(alloc, seq, request, Value::Null)?;
                self.launched = None;
                self.over = true;
                Ok(reply)
            }
            _ => refuse(alloc, seq, request, "no text is launched"),
        }
    }
}

impl Adapter for Waiting {
    ghost Answers = { AnswersWaiting };

    ghost over = { λ s. s.over };

    fn answer(&mut self, alloc: Global, seq: u64, request: Request<'_>) -> Result<Reply, NoMemory> {
        self.answer_kind(alloc, seq, request, kind_of(request.command))
    }

    fn is_over(&self) -> bool {
        self.over
    }
}
