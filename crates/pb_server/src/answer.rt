//! What is answered to requests, and to all messages.

ghost use Rattle.std.specs.Prelude.{◌≡◌, ◌∷◌, [], IfOk, false, option_map};
ghost use Rattle.serde_json.specs.Data.{Data};
ghost use Rattle.serde_json.specs.View.{view};
ghost use Rattle.serde_json.specs.Written.{has_float};
ghost use Rattle.pb_conversations.specs.Conversations.{AreFloatFree};
ghost use Rattle.pb_server.specs.Answers.{AnswersContent, AnswersHeard, AnswersIn, AnswersNew, AnswersOpen, FindsIn, text_named};
ghost use Rattle.pb_server.specs.Messages.{heard_in, message_view};
ghost use Rattle.pb_server.specs.Params.{uri_in as uri_told};
ghost use Rattle.pb_server.specs.Responses.{error_data, told_by};

use crate::documents::text_of;
use crate::found::respond;
use crate::hear::hear;
use crate::language::Language;
use crate::message::{Message, message_of};
use crate::method::{Method, method_of};
use crate::params::uri_in;
use crate::query::Query;
use crate::response::{Fault, capabilities, done, failed};
use crate::session::{Phase, Session};
use pb_base::NoMemory;
use serde_json::Value;
use std::alloc::Global;

/// Returns the response that a request is refused.
fn refuse(alloc: Global, id: &Value, fault: Fault, message: &str) -> Result<Value, NoMemory>
    requires { has_float (view id.now) ≡ false }
    ensures told { IfOk result (λ v. view v ≡ error_data (view id.now) fault message.now) }
    ensures float_free { IfOk result (λ v. has_float (view v) ≡ false) }
{
    Ok(failed(alloc, id, fault, message)?)
}

/// Returns the response to a request about the text of an open document.
fn find_in<L: Language>(
    alloc: Global,
    language: &L,
    session: &Session,
    query: Query,
    id: &Value,
    params: Option<&Value>,
) -> Result<Value, NoMemory>
    requires { has_float (view id.now) ≡ false }
    ensures told { IfOk result (λ v. FindsIn L.Finds query (view id.now) (option_map (λ p. view p.now) params.entry)
        (uri_told (option_map (λ p. view p.now) params.entry))
        (text_named session.now.documents (uri_told (option_map (λ p. view p.now) params.entry))) (view v ∷ [])) }
    ensures float_free { IfOk result (λ v. has_float (view v) ≡ false) }
{
    let Some(uri) = uri_in(params) else {
        return refuse(
            alloc,
            id,
            Fault::WrongParams,
            "no open document has this URI",
        );
    };
    match text_of(session.documents.as_slice(), uri) {
        Some(text) => {
            let found = language.find(alloc, query, uri, text, params)?;
            respond(alloc, id, found)
        }
        None => refuse(
            alloc,
            id,
            Fault::WrongParams,
            "no open document has this URI",
        ),
    }
}

/// Answers a request to a server that is initialized and not shut down.
fn answer_open<L: Language>(
    alloc: Global,
    language: &L,
    session: &mut Session,
    method: Method,
    id: &Value,
    params: Option<&Value>,
) -> Result<Value, NoMemory>
    requires { has_float (view id.now) ≡ false }
    ensures told { IfOk result (λ v. AnswersOpen L.Finds method session.old (view id.now)
        (option_map (λ p. view p.now) params.entry) (view v ∷ []) session.new) }
    ensures float_free { IfOk result (λ v. has_float (view v) ≡ false) }
{
    match method {
        Method::Initialize => refuse(
            alloc,
            id,
            Fault::NoRequest,
            "the server is initialized already",
        ),
        Method::Shutdown => {
            let response = done(alloc, id, Value::Null)?;
            session.phase = Phase::ShutDown;
            Ok(response)
        }
        Method::Query(query) => find_in(alloc, language, session, query, id, params),
        Method::Unknown => refuse(alloc, id, Fault::UnknownMethod, "this method is not known"),
    }
}

/// Answers a request to a server that is not initialized yet.
fn answer_new(
    alloc: Global,
    session: &mut Session,
    method: Method,
    id: &Value,
) -> Result<Value, NoMemory>
    requires { has_float (view id.now) ≡ false }
    ensures told { IfOk result (λ v. AnswersNew method session.old (view id.now) (view v ∷ []) session.new) }
    ensures float_free { IfOk result (λ v. has_float (view v) ≡ false) }
{
    match method {
        Method::Initialize => {
            let response = done(alloc, id, capabilities(alloc)?)?;
            session.phase = Phase::Open;
            Ok(response)
        }
        Method::Shutdown | Method::Query(_) | Method::Unknown => refuse(
            alloc,
            id,
            Fault::NotInitialized,
            "the server is not initialized",
        ),
    }
}

/// Answers a request, by one response.
fn answer_request<L: Language>(
    alloc: Global,
    language: &L,
    session: &mut Session,
    method: Method,
    id: &Value,
    params: Option<&Value>,
) -> Result<Value, NoMemory>
    requires { has_float (view id.now) ≡ false }
    ensures told { IfOk result (λ v. AnswersIn L.Finds session.old.phase method session.old (view id.now)
        (option_map (λ p. view p.now) params.entry) (view v ∷ []) session.new) }
    ensures float_free { IfOk result (λ v. has_float (view v) ≡ false) }
{
    match session.phase {
        Phase::New => answer_new(alloc, session, method, id),
        Phase::Open => answer_open(alloc, language, session, method, id, params),
        Phase::ShutDown => refuse(alloc, id, Fault::NoRequest, "the server is shut down"),
    }
}

/// Answers a message.
fn answer_message<L: Language>(
    alloc: Global,
    language: &L,
    session: &mut Session,
    message: Message<'_>,
) -> Result<Option<Value>, NoMemory>
    requires { (said : Data) × (message_view message ≡ heard_in said) }
    ensures told { IfOk result (λ reply. AnswersHeard L.Diagnoses L.Finds (message_view message.entry)
        session.old (told_by reply) session.new) }
    ensures float_free { IfOk result (λ reply. AreFloatFree (told_by reply)) }
{
    match message {
        Message::Request(id, call) => {
            let method = method_of(call.method);
            let response = answer_request(alloc, language, session, method, id, call.params)?;
            Ok(Some(response))
        }
        Message::Notification(call) => hear(alloc, language, session, call),
        Message::Response => Ok(None),
        Message::Neither => {
            let response = refuse(
                alloc,
                &Value::Null,
                Fault::NoRequest,
                "this is not a request",
            )?;
            Ok(Some(response))
        }
    }
}

/// Answers the content of a message: a request by one response, a notification and a response by none.
pub fn answer_content<L: Language>(
    alloc: Global,
    language: &L,
    session: &mut Session,
    content: &[u8],
) -> Result<Option<Value>, NoMemory>
    ensures answers { IfOk result (λ reply. AnswersContent L.Diagnoses L.Finds session.old content.now (told_by reply) session.new) }
    ensures float_free { IfOk result (λ reply. AreFloatFree (told_by reply)) }
{
    match Value::from_slice(alloc, content) {
        Ok(value) => answer_message(alloc, language, session, message_of(&value)),
        Err(error) => {
            if error.is_memory() {
                return Err(NoMemory);
            }
            let response = refuse(alloc, &Value::Null, Fault::NoJson, "this is not JSON")?;
            Ok(Some(response))
        }
    }
}
