//! What notifications change, and what is published then.

ghost use Rattle.std.specs.Prelude.{◌≡◌, [], IfOk, option_map};
ghost use Rattle.serde_json.specs.View.{view};
ghost use Rattle.pb_conversations.specs.Conversations.{AreFloatFree};
ghost use Rattle.pb_server.specs.Answers.{Closes, Hears, HearsExit, HearsOpen, TakesText, open_uri as open_uri_of};
ghost use Rattle.pb_server.specs.Messages.{call_view};
ghost use Rattle.pb_server.specs.Responses.{told_by};

use crate::documents::{close, set_text, text_of};
use crate::language::Language;
use crate::message::Call;
use crate::method::{Notice, notice_of};
use crate::params::{changed_text, opened_text, uri_in, version_in};
use crate::response::{no_diagnostics, publishing};
use crate::session::{Phase, Session};
use pb_base::NoMemory;
use serde_json::Value;
use std::alloc::Global;

/// Gives a document a text, and publishes its diagnostics.
fn take_text<L: Language>(
    alloc: Global,
    language: &L,
    session: &mut Session,
    version: Option<u64>,
    uri: Option<&str>,
    text: Option<&str>,
) -> Result<Option<Value>, NoMemory>
    ensures told { IfOk result (λ reply. TakesText L.Diagnoses session.old version (option_map (λ t. t.now) uri.entry)
        (option_map (λ t. t.now) text.entry) (told_by reply) session.new) }
    ensures float_free { IfOk result (λ reply. AreFloatFree (told_by reply)) }
{
    let (Some(uri), Some(text)) = (uri, text) else {
        return Ok(None);
    };
    let items = language.diagnose(alloc, uri, text)?;
    let message = publishing(alloc, uri, version, items)?;
    set_text(alloc, &mut session.documents, uri, text)?;
    Ok(Some(message))
}

/// Closes a document, which has no diagnostics then.
fn close_document(
    alloc: Global,
    session: &mut Session,
    uri: Option<&str>,
) -> Result<Option<Value>, NoMemory>
    ensures told { IfOk result (λ reply. Closes session.old (option_map (λ t. t.now) uri.entry) (told_by reply) session.new) }
    ensures float_free { IfOk result (λ reply. AreFloatFree (told_by reply)) }
{
    let Some(uri) = uri else {
        return Ok(None);
    };
    let message = publishing(alloc, uri, None, no_diagnostics(alloc)?)?;
    close(&mut session.documents, uri);
    Ok(Some(message))
}

/// Returns the name of a document, if it is open.
fn open_uri<'v>(session: &Session, uri: Option<&'v str>) -> Option<&'v str>
    ensures { option_map (λ t. t.now) result ≡ open_uri_of session.now.documents (option_map (λ t. t.now) uri.entry) }
{
    let uri = uri?;
    match text_of(session.documents.as_slice(), uri) {
        Some(_) => Some(uri),
        None => None,
    }
}

/// Hears a notification, while the server is initialized and not shut down.
fn hear_open<L: Language>(
    alloc: Global,
    language: &L,
    session: &mut Session,
    notice: Notice,
    params: Option<&Value>,
) -> Result<Option<Value>, NoMemory>
    ensures told { IfOk result (λ reply. HearsOpen L.Diagnoses notice session.old
        (option_map (λ p. view p.now) params.entry) (told_by reply) session.new) }
    ensures float_free { IfOk result (λ reply. AreFloatFree (told_by reply)) }
{
    let version = version_in(params);
    match notice {
        Notice::Opened => {
            let uri = uri_in(params);
            take_text(alloc, language, session, version, uri, opened_text(params))
        }
        Notice::Changed => {
            let uri = open_uri(session, uri_in(params));
            take_text(alloc, language, session, version, uri, changed_text(params))
        }
        Notice::Closed => {
            let uri = open_uri(session, uri_in(params));
            close_document(alloc, session, uri)
        }
        Notice::Exit => {
            session.over = true;
            Ok(None)
        }
        Notice::Other => Ok(None),
    }
}

/// Hears that the client goes, and nothing else.
fn hear_exit(session: &mut Session, notice: Notice)
    ensures { HearsExit notice session.old [] session.new }
{
    match notice {
        Notice::Exit => session.over = true,
        Notice::Opened | Notice::Changed | Notice::Closed | Notice::Other => {}
    }
}

/// Hears a notification.
pub fn hear<L: Language>(
    alloc: Global,
    language: &L,
    session: &mut Session,
    call: Call<'_>,
) -> Result<Option<Value>, NoMemory>
    ensures told { IfOk result (λ reply. Hears L.Diagnoses session.old (call_view call.entry) (told_by reply) session.new) }
    ensures float_free { IfOk result (λ reply. AreFloatFree (told_by reply)) }
{
    let notice = notice_of(call.method);
    match session.phase {
        Phase::Open => hear_open(alloc, language, session, notice, call.params),
        Phase::New | Phase::ShutDown => {
            hear_exit(session, notice);
            Ok(None)
        }
    }
}
