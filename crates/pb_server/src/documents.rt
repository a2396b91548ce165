//! The documents that are open.

ghost use Rattle.std.specs.Prelude.{◌≡◌, ◌<◌, IfSome, OnOk, length, map, option_map};
ghost use Rattle.pb_server.specs.Documents as spec;
ghost use Rattle.pb_server.specs.Documents.{document_view};

use pb_base::NoMemory;
use std::alloc::Global;

/// A document, by its name, with its text.
#[derive(Drop)]
pub struct Document {
    pub uri: String,
    pub text: String,
}

/// Returns whether a document has this name.
fn is_named(document: &Document, uri: &str) -> bool
    ensures { result ≡ spec.is_named uri.now (document_view document.now) }
{
    document.uri.as_bytes() == uri.as_bytes()
}

/// Returns the place of the document with this name.
fn place_of(documents: &[Document], uri: &str) -> Option<usize>
    ensures place { result ≡ spec.place_of uri.now (map document_view documents.now) }
    ensures within { IfSome result (λ i. i < length documents.now) }
{
    for i in 0..documents.len() {
        if is_named(&documents[i], uri) {
            return Some(i);
        }
    }
    None
}

/// Returns the text of the document with this name, if it is open.
pub fn text_of<'d>(documents: &'d [Document], uri: &str) -> Option<&'d str>
    ensures { option_map (λ t. t.now) result ≡ spec.text_of uri.now (map document_view documents.now) }
{
    match place_of(documents, uri) {
        Some(i) => Some(documents[i].text.as_str()),
        None => None,
    }
}

/// Closes the document with this name.
pub fn close(documents: &mut Vec<Document>, uri: &str)
    ensures { map document_view documents.new.items ≡ spec.without uri.now (map document_view documents.old.items) }
{
    if let Some(i) = place_of(documents.as_slice(), uri) {
        let _ = documents.remove(i);
    }
}

/// Gives the document with this name a text, and opens it if it is not open.
pub fn set_text(
    alloc: Global,
    documents: &mut Vec<Document>,
    uri: &str,
    text: &str,
) -> Result<(), NoMemory>
    ensures { OnOk result (map document_view documents.new.items ≡ spec.with_text uri.now text.now (map document_view documents.old.items)) }
{
    let document = Document {
        uri: String::from_str(alloc, uri)?,
        text: String::from_str(alloc, text)?,
    };
    close(documents, uri);
    documents.push(document)?;
    Ok(())
}
