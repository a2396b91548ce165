//! What an input names: a layout, and then files, each by two messages.

ghost use Rattle.std.specs.Prelude.{◌≡◌, ◌≢◌, ◌++◌, ℕ, List, IfOk, MatchOption};
ghost use Rattle.pb_findings.specs.Entries.{IsFileEntry, IsFirstLayout, NamesLayout, IsNextContent, IsNextEntry, fault_next};
ghost use Rattle.pb_findings.specs.declared.entry.Entry.{Entry as AnyEntry};
ghost use Rattle.pb_findings.specs.declared.entry.Layout.{Layout as AnyLayout};

use pb_base::{MemoryInput, NoMemory};
use pb_frames::{FrameFault, read_frame};
use std::alloc::Global;

/// In which layout findings are written.
#[derive(Drop)]
pub enum Layout {
    /// As lines of a compiler.
    Gcc,
    /// As an object of JSON for each text.
    Json,
    /// As one document of SARIF, of the program of a version.
    Sarif(Vec<u8>),
}

/// A file, by the name that a report is to have for it.
#[derive(Drop)]
pub enum Entry {
    /// A file with its bytes.
    File { name: Vec<u8>, bytes: Vec<u8> },
    /// A file that cannot be read, and why.
    Unread { name: Vec<u8>, reason: Vec<u8> },
    /// A file that is too long.
    Long { name: Vec<u8> },
}

/// What comes next in an input.
#[derive(Drop)]
pub enum Next {
    /// A file.
    Entry(Entry),
    /// Nothing: the input is at its end.
    End,
    /// Something else.
    NoEntry,
    /// Out of memory.
    OutOfMemory,
}

/// What comes first in an input.
#[derive(Drop)]
pub enum First {
    /// A layout.
    Layout(Layout),
    /// Something else, or nothing.
    NoLayout,
    /// Out of memory.
    OutOfMemory,
}

/// Returns what follows these bytes, if the text begins with them.
fn after<'t>(text: &'t [u8], start: &[u8]) -> Option<&'t [u8]>
    ensures { MatchOption result ((rest : List ℕ) → text.now ≢ start.now ++ rest)
        (λ rest. text.now ≡ start.now ++ rest.now) }
{
    text.strip_prefix(start)
}

/// Returns the layout that a message names.
fn layout_of(alloc: Global, named: &[u8]) -> Result<Option<Layout>, NoMemory>
    ensures { IfOk result (λ layout. MatchOption layout ((one : AnyLayout) → ¬ NamesLayout named.now one) (NamesLayout named.now)) }
{
    if named == b"gcc".as_slice() {
        return Ok(Some(Layout::Gcc));
    }
    if named == b"json".as_slice() {
        return Ok(Some(Layout::Json));
    }
    match after(named, b"sarif ") {
        Some(version) => Ok(Some(Layout::Sarif(Vec::from_slice(alloc, version)?))),
        None => Ok(None),
    }
}

/// Returns what two messages say of a file.
fn entry_of(alloc: Global, head: &[u8], content: Vec<u8>) -> Result<Option<Entry>, NoMemory>
    ensures { IfOk result (λ entry. MatchOption entry ((one : AnyEntry) → ¬ IsFileEntry head.now content.items one)
        (IsFileEntry head.now content.items)) }
{
    if let Some(name) = after(head, b"file ") {
        return Ok(Some(Entry::File {
            name: Vec::from_slice(alloc, name)?,
            bytes: content,
        }));
    }
    if let Some(name) = after(head, b"unread ") {
        return Ok(Some(Entry::Unread {
            name: Vec::from_slice(alloc, name)?,
            reason: content,
        }));
    }
    match after(head, b"long ") {
        Some(name) => Ok(Some(Entry::Long {
            name: Vec::from_slice(alloc, name)?,
        })),
        None => Ok(None),
    }
}

/// Returns what a message that is not read comes to.
fn unread(fault: FrameFault) -> Next
    ensures { result ≡ fault_next fault }
{
    match fault {
        FrameFault::Memory | FrameFault::Device => Next::OutOfMemory,
        FrameFault::Early | FrameFault::Malformed | FrameFault::TooLong => Next::NoEntry,
    }
}

/// Reads the second message of a file.
fn next_content(alloc: Global, input: &mut MemoryInput<'_>, head: &[u8]) -> Next
    ensures { IsNextContent input.old head.now result input.new }
{
    match read_frame(alloc, input) {
        Ok(Some(content)) => match entry_of(alloc, head, content) {
            Ok(Some(entry)) => Next::Entry(entry),
            Ok(None) => Next::NoEntry,
            Err(_) => Next::OutOfMemory,
        },
        Ok(None) => Next::NoEntry,
        Err(fault) => unread(fault),
    }
}

/// Reads the next file of an input in memory.
pub fn next_entry(alloc: Global, input: &mut MemoryInput<'_>) -> Next
    ensures { IsNextEntry input.old result input.new }
{
    match read_frame(alloc, input) {
        Ok(Some(head)) => next_content(alloc, input, &head),
        Ok(None) => Next::End,
        Err(fault) => unread(fault),
    }
}

/// Reads the layout that comes first in an input in memory.
pub fn first_layout(alloc: Global, input: &mut MemoryInput<'_>) -> First
    ensures { IsFirstLayout input.old result input.new }
{
    match read_frame(alloc, input) {
        Ok(Some(named)) => match layout_of(alloc, &named) {
            Ok(Some(layout)) => First::Layout(layout),
            Ok(None) => First::NoLayout,
            Err(_) => First::OutOfMemory,
        },
        Ok(None) => First::NoLayout,
        Err(FrameFault::Memory | FrameFault::Device) => First::OutOfMemory,
        Err(FrameFault::Early | FrameFault::Malformed | FrameFault::TooLong) => First::NoLayout,
    }
}
