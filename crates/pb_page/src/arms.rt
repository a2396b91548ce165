//! The entries of arms: where each is, its operands, why it does not go on, and what it does by its next pick.

ghost use Rattle.std.specs.Prelude.{◌≡◌, ◌<◌, ◌++◌, ◌∷◌, [], ℕ, List, length, map, slice_get, Some, IfOk, OnOk};
ghost use Rattle.pb_banker.specs.Lenders.{lending_by};
ghost use Rattle.pb_base.specs.Lines.{names_view};
ghost use Rattle.pb_code.specs.View.{labels_view, process_view};
ghost use Rattle.pb_debug_texts.specs.declared.why.Why.{Why as GivenWhy};
ghost use Rattle.pb_json.specs.Strings.{string_text};
ghost use Rattle.pb_machine.specs.Views.{IsMachineBy, machine_view, proc_view, thread_view};
ghost use Rattle.pb_page.specs.States as spec;
ghost use Rattle.pb_page.specs.States.{AreWhysOf, AreWordsOf, IsWhyOf, IsWhyText, IsWordsText};
ghost use Rattle.pb_page.specs.Texts.{texts};

use pb_base::writing::{put, put_digits, put_number};
use pb_base::{Names, NoMemory};
use pb_code::{Labels, ProcessCode};
use pb_debug_texts::{Labelled, Why, asked, put_next_words, reason};
use pb_json::{put_integers, put_string};
use pb_machine::{Machine, Proc, Thread, ThreadState};
use pb_verifier::Verified;
use std::alloc::Global;

/// Adds an entry.
pub(crate) fn add(entries: &mut Vec<Vec<u8>>, entry: Vec<u8>) -> Result<(), NoMemory>
    ensures { OnOk result (texts entries.new.items ≡ texts entries.old.items ++ entry.items ∷ []) }
{
    entries.push(entry)?;
    Ok(())
}

/// Appends where an arm is.
fn put_place(out: &mut Vec<u8>, faulted: bool, thread: &Thread) -> Result<(), NoMemory>
    ensures { OnOk result (out.new.items ≡ out.old.items ++ spec.place_text faulted (thread_view thread.now)) }
{
    if faulted {
        return put(out, b"-3");
    }
    match thread.place() {
        Some(place) => put_digits(out, place),
        None => match thread.state() {
            ThreadState::Ended => put(out, b"-2"),
            ThreadState::Idle | ThreadState::Live => put(out, b"-1"),
        },
    }
}

/// Returns where an arm is.
fn place_of(alloc: Global, faulted: bool, thread: &Thread) -> Result<Vec<u8>, NoMemory>
    ensures { IfOk result (λ text. text.items ≡ spec.place_text faulted (thread_view thread.now)) }
{
    let mut text = Vec::new(alloc);
    put_place(&mut text, faulted, thread)?;
    Ok(text)
}

/// Adds where each arm of a process is.
pub(crate) fn add_places(
    alloc: Global,
    entries: &mut Vec<Vec<u8>>,
    process: &Proc,
) -> Result<(), NoMemory>
    ensures { OnOk result (texts entries.new.items
        ≡ texts entries.old.items ++ spec.places_of (proc_view process.now)) }
{
    for arm in 0..process.arms() {
        let text = place_of(alloc, process.faulted(), process.thread(arm))?;
        add(entries, text)?;
    }
    Ok(())
}

/// Returns the operands of an arm.
fn operands_of(alloc: Global, thread: &Thread) -> Result<Vec<u8>, NoMemory>
    ensures { IfOk result (λ text. text.items ≡ spec.operands_text (thread_view thread.now)) }
{
    let mut text = Vec::new(alloc);
    put_integers(&mut text, thread.operands())?;
    Ok(text)
}

/// Adds the operands of each arm of a process.
pub(crate) fn add_operands(
    alloc: Global,
    entries: &mut Vec<Vec<u8>>,
    process: &Proc,
) -> Result<(), NoMemory>
    ensures { OnOk result (texts entries.new.items
        ≡ texts entries.old.items ++ spec.operands_of (proc_view process.now)) }
{
    for arm in 0..process.arms() {
        let text = operands_of(alloc, process.thread(arm))?;
        add(entries, text)?;
    }
    Ok(())
}

/// Appends processes, each after a comma.
fn put_numbers(out: &mut Vec<u8>, numbers: &[u8]) -> Result<(), NoMemory>
    ensures { OnOk result (out.new.items ≡ out.old.items ++ spec.numbers_text numbers.now) }
{
    for k in 0..numbers.len() {
        put_number(out, b",", numbers[k])?;
    }
    Ok(())
}

/// Appends the resource of which there is too little cash.
fn put_cash(out: &mut Vec<u8>, resource: u8) -> Result<(), NoMemory>
    ensures { OnOk result (out.new.items ≡ out.old.items ++ spec.cash_text resource) }
{
    put_number(out, b"[\"cash\",", resource)?;
    put(out, b"]")
}

/// Appends the processes that could not finish.
fn put_rest(out: &mut Vec<u8>, rest: &Vec<u8>) -> Result<(), NoMemory>
    ensures { OnOk result (out.new.items ≡ out.old.items ++ spec.why_text (GivenWhy.Rest rest.now)) }
{
    put(out, b"[\"rest\"")?;
    put_numbers(out, rest)?;
    put(out, b"]")
}

/// Appends why an arm does not go on, or may.
fn put_why(out: &mut Vec<u8>, why: &Why) -> Result<(), NoMemory>
    ensures { OnOk result (out.new.items ≡ out.old.items ++ spec.why_text why.now) }
{
    match why {
        Why::NotAsking => put(out, b"0"),
        Why::Order(_) | Why::Granted => put(out, b"1"),
        Why::Cash { resource, .. } => put_cash(out, *resource),
        Why::Rest(rest) => put_rest(out, rest),
    }
}

/// Returns the text of a reason.
fn why_text(alloc: Global, why: &Why) -> Result<Vec<u8>, NoMemory>
    ensures { IfOk result (λ text. text.items ≡ spec.why_text why.now) }
{
    let mut text = Vec::new(alloc);
    put_why(&mut text, why)?;
    Ok(text)
}

/// Returns why an arm of a process does not go on, or may.
fn why_of(
    alloc: Global,
    verified: &Verified,
    machine: &Machine,
    p: usize,
    arm: usize,
) -> Result<Why, NoMemory>
    requires machine { IsMachineBy (lending_by machine.now.bank) verified.now machine.now }
    requires process { p < length (machine_view machine.now).processes }
    requires arm { arm < length (spec.process_at (machine_view machine.now) p).threads }
    ensures { IfOk result (λ why. IsWhyOf (lending_by machine.now.bank) verified.now.code (machine_view machine.now) p
        (spec.thread_at (machine_view machine.now) p arm) why) }
{
    let code = &verified.code().processes[p];
    match asked(code, machine.proc(p).thread(arm)) {
        Some(bundle) => reason(alloc, machine.lender(), p, bundle),
        None => Ok(Why::NotAsking),
    }
}

/// Appends what an arm of a process does by its next pick to a text, if the names of the process are there.
fn put_words(
    text: &mut Vec<u8>,
    labels: &Labels,
    code: &ProcessCode,
    names: &Names,
    process: &Proc,
    p: usize,
    arm: usize,
    why: &Why,
) -> Result<(), NoMemory>
    requires { arm < length (proc_view process.now).threads }
    ensures { OnOk result (text.new.items ≡ text.old.items ++ spec.labelled_words (names_view names.now) p
        (slice_get (labels_view labels.now) p) (process_view code.now) (proc_view process.now) arm why.now) }
{
    match labels.processes.get(p) {
        Some(labels) => {
            let of = Labelled {
                number: p,
                code,
                labels,
                names,
            };
            put_next_words(text, of, process, arm, why)
        }
        None => Ok(()),
    }
}

/// Returns a text as a string.
fn string_of(alloc: Global, text: &[u8]) -> Result<Vec<u8>, NoMemory>
    ensures { IfOk result (λ string. string.items ≡ string_text text.now) }
{
    let mut string = Vec::new(alloc);
    put_string(&mut string, text)?;
    Ok(string)
}

/// Returns what an arm of a process does by its next pick, as a string, it being known why it does not go on, or may.
fn words_of(
    alloc: Global,
    verified: &Verified,
    labels: &Labels,
    machine: &Machine,
    p: usize,
    arm: usize,
    why: &Why,
) -> Result<Vec<u8>, NoMemory>
    requires machine { IsMachineBy (lending_by machine.now.bank) verified.now machine.now }
    requires process { p < length (machine_view machine.now).processes }
    requires arm { arm < length (spec.process_at (machine_view machine.now) p).threads }
    requires why { IsWhyOf (lending_by machine.now.bank) verified.now.code (machine_view machine.now) p
        (spec.thread_at (machine_view machine.now) p arm) why.now }
    ensures { IfOk result (λ text. IsWordsText (lending_by machine.now.bank) verified.now.code (labels_view labels.now)
        (machine_view machine.now) p (spec.process_at (machine_view machine.now) p) arm text.items) }
{
    let code = verified.code();
    let of = &code.processes[p];
    let mut words = Vec::new(alloc);
    put_words(
        &mut words,
        labels,
        of,
        &code.names,
        machine.proc(p),
        p,
        arm,
        why,
    )?;
    string_of(alloc, &words)
}

/// Adds why an arm of a process does not go on, or may, and to `words` what it does by its next pick.
fn add_why(
    alloc: Global,
    entries: &mut Vec<Vec<u8>>,
    words: &mut Vec<Vec<u8>>,
    verified: &Verified,
    labels: &Labels,
    machine: &Machine,
    p: usize,
    arm: usize,
) -> Result<(), NoMemory>
    requires machine { IsMachineBy (lending_by machine.now.bank) verified.now machine.now }
    requires process { p < length (machine_view machine.now).processes }
    requires arm { arm < length (spec.process_at (machine_view machine.now) p).threads }
    ensures whys { OnOk result ((text : List ℕ)
        × IsWhyText (lending_by machine.now.bank) verified.now.code (machine_view machine.now) p
        (spec.thread_at (machine_view machine.now) p arm) text
        × (texts entries.new.items ≡ texts entries.old.items ++ text ∷ [])) }
    ensures words { OnOk result ((text : List ℕ)
        × IsWordsText (lending_by machine.now.bank) verified.now.code (labels_view labels.now) (machine_view machine.now) p
        (spec.process_at (machine_view machine.now) p) arm text
        × (texts words.new.items ≡ texts words.old.items ++ text ∷ [])) }
{
    let why = why_of(alloc, verified, machine, p, arm)?;
    let text = why_text(alloc, &why)?;
    let said = words_of(alloc, verified, labels, machine, p, arm, &why)?;
    add(entries, text)?;
    add(words, said)
}

/// Adds why each arm of a process does not go on, or may, and to `words` what each does by its next pick.
pub(crate) fn add_whys(
    alloc: Global,
    entries: &mut Vec<Vec<u8>>,
    words: &mut Vec<Vec<u8>>,
    verified: &Verified,
    labels: &Labels,
    machine: &Machine,
    p: usize,
) -> Result<(), NoMemory>
    requires machine { IsMachineBy (lending_by machine.now.bank) verified.now machine.now }
    requires process { p < length (machine_view machine.now).processes }
    ensures whys { OnOk result ((part : List (List ℕ))
        × (texts entries.new.items ≡ texts entries.old.items ++ part)
        × AreWhysOf (lending_by machine.now.bank) verified.now.code (machine_view machine.now) p
        (spec.process_at (machine_view machine.now) p) part) }
    ensures words { OnOk result ((part : List (List ℕ))
        × (texts words.new.items ≡ texts words.old.items ++ part)
        × AreWordsOf (lending_by machine.now.bank) verified.now.code (labels_view labels.now) (machine_view machine.now) p
        (spec.process_at (machine_view machine.now) p) part) }
{
    for arm in 0..machine.proc(p).arms() {
        add_why(alloc, entries, words, verified, labels, machine, p, arm)?;
    }
    Ok(())
}
