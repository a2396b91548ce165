//! Things that are said, written in a form.

ghost use Rattle.std.specs.Prelude.{◌≡◌, ◌++◌, OnOk};
ghost use Rattle.pb_base.specs.Lines.{names_view};
ghost use Rattle.pb_bank.specs.Sayings.{saying_of, sayings_of};
ghost use Rattle.pb_bank.specs.Words.{words_of};
ghost use Rattle.pb_bank_engine.specs.Forms.{spoken, text_of};

use pb_bank::{Said, put_line_of, put_object_of};
use pb_base::{Names, NoMemory};
use pb_voice::Form;
use std::alloc::Global;

/// Appends a thing to `out`, in a form: it is said of a command after which this text stands.
fn put_said(
    out: &mut Vec<u8>,
    alloc: Global,
    form: Form,
    names: &Names,
    text: &[u8],
    said: &Said,
) -> Result<(), NoMemory>
    ensures { OnOk result (out.new.items
        ≡ out.old.items ++ text_of form (saying_of (names_view names.now) (words_of text.now) said.now)) }
{
    match form {
        Form::Lines => put_line_of(out, names, text, said),
        Form::Objects => put_object_of(alloc, out, names, text, said),
    }
}

/// Appends things to `out`, one after another, each in the same form.
pub(crate) fn put_sayings(
    out: &mut Vec<u8>,
    alloc: Global,
    form: Form,
    names: &Names,
    text: &[u8],
    all: &[Said],
) -> Result<(), NoMemory>
    ensures { OnOk result (out.new.items
        ≡ out.old.items ++ spoken form (sayings_of (names_view names.now) (words_of text.now) all.now)) }
{
    for said in all {
        put_said(out, alloc, form, names, text, said)?;
    }
    Ok(())
}
