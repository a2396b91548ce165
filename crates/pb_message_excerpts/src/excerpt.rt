//! The place of a byte, shown: its line of the text, with a mark.

ghost use Rattle.std.specs.Prelude.{◌≡◌, ◌≤◌, ◌++◌, length, IfOk, OnOk};
ghost use Rattle.std.specs.Fmt.{decimal};
ghost use Rattle.pb_message_excerpts.specs.Places.{IsPlace, arrow_line, bar_line, excerpt, margin_of, mark_line, source_line};

use crate::place::{Place, place_of};
use crate::shown::{put_below, put_below_shown, put_shown};
use pb_base::NoMemory;
use pb_base::writing::put_digits;
use std::alloc::Global;

/// The most bytes that are shown of a line on each side of a place.
const WIDTH: usize = 100;

/// Returns the place of a byte of a text, or of its end, as a message shows it: its line and column, with a
/// label before them, and the line of the text with a mark under the byte. Of a long line 100 bytes on each
/// side are shown.
pub fn show_place(
    alloc: Global,
    label: &[u8],
    text: &[u8],
    offset: usize,
) -> Result<Vec<u8>, NoMemory>
    requires { offset ≤ length text.now }
    ensures { IfOk result (λ shown. (place : Place) × IsPlace text.now offset place
        × (shown.items ≡ excerpt label.now text.now place)) }
{
    let place = place_of(text, offset);
    show(alloc, label, text, &place)
}

/// Returns a place as a message shows it.
fn show(alloc: Global, label: &[u8], text: &[u8], place: &Place) -> Result<Vec<u8>, NoMemory>
    requires { IsPlace text.now place.now.at place.now }
    ensures { IfOk result (λ shown. shown.items ≡ excerpt label.now text.now place.now) }
{
    let mut shown = Vec::new(alloc);
    put_excerpt(&mut shown, label, text, place)?;
    Ok(shown)
}

/// Appends a place to `out`, as a message shows it.
fn put_excerpt(out: &mut Vec<u8>, label: &[u8], text: &[u8], place: &Place) -> Result<(), NoMemory>
    requires { IsPlace text.now place.now.at place.now }
    ensures { OnOk result (out.new.items ≡ out.old.items ++ excerpt label.now text.now place.now) }
{
    put_arrow(out, label, place)?;
    put_bar(out, place)?;
    put_source(out, text, place)?;
    put_mark(out, text, place)?;
    Ok(())
}

/// Appends the margin of a place to `out`.
fn put_margin(out: &mut Vec<u8>, place: &Place) -> Result<(), NoMemory>
    ensures { OnOk result (out.new.items ≡ out.old.items ++ margin_of place.now) }
{
    let mut digits = itoa::Buffer::new();
    put_below(out, digits.format(place.line).as_bytes())?;
    out.push(b' ')?;
    Ok(())
}

fn put_arrow(out: &mut Vec<u8>, label: &[u8], place: &Place) -> Result<(), NoMemory>
    ensures { OnOk result (out.new.items ≡ out.old.items ++ arrow_line label.now place.now) }
{
    put_margin(out, place)?;
    out.extend_from_slice(b"--> ")?;
    out.extend_from_slice(label)?;
    out.extend_from_slice(b"line ")?;
    put_digits(out, place.line)?;
    out.extend_from_slice(b", column ")?;
    put_digits(out, place.column)?;
    out.push(b'\n')?;
    Ok(())
}

fn put_bar(out: &mut Vec<u8>, place: &Place) -> Result<(), NoMemory>
    ensures { OnOk result (out.new.items ≡ out.old.items ++ bar_line place.now) }
{
    put_margin(out, place)?;
    out.extend_from_slice(b"|\n")?;
    Ok(())
}

fn put_source(out: &mut Vec<u8>, text: &[u8], place: &Place) -> Result<(), NoMemory>
    requires { IsPlace text.now place.now.at place.now }
    ensures { OnOk result (out.new.items ≡ out.old.items ++ source_line text.now place.now) }
{
    let from = place.at - WIDTH.min(place.at - place.begin);
    let to = place.at + WIDTH.min(place.end - place.at);
    put_digits(out, place.line)?;
    out.extend_from_slice(b" | ")?;
    put_shown(out, &text[from..to])?;
    out.push(b'\n')?;
    Ok(())
}

fn put_mark(out: &mut Vec<u8>, text: &[u8], place: &Place) -> Result<(), NoMemory>
    requires { IsPlace text.now place.now.at place.now }
    ensures { OnOk result (out.new.items ≡ out.old.items ++ mark_line text.now place.now) }
{
    let from = place.at - WIDTH.min(place.at - place.begin);
    put_margin(out, place)?;
    out.extend_from_slice(b"| ")?;
    put_below_shown(out, &text[from..place.at])?;
    out.extend_from_slice(b"^\n")?;
    Ok(())
}
