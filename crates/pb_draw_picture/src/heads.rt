//! What is said above a picture of a run that ends in a deadlock.

ghost use Rattle.std.specs.Prelude.{◌≡◌, ◌≤◌, ◌++◌, ◌^◌, IfOk, OnOk, map};
ghost use Rattle.std.specs.List.{flat_map};
ghost use Rattle.pb_base.specs.Lines.{names_view};
ghost use Rattle.pb_draw_picture.specs.Heads as spec;
ghost use Rattle.pb_draw_picture.specs.Shapes.{text_of};

use crate::captions::put_name;
use crate::picture::{Label, LabelKind};
use crate::sizes::{CHARACTER, HEAD_Y, MARGIN, MAX_HEAD, MIN_WIDTH, RIGHT, WIDEST};
use pb_base::writing::{put, put_number};
use pb_base::{Names, NoMemory};
use pb_circles::Link;
use std::alloc::Global;

/// What is said of a run that ends in a deadlock.
pub(crate) const DEADLOCK_NOTE: &[u8] = b"deadlock: no arm can go on";

fn deadlock_note() -> &'static [u8]
    ensures { result.now ≡ spec.deadlock_note }
{
    DEADLOCK_NOTE
}

/// Appends who waits for what, and who holds some of it, to `text`.
fn put_link(text: &mut Vec<u8>, names: &Names, link: &Link) -> Result<(), NoMemory>
    ensures { OnOk result (text.new.items ≡ text.old.items ++ spec.link_text (names_view names.now) link.now) }
{
    put(text, b"; ")?;
    put_name(text, &names.processes, link.process)?;
    put_number(text, b".", link.arm)?;
    put(text, b" waits for ")?;
    put_name(text, &names.resources, link.resource)?;
    put(text, b", some of which ")?;
    put_name(text, &names.processes, link.holder)?;
    put(text, b" holds")
}

/// Appends that of each link of a circular wait to `text`.
fn put_links(text: &mut Vec<u8>, names: &Names, circle: &[Link]) -> Result<(), NoMemory>
    ensures { OnOk result (text.new.items ≡ text.old.items ++ flat_map (spec.link_text (names_view names.now)) circle.now) }
{
    for i in 0..circle.len() {
        put_link(text, names, &circle[i])?;
    }
    Ok(())
}

/// Returns what is said above a picture: if its run ends in a deadlock that it does, and who waits for what in a circle.
pub(crate) fn head_of(
    alloc: Global,
    names: &Names,
    deadlock: bool,
    circle: &[Link],
) -> Result<Vec<u8>, NoMemory>
    ensures { IfOk result (λ text. text.items ≡ spec.head_of (names_view names.now) deadlock circle.now) }
{
    let mut text = Vec::new(alloc);
    if deadlock {
        let note = deadlock_note();
        put(&mut text, note)?;
        put_links(&mut text, names, circle)?;
    }
    Ok(text)
}

/// Adds what is said above a picture, if something is.
pub(crate) fn add_head(head: Vec<u8>, labels: &mut Vec<Label>) -> Result<(), NoMemory>
    ensures { OnOk result (map text_of labels.new.items ≡ map text_of labels.old.items ++ spec.head_labels head.items) }
{
    if 0 < head.len() {
        labels.push(Label {
            kind: LabelKind::Deadlock,
            x: MARGIN,
            y: HEAD_Y,
            text: head,
        })?;
    }
    Ok(())
}

/// Returns how wide a picture is whose time ends at a place, and above which this is said.
pub(crate) fn width_for(right: u64, head: &[u8]) -> u64
    requires { right ≤ 2 ^ 44 }
    ensures width { result ≡ spec.width_for right head.now }
    ensures near { result ≤ WIDEST }
{
    let room = (head.len() as u64).min(MAX_HEAD) * CHARACTER + MARGIN + RIGHT;
    (right + RIGHT).max(MIN_WIDTH).max(room)
}
