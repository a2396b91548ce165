//! The lines of a circular wait.

ghost use Rattle.std.specs.Prelude.{◌≡◌, ◌<◌, ◌++◌, List, ℕ, length, flat_map, All, OnOk};
ghost use Rattle.pb_base.specs.Lines.{names_view};
ghost use Rattle.pb_circles.specs.Links.{HasNamesOf};
ghost use Rattle.pb_debug_texts.specs.Circles as said;
ghost use Rattle.pb_debug_texts.specs.Circles.{SaysCircle};
ghost use Rattle.pb_machine.specs.Views.{machine_view, IsMachine};

use crate::text::end_name;
use pb_base::writing::{put, put_name, put_number};
use pb_base::{Names, NoMemory};
use pb_circles::{Link, find_circle};
use pb_machine::Machine;
use pb_verifier::Verified;
use std::alloc::Global;

/// Appends the line of a link to a text.
fn put_link(text: &mut Vec<u8>, names: &Names, link: Link) -> Result<(), NoMemory>
    requires { HasNamesOf (names_view names.now) link }
    ensures { OnOk result (text.new.items ≡ text.old.items ++ said.link_text (names_view names.now) link) }
{
    put(text, &names.processes[link.process])?;
    put_number(text, b".", link.arm)?;
    put_name(text, b" waits ", &names.resources[link.resource])?;
    end_name(text, b" holder ", &names.processes[link.holder])
}

/// Appends the lines of links to a text.
fn put_links(text: &mut Vec<u8>, names: &Names, links: &[Link]) -> Result<(), NoMemory>
    requires { All (HasNamesOf (names_view names.now)) links.now }
    ensures { OnOk result (text.new.items
        ≡ text.old.items ++ flat_map (said.link_text (names_view names.now)) links.now) }
{
    for k in 0..links.len() {
        put_link(text, names, links[k])?;
    }
    Ok(())
}

/// Appends the lines of a circular wait of a machine to a text, or a line that there is none. The machine was
/// made from this code. The error comes only if out of memory.
pub fn put_circle(
    text: &mut Vec<u8>,
    alloc: Global,
    verified: &Verified,
    machine: &Machine,
) -> Result<(), NoMemory>
    requires { IsMachine verified.now machine.now }
    ensures { OnOk result ((said : List ℕ) × SaysCircle verified.now.code (machine_view machine.now) said
        × (text.new.items ≡ text.old.items ++ said)) }
{
    match find_circle(alloc, verified, machine)? {
        Some(circle) => put_links(text, verified.names(), &circle),
        None => put(text, b"no circle\n"),
    }
}
