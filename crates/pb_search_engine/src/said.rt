//! What `outcomes` says.

use crate::item::Item;
use crate::requirements::Requirement;
use pb_accept::Said as PlainSaid;
use pb_base::Names;
use pb_code::Labels;

/// What is found of code, with the names of what it speaks of.
#[derive(Clone, Copy)]
pub struct Shown<'t> {
    pub names: &'t Names,
    pub labels: &'t Labels,
    pub item: &'t Item,
}

/// One thing that is said.
#[derive(Clone, Copy)]
pub enum Said<'t> {
    /// What any command over texts may say.
    Plain(PlainSaid<'t>),
    /// The line of what is asked of a text that begins at this place asks for nothing.
    BadLine(usize),
    /// A text has not what is required of it.
    Lacks(Requirement<'t>),
    /// What is found of code.
    Finds(Shown<'t>),
}
