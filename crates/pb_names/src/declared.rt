//! Names that are declared.

ghost use Rattle.std.specs.Prelude.{◌-◌, length, map};
ghost use Rattle.pb_names.specs.Index.{IsLinked};

use std::alloc::Allocator;

/// The names of one kind in order of declaration. Each slot has the number of its first name, and each name
/// that of the next one in its slot; past the last comes their count.
#[derive(Drop)]
pub struct Declared<'t, A: Allocator> {
    pub(crate) texts: Vec<&'t [u8], A>,
    pub(crate) first_of: Vec<usize, A>,
    pub(crate) next_of: Vec<usize, A>,
    ghost linked: { IsLinked (map (λ text. text.now) texts.items) (length first_of.items - 1) 0
        first_of.items next_of.items },
}
