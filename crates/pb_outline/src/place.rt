//! Places of names.

ghost use Rattle.std.specs.Prelude.{◌≡◌};
ghost use Rattle.pb_outline.specs.Places as spec;

/// What a name names. Each kind has names of its own, and each process has its own integers.
#[derive(Clone, Copy, Debug, PartialEq, Eq)]
pub enum Kind {
    /// A resource.
    Resource,
    /// A process.
    Process,
    /// An integer of the process with this number, from 0 in the order of declaration.
    Integer(usize),
}

/// A place of a text where a name stands.
#[derive(Clone, Copy, Debug)]
pub struct Place<'t> {
    /// What the name names.
    pub kind: Kind,
    /// The bytes of the name.
    pub text: &'t [u8],
    /// The byte offset of its first byte, from 0.
    pub at: usize,
    /// Whether the name is declared here, or else used.
    pub declares: bool,
}

/// Returns whether both are resources, or processes, or integers of one process.
pub(crate) fn same_kind(one: Kind, other: Kind) -> bool
    ensures { result ≡ spec.same_kind one other }
{
    match (one, other) {
        (Kind::Resource, Kind::Resource) | (Kind::Process, Kind::Process) => true,
        (Kind::Integer(p), Kind::Integer(q)) => p == q,
        _ => false,
    }
}

/// Returns whether the other place is one of the same name.
#[tactic(auto, unfolding(crate::specs::Places::is_same_name))]
pub(crate) fn is_same_name(one: &Place<'_>, other: &Place<'_>) -> bool
    ensures { result ≡ spec.is_same_name (spec.place one.now) (spec.place other.now) }
{
    same_kind(one.kind, other.kind) && one.text == other.text
}

/// Returns whether the other place declares the name of this one.
pub(crate) fn declares_name(one: &Place<'_>, other: &Place<'_>) -> bool
    ensures { result ≡ spec.declares_name (spec.place one.now) (spec.place other.now) }
{
    other.declares && is_same_name(one, other)
}

/// Returns whether an offset is in the name, or right after it.
pub(crate) fn is_at(offset: usize, place: &Place<'_>) -> bool
    ensures { result ≡ spec.is_at offset (spec.place place.now) }
{
    place.at <= offset && offset - place.at <= place.text.len()
}
