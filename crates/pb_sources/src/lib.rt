//! Whether the first part of an input is a text or an object, for commands that take either.
#![tactic(auto)]

ghost use Rattle.std.specs.Prelude.{◌↔◌, IsTrue};
ghost use Rattle.pb_sources.specs.Sources.{IsObjectPart};

/// Returns whether a first part is an object. No text begins so.
pub fn is_object(source: &[u8]) -> bool
    ensures { IsTrue result ↔ IsObjectPart source.now }
{
    source.starts_with(b"PBO ")
}
