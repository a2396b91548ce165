//! The law of strings, as the contract of a function that does nothing.

ghost use Rattle.pb_json.specs.Strings.{StringsSayTheirBytes};

/// A reader of JSON makes of the string of any bytes just these bytes; what is written is ASCII from the
/// space on, with no `<`, and a quote only after a backslash.
pub fn strings_say_their_bytes()
    ensures { StringsSayTheirBytes }
{}
