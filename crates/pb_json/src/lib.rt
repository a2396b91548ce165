//! JSON, written: strings of any bytes, integers and lists. All that is written is ASCII, with no control
//! byte and no `<`, so that it can stand in an HTML page as it is.
#![tactic(auto)]

pub mod laws;
mod list;
mod string;

pub use list::{is_exact, put_comma, put_integer, put_integers};
pub use string::{hex_digit, is_plain, put_string};
