//! Where a byte of a text is, and how that is shown: the line of the text with a mark under the byte. And how near two words
//! are, for words that are probably misspelt.
#![tactic(auto)]

mod character;
mod excerpt;
mod place;
mod shown;
mod spelling;

pub use excerpt::show_place;
pub use place::{Place, line_end, place_of};
pub use shown::{printable, printable_byte};
pub use spelling::{is_near, nearest};
