//! Objects: the text of code, in two formats, read and written.
#![tactic(auto)]

mod assemble;
mod fault;
mod first;
mod instr_reader;
mod instr_writer;
pub mod laws;
mod line_reader;
mod object;
mod place_reader;
mod reader;
mod rows;
mod words;
mod writer;

pub use fault::ObjectFault;
pub use first::fits_first_format;
pub use object::{read_any, read_object};
pub use writer::{write_object, write_object2};
