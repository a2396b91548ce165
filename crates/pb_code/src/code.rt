//! The types of code: that of a process and that of a program.

use crate::instr::Instr;
use pb_base::{Bundle, Capital, Claims, Names};

/// The code of one process.
#[derive(Drop)]
pub struct ProcessCode {
    /// How many integers the process has, at most 64.
    pub integers: u8,
    /// The place at which each arm begins, by its number.
    pub entries: Vec<u16>,
    /// What `take` and `give` ask for and hand back, which name a bundle by its number here.
    pub bundles: Vec<Bundle>,
    /// The instructions, by their place. Arms follow one another by number.
    pub instrs: Vec<Instr>,
}

/// The code of a program: names, capital and claims, and the code of each process by its number.
#[derive(Drop)]
pub struct Code {
    pub names: Names,
    pub capital: Capital,
    pub claims: Claims,
    pub processes: Vec<ProcessCode>,
}
