//! The engines, each called over inputs and outputs in memory.

mod check;
mod claims;
mod devices;
mod emit;
mod exec;
mod migrate;
mod page;
mod record;
mod replay;
mod run;
mod status;
