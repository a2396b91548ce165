//! The engine behind the command `dap`: the Debug Adapter Protocol over any input and output.
#![tactic(auto)]

mod adapter;
mod launch;
mod launched;
mod session;
mod waiting;

pub use adapter::adapter_engine;
