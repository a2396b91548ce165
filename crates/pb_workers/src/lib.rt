//! Worker threads that run one program.
#![tactic(auto)]

mod fault;
mod gate;
mod met;
mod report;
mod running;
mod work;

pub use fault::RunFault;
pub use gate::Gate;
pub use report::Report;
pub use running::run_workers;
