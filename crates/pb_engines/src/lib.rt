//! The engines: what each command does over any input, teller and output. Those that run no workers are of pb_accept.
#![tactic(auto)]

mod drawn;
mod exec;
mod faults;
mod record;
mod record_laws;
mod report;
mod run;
mod run_laws;
mod written;

pub use drawn::record_drawn_engine;
pub use exec::exec_engine;
pub use pb_accept::{write_checks, write_claims, write_emission, write_migration, write_replay};
pub use pb_options::{CheckOptions, EmitOptions, Lend, RecordOptions, ReplayOptions, RunOptions};
pub use record::record_engine;
pub use run::run_engine;
pub use written::{write_drawn_record, write_execution, write_record, write_run};
