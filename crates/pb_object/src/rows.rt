//! What the lines of an object say, before they are code.

use pb_code::{Format, ProcessCode, ProcessLabels};

/// A resource and its capital.
#[derive(Drop)]
pub(crate) struct ResourceRow {
    pub(crate) name: Vec<u8>,
    pub(crate) capital: u32,
}

/// A process, with its claim on each resource.
#[derive(Drop)]
pub(crate) struct ProcessRow {
    pub(crate) name: Vec<u8>,
    pub(crate) claims: Vec<u64>,
    pub(crate) code: ProcessCode,
    pub(crate) labels: ProcessLabels,
}

/// All of an object.
#[derive(Drop)]
pub(crate) struct Rows {
    pub(crate) format: Format,
    pub(crate) resources: Vec<ResourceRow>,
    pub(crate) processes: Vec<ProcessRow>,
}
