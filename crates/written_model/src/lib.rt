//! The written worksheet: how the missing places are filled, new work variables named and references found, which
//! pairs and which proof are written, the report, and which worksheets are refused. It has definitions and the types that
//! they speak of, and no code of its own.
#![tactic(auto)]

mod filled;
mod options;
mod report;

pub use filled::Filled;
pub use options::{DvMode, Options, ProofStyle};
pub use report::{ReportLine, ReportVerdict};
