//! What is told of the steps of a worksheet that is written: the pairs of distinct variables that it has, the report, and
//! whether it is finished.
#![tactic(auto)]

mod finished;
mod pairs;
mod report;

pub use finished::is_finished;
pub use pairs::written_pairs;
pub use report::report_of;
