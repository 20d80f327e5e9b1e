//! Unifies a worksheet with an opened database, and writes it back with its report.
#![tactic(auto)]

mod drafting;
mod ending;
mod faults;
mod judging;
mod keeping;
mod kept;
mod lines;
mod outcome;
mod printed;
mod refusal_line;
mod unify;
mod words;

pub use faults::UnifyFault;
pub use lines::report_lines;
pub use outcome::Outcome;
pub use refusal_line::fault_line;
pub use sheet_bind::BindCode;
pub use sheet_read::SheetCode;
pub use unify::{unify_read, unify_sheet};
pub use written_model::{DvMode, Options, ProofStyle, ReportLine, ReportVerdict};
