//! Reading the text of a worksheet: its header, comments, steps, `$d` statements and footer, or the first fault of the
//! text with its line.
#![tactic(auto)]

mod fault;
mod forms;
mod lines;
mod proof_line;
mod reader;
mod reading;
mod statements;

pub use fault::{SheetCode, SheetFault};
pub use proof_line::proof_tokens;
pub use reading::read_sheet;
pub use sheet_text::{Given, PairLine, Sheet, SheetItem, SheetStep};
