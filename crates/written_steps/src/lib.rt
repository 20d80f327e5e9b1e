//! The steps of a worksheet that is being written, as the code has them: with the labels of their references in place of
//! assertions.
#![tactic(auto)]

mod database_names;
mod draft;
mod places;
mod uses;

pub use database_names::{label_name, symbol_name};
pub use draft::{DraftItem, DraftStep, StepUse, draft_steps};
pub use places::in_order;
pub use uses::{hyp_count, pairs, variables};
