//! The steps that missing places name: earlier ones of equal formula, and else new ones with names of their own.
#![tactic(auto)]

mod filling;
mod hash;
mod indexed;
mod naming;
mod step_names;
mod tree_index;

pub use filling::fill;
pub use indexed::fill_from;
pub use naming::step_name;
pub use step_names::StepNames;
pub use tree_index::TreeIndex;
pub use written_model::Filled;
