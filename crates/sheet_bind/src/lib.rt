//! The place, the trees of the steps, the pairs and the theorem of a worksheet over an opened database, or its first
//! fault there.
#![tactic(auto)]

mod binding;
mod faults;
mod hyps;
mod marks;
mod pairs;
mod rules;
mod scene;
mod setting;
mod steps;
mod symbols;
mod theorem;
mod tokens;
mod work_size;

pub use binding::{bind_sheet, sheet_theorem};
pub use faults::{BindCode, BindFault};
pub use solve_model::{Bound, BoundStep};
pub use work_size::standing_size;
