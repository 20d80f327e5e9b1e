//! Formulas: the trees that they have over the productions of a database, the texts of trees and their sizes.
#![tactic(auto)]

mod chart;
mod entries;
mod found;
mod making;
mod parsing;
mod place_set;
mod reach;
mod search;
mod sizes;
mod texts;

pub use mm_model::Leaf;
pub use parsing::{ParseFault, parse};
pub use sizes::nodes;
pub use texts::text;
