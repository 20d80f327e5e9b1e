//! The steps of a judged worksheet with their missing places filled: by earlier steps of the formulas that are wanted, or by
//! new steps.
#![tactic(auto)]

mod accepted;
mod copies;
mod drafts;
mod fault;
mod filling;
mod kept;
mod laws;
mod places;
mod wanted;

pub use fault::FillFault;
pub use filling::fill_items;
pub use laws::{chain_is_counted, long_is_first, typed_is_counted};
