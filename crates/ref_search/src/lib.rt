//! The assertions of a database that fit a formula and listed hypotheses: the first one, or all.
#![tactic(auto)]

mod closed;
mod completing;
mod fitting;
mod matching;
mod placing;
mod searching;
mod shapes;
mod sought;
mod wanted;

pub use closed::{is_closed, is_ground};
pub use completing::{Conditions, complete};
pub use fitting::all;
pub use matching::matches;
pub use searching::{first, frame_of, head};
pub use wanted::{Found, Wanted};
