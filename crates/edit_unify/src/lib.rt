//! The reply to the request to unify an open sheet.
#![tactic(auto)]

mod reply;

pub use reply::reply_to_unify;
