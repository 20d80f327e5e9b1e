//! Writes the replies of an editor session as lines of JSON.
#![tactic(auto)]

mod line;
mod replies;
mod values;

pub use replies::{
    error_reply, no_request_reply, no_suggestion_reply, ok_reply, suggest_reply, unify_reply,
};
