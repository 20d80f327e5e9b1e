//! Laws over the definitions on databases and trees. Each is the contract of a function that does nothing.
#![tactic(auto)]

mod chains;
mod databases;
mod frames;
mod trees;

pub use chains::{kept_rows_are_a_grammar, kept_rows_have_no_cycle, leads_by_paths};
pub use databases::{
    active_names_are_plain, databases_have_places, databases_have_symbols,
    databases_of_a_text_agree, frames_are_whole, has_database_facts, labels_are_distinct,
    names_are_words, positions_rise, rows_are_a_grammar, rows_are_frames, statements_are_sound,
    symbols_are_distinct,
};
pub use frames::{frames_give_rows, frames_have_own_expressions, mandatory_variables_stand};
pub use trees::{substituted_is_typed, text_of_substituted};
