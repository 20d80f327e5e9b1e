//! Laws that rest on those of all other crates of laws. Each is the contract of a function that does nothing.
#![tactic(auto)]

ghost use Rattle.std.specs.Prelude.{ℕ, List};
ghost use Rattle.mm_model.specs.Book.{Database};
ghost use Rattle.written_model.specs.declared.options.Options.{Options};
ghost use Rattle.written_model.specs.Existence.{HasAnswer};
ghost use Rattle.whole_laws.specs.Solving.{ReadySolvingIsDecided};

use chain_laws::{bound_is_ready, candidates_are_ready, has_most_general};
use writing_laws::has_answer_by_parts;

/// Whether a valuation solves typed formulas and candidates is decided: by unification it is found, or shown not to exist.
pub fn solving_is_decided()
    ensures { ReadySolvingIsDecided }
{}

/// Each text has an answer: a refusal, or a written worksheet with its report and its end.
pub fn each_text_has_an_answer()
    ensures { (db : Database) (text : List ℕ) (options : Options) → HasAnswer db text options }
{
    solving_is_decided();
    bound_is_ready();
    candidates_are_ready();
    has_most_general();
    has_answer_by_parts();
}
