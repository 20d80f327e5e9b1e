//! Law of two answers to a worksheet whose steps are filled. It is the contract of a function that does nothing.
#![tactic(auto)]

ghost use Rattle.std.specs.Prelude.{ℕ, List};
ghost use Rattle.mm_model.specs.Book.{Database};
ghost use Rattle.written_model.specs.declared.options.Options.{Options};
ghost use Rattle.auto_answer_laws.specs.OneFilled.{FilledAnswersAreOne};

use answer_laws::answers_are_one;
use model_laws::{frames_have_own_expressions, has_database_facts, mandatory_variables_stand};
use sheet_laws::sound_text_is_read;

/// Two answers to a worksheet whose steps are filled are one: the same refusal, or the same text, report and end.
pub fn filled_answers_are_one()
    ensures { (db : Database) (text : List ℕ) (options : Options) → FilledAnswersAreOne db text options }
{
    has_database_facts();
    mandatory_variables_stand();
    frames_have_own_expressions();
    sound_text_is_read();
    answers_are_one();
}
