//! Laws of worksheets whose steps are filled. Each is the contract of a function that does nothing.
#![tactic(auto)]

ghost use Rattle.std.specs.Prelude.{ℕ, List};
ghost use Rattle.mm_model.specs.Book.{Database};
ghost use Rattle.written_model.specs.declared.options.Options.{Options};
ghost use Rattle.written_model.specs.Written.{Writing};
ghost use Rattle.auto_model.specs.AutoFilled.{FillingAgainChangesNothing};
ghost use Rattle.auto_laws.specs.Answered.{FilledHasNoProof, FilledIsFixed, FilledProofIsAccepted};

use again_laws::{
    assertions_are_whole, binds_without_lines, values_stay, verdicts_stay, written_sheet_binds,
};
use answer_laws::{answer_is_fixed, answers_are_one, is_written_again, written_reads_back};
use model_laws::{
    frames_have_own_expressions, has_database_facts, mandatory_variables_stand, names_are_words,
};
use push_laws::{written_proof_is_accepted, written_without_proof};
use sheet_laws::{laid_out_reads_back, read_is_spellable, sound_text_is_read};

/// What was filled is filled again as it is: the text that a filled worksheet becomes is its own answer.
pub fn filling_again_changes_nothing()
    ensures { FillingAgainChangesNothing }
{
    has_database_facts();
    mandatory_variables_stand();
    frames_have_own_expressions();
    names_are_words();
    read_is_spellable();
    sound_text_is_read();
    laid_out_reads_back();
    assertions_are_whole();
    binds_without_lines();
    values_stay();
    verdicts_stay();
    written_sheet_binds();
    written_reads_back();
    is_written_again();
    answers_are_one();
}

/// What a filled worksheet becomes carries a proof that is accepted for what is printed, where it is finished, and else none;
/// and unifying it writes it again.
pub fn filled_answer_is_unified()
    ensures accepted { (db : Database) (text : List ℕ) (options : Options) (w : Writing) → FilledProofIsAccepted db text options w }
    ensures no_proof { (db : Database) (text : List ℕ) (options : Options) (w : Writing) → FilledHasNoProof db text options w }
    ensures fixed { (db : Database) (text : List ℕ) (options : Options) (w : Writing) → FilledIsFixed db text options w }
{
    written_proof_is_accepted();
    written_without_proof();
    answer_is_fixed();
}
