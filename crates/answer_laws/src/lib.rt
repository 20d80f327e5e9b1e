//! Laws of the answer to a worksheet. Each is the contract of a function that does nothing.
#![tactic(auto)]

ghost use Rattle.std.specs.Prelude.{ℕ, List};
ghost use Rattle.mm_model.specs.Book.{Database};
ghost use Rattle.written_model.specs.declared.options.Options.{Options};
ghost use Rattle.written_model.specs.Written.{Writing};
ghost use Rattle.written_model.specs.WrittenAgain.{AnswersAreOne, IsWrittenAgain, NothingIsMade, SearchStays};
ghost use Rattle.answer_laws.specs.WrittenReads.{AnswerIsFixed, WrittenByParts, WrittenIsFixed, WrittenReadsBack};

use again_laws::{binds_without_lines, values_stay, verdicts_stay, written_sheet_binds};
use model_laws::{
    active_names_are_plain, frames_have_own_expressions, has_database_facts,
    mandatory_variables_stand, names_are_words,
};
use sheet_laws::{laid_out_reads_back, read_is_spellable, sound_text_is_read};
use solve_laws::no_new_variable;

/// Two answers to a worksheet are one: the same refusal, or the same text, report and end.
pub fn answers_are_one()
    ensures { (db : Database) (text : List ℕ) (options : Options) → AnswersAreOne db text options }
{
    has_database_facts();
    mandatory_variables_stand();
    frames_have_own_expressions();
    sound_text_is_read();
}

/// Where a written worksheet is unified again, no place is missing and no leaf is fresh, so that nothing is filled and
/// nothing named.
pub fn nothing_is_made()
    ensures { (db : Database) (text : List ℕ) (options : Options) (w : Writing) → NothingIsMade db text options w }
{
    has_database_facts();
    mandatory_variables_stand();
    frames_have_own_expressions();
    read_is_spellable();
}

/// What is searched again, its pairs and its end stay as they were written.
pub fn search_stays()
    ensures { (db : Database) (text : List ℕ) (options : Options) (w : Writing) → SearchStays db text options w }
{
    has_database_facts();
    mandatory_variables_stand();
    frames_have_own_expressions();
    read_is_spellable();
}

/// What was written without a fault can be spelled, its proof is one line, and its text has no fault and reads as the
/// written worksheet.
pub fn written_reads_back()
    ensures { (db : Database) (text : List ℕ) (options : Options) (w : Writing) → WrittenReadsBack db text options w }
{
    has_database_facts();
    mandatory_variables_stand();
    frames_have_own_expressions();
    names_are_words();
    active_names_are_plain();
    no_new_variable();
    read_is_spellable();
    laid_out_reads_back();
}

/// What was written without a fault is written again as itself, where its values and verdicts stay and the written
/// worksheet has no fault over the database.
pub fn is_written_by_parts()
    ensures { (db : Database) (text : List ℕ) (options : Options) (w : Writing) → WrittenByParts db text options w }
{
    has_database_facts();
    mandatory_variables_stand();
    frames_have_own_expressions();
    read_is_spellable();
    written_reads_back();
}

/// What is written again as itself is its own answer: unifying the written text writes the same bytes, with the same end.
pub fn written_is_fixed()
    ensures { (db : Database) (text : List ℕ) (options : Options) (w : Writing) → WrittenIsFixed db text options w }
{
    written_reads_back();
}

/// What was written without a fault is written again as itself.
pub fn is_written_again()
    ensures { (db : Database) (text : List ℕ) (options : Options) (w : Writing) → IsWrittenAgain db text options w }
{
    values_stay();
    verdicts_stay();
    written_sheet_binds();
    binds_without_lines();
    is_written_by_parts();
}

/// Unifying the written text writes the same bytes, with the same end.
pub fn answer_is_fixed()
    ensures { (db : Database) (text : List ℕ) (options : Options) (w : Writing) → AnswerIsFixed db text options w }
{
    is_written_again();
    written_is_fixed();
}
