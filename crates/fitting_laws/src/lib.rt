//! The law of worksheets that fit as they are written. It is the contract of a function that does nothing.
#![tactic(auto)]

ghost use Rattle.fitting_laws.specs.FittingBecomesFinished.{FittingBecomesFinished};

use again_laws::{assertions_are_whole, binds_without_lines};
use model_laws::{has_database_facts, names_are_words};
use sheet_laws::{laid_out_reads_back, read_is_spellable};
use solve_laws::judgements_are_one;

/// A worksheet of a theorem of the database, in which each step has its whole formula and a reference that fits over the
/// places that it lists, becomes finished with its steps as they are, or has a fault of size.
pub fn fitting_becomes_finished()
    ensures { FittingBecomesFinished }
{
    has_database_facts();
    names_are_words();
    assertions_are_whole();
    binds_without_lines();
    laid_out_reads_back();
    read_is_spellable();
    judgements_are_one();
}
