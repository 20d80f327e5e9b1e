//! Laws of what a worksheet becomes: that it becomes something, and what its faults are. Each is the contract of a
//! function that does nothing.
#![tactic(auto)]

ghost use Rattle.mm_base.specs.declared.kinds.Kinds.{Kinds};
ghost use Rattle.std.specs.Prelude.{ℕ, List};
ghost use Rattle.mm_model.specs.Names.{Name};
ghost use Rattle.mm_model.specs.Book.{Database};
ghost use Rattle.solve_model.specs.Solutions.{Valuation};
ghost use Rattle.solve_model.specs.Verdicts.{Judgement};
ghost use Rattle.solve_model.specs.declared.bound.Bound.{Bound};
ghost use Rattle.written_model.specs.declared.options.Options.{Options};
ghost use Rattle.written_model.specs.Written.{Writing};
ghost use Rattle.writing_laws.specs.HasAnswers.{AnswerByParts, BoundIsJudged};
ghost use Rattle.writing_laws.specs.HasBinding.{HasBinding};
ghost use Rattle.writing_laws.specs.HasEnd.{HasEnd};
ghost use Rattle.writing_laws.specs.HasLate.{HasLate, LongIsLate, SolvedIsAnswered};
ghost use Rattle.writing_laws.specs.HasLong.{FilledIsLate, FrontIsLate, FrontStays, GrowsShort, LongIsAnswered, LongIsNew, ShortIsNotLate};
ghost use Rattle.writing_laws.specs.HasNames.{HasNaming, SymbolsAreFew};
ghost use Rattle.writing_laws.specs.HasSearch.{EachIsSearched};
ghost use Rattle.writing_laws.specs.HasTrees.{TreesAreTold};
ghost use Rattle.writing_laws.specs.HasWriting.{SolvedIsWritten};
ghost use Rattle.writing_laws.specs.StoreCounts.{CountIsTokens};
ghost use Rattle.writing_laws.specs.TokenCounts.{NamedHasCount};

use model_laws::{frames_have_own_expressions, has_database_facts, mandatory_variables_stand};
use sheet_laws::{read_is_spellable, sound_text_is_read};

/// The database of a text without a fault has fewer symbols than there are names of work variables of one typecode.
pub fn symbols_are_few()
    ensures { SymbolsAreFew }
{}

/// The fresh leaves of typed trees, whose work variables are those of the worksheet as it was read, can be named.
pub fn fresh_leaves_can_be_named()
    ensures { (kinds : Kinds) (db : Database) (bound : Bound) → HasNaming kinds db bound }
{
    has_database_facts();
    mandatory_variables_stand();
    frames_have_own_expressions();
}

/// Whether an assertion fits a step in an order is decided, and so the search has an answer.
pub fn search_has_an_answer()
    ensures { (kinds : Kinds) (db : Database) → EachIsSearched kinds db }
{
    has_database_facts();
    mandatory_variables_stand();
    frames_have_own_expressions();
}

/// Which steps are below `qed`, and whether a worksheet is finished, is decided where each place names an earlier step.
pub fn end_is_decided()
    ensures { HasEnd }
{}

/// A worksheet that was read, judged and solved becomes something.
pub fn solved_is_written()
    ensures { SolvedIsWritten }
{
    has_database_facts();
    mandatory_variables_stand();
    frames_have_own_expressions();
    read_is_spellable();
}

/// A formula has no tree, exactly one, or two.
pub fn trees_are_told()
    ensures { (kinds : Kinds) (db : Database) → TreesAreTold kinds db }
{
    has_database_facts();
    mandatory_variables_stand();
    frames_have_own_expressions();
}

/// Each worksheet is bound, or has a first fault over the database.
pub fn each_is_bound()
    ensures { (kinds : Kinds) (db : Database) → HasBinding kinds db }
{
    has_database_facts();
    mandatory_variables_stand();
    frames_have_own_expressions();
}

/// What is to be written has no fault or a first one; and where a formula is too long, that is the first one.
pub fn late_fault_is_decided()
    ensures decided { (db : Database) (options : Options) (w : Writing) → HasLate db options w }
    ensures long { (db : Database) (options : Options) (w : Writing) → LongIsLate db options w }
{
    has_database_facts();
    mandatory_variables_stand();
    frames_have_own_expressions();
}

/// A worksheet that was read, judged and solved has an answer.
pub fn solved_is_answered()
    ensures { SolvedIsAnswered }
{
    has_database_facts();
    mandatory_variables_stand();
    frames_have_own_expressions();
    read_is_spellable();
}

/// With its fresh leaves named, a tree is written with as many tokens as are counted where a fresh leaf counts as one.
pub fn named_tree_has_count()
    ensures { (db : Database) → NamedHasCount db }
{}

/// So many tokens are also those that a store of terms counts, where each label counts its row's constants.
pub fn count_is_that_of_a_store()
    ensures { CountIsTokens }
{}

/// What is filled of a front of a worksheet is a front of what is filled.
pub fn filled_front_stays()
    ensures { FrontStays }
{}

/// The first filled step that is too long is the first late fault; a wanted formula that is too long stands as a new
/// step; and so the fault is known by the front of a worksheet.
pub fn long_formula_is_late()
    ensures filled { (db : Database) (options : Options) (w : Writing) → FilledIsLate db options w }
    ensures new { (db : Database) → LongIsNew db }
    ensures front { (db : Database) (options : Options) (w : Writing) → FrontIsLate db options w }
{}

/// While no formula of the front is too long, of the next step one is, or none is of the longer front; and where none is
/// of the whole, none is written.
pub fn short_front_grows()
    ensures grows { (db : Database) (names : List Name) (bound : Bound) (g : Valuation) (judgements : List Judgement) → GrowsShort db names bound g judgements }
    ensures none { (db : Database) (options : Options) (w : Writing) → ShortIsNotLate db options w }
{}

/// A worksheet that was read, judged and solved, in whose front a formula is too long, has that as its answer.
pub fn long_formula_is_answered()
    ensures { LongIsAnswered }
{
    has_database_facts();
    mandatory_variables_stand();
    frames_have_own_expressions();
    read_is_spellable();
}

/// The steps of a bound worksheet have judgements, where it is decided whether candidates can be solved together.
pub fn bound_is_judged()
    ensures { (kinds : Kinds) (db : Database) → BoundIsJudged kinds db }
{
    has_database_facts();
    mandatory_variables_stand();
    frames_have_own_expressions();
    read_is_spellable();
}

/// Each text has an answer, where it is decided whether candidates can be solved together, and what can be solved has a
/// most general valuation.
pub fn has_answer_by_parts()
    ensures { (db : Database) (text : List ℕ) (options : Options) → AnswerByParts db text options }
{
    has_database_facts();
    mandatory_variables_stand();
    frames_have_own_expressions();
    read_is_spellable();
    sound_text_is_read();
}
