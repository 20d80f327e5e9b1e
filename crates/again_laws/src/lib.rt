//! Laws of a written worksheet that is unified again. Each is the contract of a function that does nothing.
#![tactic(auto)]

ghost use Rattle.std.specs.Prelude.{ℕ, List};
ghost use Rattle.mm_model.specs.Book.{Database};
ghost use Rattle.written_model.specs.declared.options.Options.{Options};
ghost use Rattle.written_model.specs.Written.{Writing};
ghost use Rattle.written_model.specs.WrittenAgain.{ValuesStay, VerdictsStay};
ghost use Rattle.again_laws.specs.Second.{WrittenSheetBinds, WrittenIsWithin, WrittenTreesReadBack, BindsWithoutLines};
ghost use Rattle.again_laws.specs.Whole.{AssertionsAreWhole};

use model_laws::{
    databases_have_places, databases_have_symbols, frames_have_own_expressions, has_database_facts,
    mandatory_variables_stand,
};
use sheet_laws::read_is_spellable;

/// The trees of a usable assertion have no open leaf; their variables are those of its frame, and each of these stands
/// in them.
pub fn assertions_are_whole()
    ensures { AssertionsAreWhole }
{
    has_database_facts();
    frames_have_own_expressions();
    mandatory_variables_stand();
}

/// Of the steps that fit or are found, read as named steps, the written values are most general.
pub fn values_stay()
    ensures { (db : Database) (text : List ℕ) (options : Options) (w : Writing) → ValuesStay db text options w }
{
    has_database_facts();
    assertions_are_whole();
    read_is_spellable();
}

/// A step that was set aside is set aside again, and one that was accepted or found is accepted in the order that is
/// written.
pub fn verdicts_stay()
    ensures { (db : Database) (text : List ℕ) (options : Options) (w : Writing) → VerdictsStay db text options w }
{
    has_database_facts();
    assertions_are_whole();
    read_is_spellable();
}

/// The written sheet has no fault over the database, and binds with the trees that were written; its work size is within
/// the limit.
pub fn written_sheet_binds()
    ensures binds { (db : Database) (text : List ℕ) (options : Options) (w : Writing) → WrittenSheetBinds db text options w }
    ensures within { (db : Database) (options : Options) (w : Writing) → WrittenIsWithin db options w }
{
    has_database_facts();
    assertions_are_whole();
    read_is_spellable();
    databases_have_places();
    databases_have_symbols();
    frames_have_own_expressions();
}

/// Each written formula is read over the database as its tree, also where there is a fault of what is written, if the
/// numbers of new work variables are in range.
pub fn written_trees_read_back()
    ensures { (db : Database) (text : List ℕ) (options : Options) (w : Writing) → WrittenTreesReadBack db text options w }
{
    has_database_facts();
    assertions_are_whole();
    read_is_spellable();
    databases_have_places();
    databases_have_symbols();
    frames_have_own_expressions();
}

/// What a sheet binds does not rest on the numbers of its lines.
pub fn binds_without_lines()
    ensures { BindsWithoutLines }
{}
