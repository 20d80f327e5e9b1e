//! Laws of the answer to a call. Each is the contract of a function that does nothing.
#![tactic(auto)]

ghost use Rattle.std.specs.Prelude.{ℕ, List};
ghost use Rattle.mm_model.specs.Book.{Database};
ghost use Rattle.mm_model.specs.Names.{Name};
ghost use Rattle.proof_model.specs.declared.code.Code.{Code};
ghost use Rattle.proof_model.specs.declared.theorem.Theorem.{Theorem};
ghost use Rattle.written_model.specs.declared.options.Options.{Options};
ghost use Rattle.call_answers.specs.declared.ending.Ending.{Ending};
ghost use Rattle.written_model.specs.Written.{Answer};
ghost use Rattle.headline_laws.specs.Exported.{AnswerIsExported};
ghost use Rattle.headline_laws.specs.Filled.{AnswerIsFilled};
ghost use Rattle.headline_laws.specs.Unified.{AnswerIsUnified};

use answer_laws::answer_is_fixed;
use auto_laws::{filled_answer_is_unified, filling_again_changes_nothing};
use export_laws::export_is_finished;
use push_laws::{written_proof_is_accepted, written_without_proof};

/// A call that gives the answer to a worksheet says all that is said of it: a finished worksheet carries a proof that is
/// accepted, an unfinished one none, and unifying what was written writes it again.
pub fn answer_is_unified()
    ensures { (db : Database) (text : List ℕ) (options : Options) (answer : Answer) (end : Ending) → AnswerIsUnified db text options answer end }
{
    written_proof_is_accepted();
    written_without_proof();
    answer_is_fixed();
}

/// A call that gives the answer to the worksheet of an accepted proof says all that is said of `export`: what is printed carries
/// a proof that is accepted, and unifying it writes it again; and the worksheet of an exportable proof is finished, or has a
/// fault of size.
pub fn answer_is_exported()
    ensures { (text : List ℕ) (db : Database) (options : Options) (name : Name) (theorem : Theorem) (code : Code) (answer : Answer) (end : Ending)
        → AnswerIsExported text db options name theorem code answer end }
{
    written_proof_is_accepted();
    answer_is_fixed();
    export_is_finished();
}

/// A call that gives the answer to a worksheet whose steps are filled says all that is said of `auto`: a finished one carries
/// a proof that is accepted, an unfinished one none, and unifying and filling what was written writes it again.
pub fn answer_is_filled()
    ensures { (db : Database) (text : List ℕ) (options : Options) (answer : Answer) (end : Ending) → AnswerIsFilled db text options answer end }
{
    filled_answer_is_unified();
    filling_again_changes_nothing();
}
