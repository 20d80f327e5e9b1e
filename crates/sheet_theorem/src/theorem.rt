//! The theorem of a written worksheet.

ghost use Rattle.std.specs.Prelude.{◌≡◌, ℕ, [], List as ListOf, unwrap_or, IfOk};
ghost use Rattle.install_model.specs.Installed.{new_theorem};
ghost use Rattle.mm_database.specs.Books.{database_of};
ghost use Rattle.mm_database.specs.Opened.{IsOpened};
ghost use Rattle.sheet_theorem.specs.Outcomes.{IsOutcomeOver};
ghost use Rattle.sheet_theorem.specs.Parts.{theorem_in};
ghost use Rattle.sheet_unify.specs.Answered.{IsWritten};
ghost use Rattle.written_model.specs.declared.options.Options.{Options};
ghost use Rattle.written_model.specs.Written.{Writing};

use crate::outer::outer_hyps;
use crate::parts::{hyps_past, last_formula, pairs_of};
use crate::place::outcomes_have_places;
use install_model::NewTheorem;
use mm_base::{Bytes, List, Memory};
use mm_database::Database;
use sheet_text::Sheet;
use sheet_unify::Outcome;
use std::alloc::Global;

fn copy_proof(alloc: Global, proof: &Option<Bytes>) -> Result<Bytes, Memory>
    ensures { IfOk result (λ copy. copy ≡ unwrap_or proof.now []) }
{
    match proof {
        None => Ok(List::from_vec(Vec::new(alloc))),
        Some(proof) => List::copy_of(alloc, proof.as_slice()),
    }
}

/// The theorem of a worksheet with this proof, where so many `$e` are active at its place.
fn theorem_in(
    alloc: Global,
    outer: usize,
    sheet: &Sheet,
    proof: &Option<Bytes>,
) -> Result<NewTheorem, Memory>
    ensures { IfOk result (λ theorem. theorem ≡ theorem_in outer sheet.now proof.now) }
{
    let name = List::copy_of(alloc, sheet.theorem.as_slice())?;
    let pairs = pairs_of(alloc, sheet.pairs.as_slice())?;
    let hyps = hyps_past(alloc, sheet.items.as_slice(), outer)?;
    let formula = last_formula(alloc, sheet.items.as_slice())?;
    let proof = copy_proof(alloc, proof)?;
    Ok(NewTheorem {
        name,
        pairs,
        hyps,
        formula,
        proof,
    })
}

/// The theorem of a worksheet that was written, as it is put into the database: its name, its pairs, its own `$e`, which are
/// its `h` steps past those that are active at its place, the formula of its last step, and its proof; the empty one where it
/// is not finished. It takes one pass over the statements below the place and one over the worksheet.
///
/// # Errors
/// `Memory` where memory runs out.
pub fn new_theorem(alloc: Global, db: &Database, outcome: &Outcome) -> Result<NewTheorem, Memory>
    requires { IsOutcomeOver db.now outcome.now }
    ensures { (options : Options) (text : ListOf ℕ) (w : Writing) → IsOpened options.kinds text db.now
        → IsWritten (database_of options.kinds text db.now.rows db.now.parsed) options w outcome.now
        → IfOk result (λ theorem. theorem ≡ new_theorem (database_of options.kinds text db.now.rows db.now.parsed) options w) }
{
    outcomes_have_places();
    let frames = db.frames();
    match outer_hyps(frames, outcome.place) {
        Err(_) => Err(Memory),
        Ok(outer) => theorem_in(alloc, outer, &outcome.sheet, &outcome.proof),
    }
}
