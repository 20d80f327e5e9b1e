ghost use Rattle.std.specs.Prelude.{◌≤◌, ◌^◌, length, IfOk, IfErr};
ghost use Rattle.mm_base.specs.Limits.{most_database_bytes};
ghost use Rattle.leaf_names.specs.Tables.{read_leaves};
ghost use Rattle.sheet_unify.specs.Answered.{IsFaultOf};
ghost use Rattle.sheet_unify.specs.Drafted.{AreFound};
ghost use Rattle.sheet_unify.specs.Made.{HasTexts, ForTexts, IsFilledSound, IsDraft, IsDraftSound};

use crate::faults::UnifyFault;
use crate::judging::filled_items;
use leaf_names::numbers_suffice;
use mm_base::{List, Memory};
use mm_database::Database;
use model_laws::{frames_have_own_expressions, has_database_facts, mandatory_variables_stand};
use sheet_text::Sheet;
use solve_model::Bound;
use std::alloc::Global;
use step_naming::name_items;
use step_searching::search_items;
use written_model::{DvMode, Options};
use written_steps::DraftItem;

/// The filled steps with names for their new work variables and with the references that are found.
fn found_items(
    alloc: Global,
    db: &Database,
    bound: &Bound,
    mode: DvMode,
    filled: List<DraftItem>,
) -> Result<List<DraftItem>, Memory>
    requires symbols { length db.now.contents.symbols ≤ most_database_bytes }
    requires read { length (read_leaves db.now.rows bound.now) ≤ 2 ^ 28 }
    requires sound { IsFilledSound db.now filled }
    ensures { IfOk result (AreFound db.now bound.now mode filled) }
{
    match name_items(alloc, db, bound, filled) {
        Ok(named) => search_items(alloc, db, bound.place, mode, &bound.pairs, named),
        Err(_) => Err(Memory),
    }
}

/// The steps as they are written: filled, with names for their new work variables and with the references that are found.
pub fn written_items(
    alloc: Global,
    db: &Database,
    sheet: &Sheet,
    bound: &Bound,
    options: &Options,
) -> Result<List<DraftItem>, UnifyFault>
    requires texts { HasTexts options.now.kinds db.now sheet.now bound.now }
    ensures sound { IfOk result (IsDraftSound db.now) }
    ensures drafted { ForTexts options.now.kinds db.now sheet.now bound.now (λ d text. IfOk result (IsDraft d db.now text options.now sheet.now bound.now)) }
    ensures fault { ForTexts options.now.kinds db.now sheet.now bound.now (λ d text. IfErr result (IsFaultOf d text options.now)) }
{
    has_database_facts();
    mandatory_variables_stand();
    frames_have_own_expressions();
    numbers_suffice();
    match filled_items(alloc, db, sheet, bound, options) {
        Ok(filled) => match found_items(alloc, db, bound, options.dv, filled) {
            Ok(items) => Ok(items),
            Err(_) => Err(UnifyFault::Memory),
        },
        Err(fault) => Err(fault),
    }
}
