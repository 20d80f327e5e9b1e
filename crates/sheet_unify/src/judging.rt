ghost use Rattle.std.specs.Prelude.{◌≡◌, ◌<◌, ◌≤◌, ◌^◌, [], length, IfOk, IfErr, OnOk};
ghost use Rattle.step_chain.specs.Held.{judgements_of};
ghost use Rattle.step_chain.specs.Steps.{ArePlaced};
ghost use Rattle.sheet_unify.specs.Answered.{IsFaultOf};
ghost use Rattle.sheet_unify.specs.Judged.{IsPushedTo, IsChainOf, IsJudgedOver, IsTold, IsFilledBy, IsRefusedBy};
ghost use Rattle.sheet_unify.specs.Made.{HasTexts, ForTexts, IsFilled, IsFilledSound};

use crate::faults::UnifyFault;
use filling_laws::{fronts_are_counted, leaves_are_small, values_are_short};
use mm_base::{Kinds, List, Memory};
use mm_database::Database;
use phase_laws::bound_is_counted;
use sheet_text::Sheet;
use solve_model::Bound;
use std::alloc::Global;
use step_chain::Chain;
use step_filling::{FillFault, fill_items, long_is_first};
use writing_laws::long_formula_is_answered;
use written_model::Options;
use written_steps::DraftItem;

/// Takes the first steps into the store, so many.
fn push_all(chain: &mut Chain<'_>, count: u32) -> Result<(), Memory>
    requires none { judgements_of chain.old ≡ [] }
    requires steps { count ≤ length chain.old.bound.steps }
    ensures { OnOk result (IsPushedTo count chain.old chain.new) }
{
    for i in 0..count {
        let _verdict = chain.push_step(i)?;
    }
    Ok(())
}

/// The chain of a bound worksheet with each of its steps judged.
fn judged_chain<'a>(
    alloc: Global,
    db: &'a Database,
    kinds: &Kinds,
    bound: &'a Bound,
) -> Result<Chain<'a>, Memory>
    requires placed { ArePlaced bound.now }
    requires few { length bound.now.steps < 2 ^ 32 }
    ensures { IfOk result (IsChainOf kinds.now db.now bound.now) }
{
    let count = bound.steps.as_slice().len() as u32;
    let mut chain = Chain::new(alloc, db, kinds, bound)?;
    push_all(&mut chain, count)?;
    Ok(chain)
}

/// What a chain whose steps are all judged tells of itself.
fn chain_tells(chain: &Chain<'_>)
    requires { length (judgements_of chain.now) ≡ length chain.now.bound.steps }
    ensures { IsTold chain.now }
{
    let _pushed = chain.pushed();
    let _arena = chain.arena();
}

/// The steps of a chain whose steps are all judged, filled.
fn fill_judged(
    alloc: Global,
    sheet: &Sheet,
    chain: &Chain<'_>,
) -> Result<List<DraftItem>, UnifyFault>
    requires { IsJudgedOver sheet.now chain.now }
    ensures sound { IfOk result (IsFilledSound chain.now.book) }
    ensures filled { IfOk result (IsFilledBy chain.now sheet.now) }
    ensures fault { IfErr result (IsRefusedBy chain.now sheet.now) }
{
    bound_is_counted();
    fronts_are_counted();
    leaves_are_small();
    values_are_short();
    long_is_first();
    long_formula_is_answered();
    chain_tells(chain);
    match fill_items(alloc, sheet, chain) {
        Ok(items) => Ok(items),
        Err(FillFault::TooLong(name, tokens)) => Err(UnifyFault::FormulaTooLong(name, tokens)),
        Err(FillFault::LongValue) => unreachable!(),
        Err(FillFault::Memory) => Err(UnifyFault::Memory),
    }
}

/// The steps of a bound worksheet as they are written before new work variables are named.
pub fn filled_items(
    alloc: Global,
    db: &Database,
    sheet: &Sheet,
    bound: &Bound,
    options: &Options,
) -> Result<List<DraftItem>, UnifyFault>
    requires texts { HasTexts options.now.kinds db.now sheet.now bound.now }
    ensures sound { IfOk result (IsFilledSound db.now) }
    ensures filled { ForTexts options.now.kinds db.now sheet.now bound.now (λ d text. IfOk result (IsFilled d db.now text sheet.now bound.now)) }
    ensures fault { ForTexts options.now.kinds db.now sheet.now bound.now (λ d text. IfErr result (IsFaultOf d text options.now)) }
{
    bound_is_counted();
    let chain = judged_chain(alloc, db, &options.kinds, bound)?;
    fill_judged(alloc, sheet, &chain)
}
