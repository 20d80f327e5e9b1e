//! What of a worksheet its theorem is made of.

ghost use Rattle.std.specs.Prelude.{◌≡◌, [], fold, map, slice_index_or, unwrap_or, IfOk, OnOk};
ghost use Rattle.sheet_theorem.specs.Parts.{pair_of, hyp_of, grown, grown_of, put_item, put_hyp_step, put_formula};

use mm_base::{List, Memory, Name};
use sheet_text::{PairLine, SheetItem, SheetStep};
use std::alloc::Global;

fn copy_names(alloc: Global, names: &[Name]) -> Result<List<Name>, Memory>
    ensures { IfOk result (λ copy. copy ≡ names.now) }
{
    let mut copies = Vec::new(alloc);
    for name in names {
        let copy = List::copy_of(alloc, name.as_slice())?;
        copies.push(copy)?;
    }
    Ok(List::from_vec(copies))
}

/// The name of a number; the empty one past the last.
fn name_at(names: &[Name], number: usize) -> &[u8]
    ensures { result.now ≡ slice_index_or names.now number [] }
{
    match names.get(number) {
        None => b"",
        Some(name) => name.as_slice(),
    }
}

fn pair_of(alloc: Global, line: &PairLine) -> Result<(Name, Name), Memory>
    ensures { IfOk result (λ pair. pair ≡ pair_of line.now) }
{
    let first = List::copy_of(alloc, name_at(line.names.as_slice(), 0))?;
    let second = List::copy_of(alloc, name_at(line.names.as_slice(), 1))?;
    Ok((first, second))
}

/// The first two names of each `$d` statement.
pub(crate) fn pairs_of(alloc: Global, lines: &[PairLine]) -> Result<List<(Name, Name)>, Memory>
    ensures { IfOk result (λ pairs. pairs ≡ map pair_of lines.now) }
{
    let mut pairs = Vec::new(alloc);
    for line in lines {
        let pair = pair_of(alloc, line)?;
        pairs.push(pair)?;
    }
    Ok(List::from_vec(pairs))
}

fn label_or_empty(alloc: Global, reference: &Option<Name>) -> Result<Name, Memory>
    ensures { IfOk result (λ name. name ≡ unwrap_or reference.now []) }
{
    match reference {
        None => Ok(List::from_vec(Vec::new(alloc))),
        Some(label) => List::copy_of(alloc, label.as_slice()),
    }
}

/// The label and the tokens of an `h` step.
fn hyp_of(alloc: Global, step: &SheetStep) -> Result<(Name, List<Name>), Memory>
    ensures { IfOk result (λ hyp. hyp ≡ hyp_of step.now) }
{
    let name = label_or_empty(alloc, &step.reference)?;
    let formula = copy_names(alloc, step.formula.as_slice())?;
    Ok((name, formula))
}

/// The `$e` so far, and how many `h` steps are passed over yet.
#[derive(Drop)]
pub struct Growing {
    pub left: usize,
    pub hyps: Vec<(Name, List<Name>)>,
}

/// Puts in the hypothesis of an `h` step, unless it is passed over.
fn put_step(alloc: Global, growing: &mut Growing, step: &SheetStep) -> Result<(), Memory>
    ensures { OnOk result (grown_of growing.new ≡ put_hyp_step (grown_of growing.old) step.now) }
{
    if !step.hyp {
        return Ok(());
    }
    if 0 < growing.left {
        growing.left -= 1;
        return Ok(());
    }
    let hyp = hyp_of(alloc, step)?;
    growing.hyps.push(hyp)?;
    Ok(())
}

fn put_item(alloc: Global, growing: &mut Growing, item: &SheetItem) -> Result<(), Memory>
    ensures { OnOk result (grown_of growing.new ≡ put_item (grown_of growing.old) item.now) }
{
    match item {
        SheetItem::Comment(_) => Ok(()),
        SheetItem::Step(step) => put_step(alloc, growing, step),
    }
}

/// The `$e` of the `h` steps past the first ones.
pub(crate) fn hyps_past(
    alloc: Global,
    items: &[SheetItem],
    first: usize,
) -> Result<List<(Name, List<Name>)>, Memory>
    ensures { IfOk result (λ hyps. hyps ≡ (fold put_item (grown first []) items.now).hyps) }
{
    let mut growing = Growing {
        left: first,
        hyps: Vec::new(alloc),
    };
    for item in items {
        put_item(alloc, &mut growing, item)?;
    }
    let Growing { left: _, hyps } = growing;
    Ok(List::from_vec(hyps))
}

/// The tokens of the last step; none where there is no step.
pub(crate) fn last_formula(alloc: Global, items: &[SheetItem]) -> Result<List<Name>, Memory>
    ensures { IfOk result (λ formula. formula ≡ fold put_formula [] items.now) }
{
    let mut formula: &[Name] = &[];
    for item in items {
        if let SheetItem::Step(step) = item {
            formula = step.formula.as_slice();
        }
    }
    copy_names(alloc, formula)
}
