ghost use Rattle.std.specs.Prelude.{◌≡◌, ℕ, List, map, IfOk};
ghost use Rattle.mm_base.specs.declared.kinds.Kinds.{Kinds};
ghost use Rattle.mm_database.specs.Opened.{IsOpened};
ghost use Rattle.written_model.specs.declared.options.Options.{Options};
ghost use Rattle.written_model.specs.Written.{Writing, written_sheet as sheet_of_writing, written_pairs as pairs_of_writing};
ghost use Rattle.written_steps.specs.Drafts.{book, items_in};
ghost use Rattle.sheet_writing.specs.Sheets.{pair_line, sheet_in, sheet_item, sheet_of, step_with, tokens_in};

use crate::tokens::{formula_tokens, symbol_token};
use mm_base::{Bytes, List, Memory, Name, Pair};
use mm_database::Database;
use mm_frames::Frames;
use sheet_text::{PairLine, Sheet, SheetItem, SheetStep};
use std::alloc::Global;
use written_steps::{DraftItem, DraftStep};

fn copied_option(alloc: Global, name: &Option<Name>) -> Result<Option<Name>, Memory>
    ensures { IfOk result (λ copy. copy ≡ name.now) }
{
    match name {
        None => Ok(None),
        Some(name) => {
            let copy = List::copy_of(alloc, name.as_slice())?;
            Ok(Some(copy))
        }
    }
}

fn copied_lines(alloc: Global, lines: &[Bytes]) -> Result<List<Bytes>, Memory>
    ensures { IfOk result (λ copies. copies ≡ lines.now) }
{
    let mut copies = Vec::new(alloc);
    for line in lines {
        copies.push(List::copy_of(alloc, line.as_slice())?)?;
    }
    Ok(List::from_vec(copies))
}

/// A step with these tokens.
fn sheet_step(alloc: Global, step: &DraftStep, formula: List<Name>) -> Result<SheetStep, Memory>
    ensures { IfOk result (λ s. s ≡ step_with step.now formula) }
{
    let name = List::copy_of(alloc, step.name.as_slice())?;
    let places = List::copy_of(alloc, step.places.as_slice())?;
    let reference = copied_option(alloc, &step.reference)?;
    Ok(SheetStep {
        line: 0,
        hyp: step.hyp,
        name,
        places,
        reference,
        formula,
    })
}

fn written_step(
    alloc: Global,
    db: &Database,
    provable: &[u8],
    step: &DraftStep,
) -> Result<SheetStep, Memory>
    ensures { IfOk result (λ s. s ≡ step_with step.now (tokens_in db.now provable.now step.now.tree)) }
{
    let formula = formula_tokens(alloc, db, provable, &step.tree)?;
    sheet_step(alloc, step, formula)
}

fn written_item(
    alloc: Global,
    db: &Database,
    provable: &[u8],
    item: &DraftItem,
) -> Result<SheetItem, Memory>
    ensures { IfOk result (λ i. i ≡ sheet_item db.now provable.now item.now) }
{
    match item {
        DraftItem::Comment(lines) => {
            let lines = copied_lines(alloc, lines.as_slice())?;
            Ok(SheetItem::Comment(lines))
        }
        DraftItem::Step(step) => {
            let step = written_step(alloc, db, provable, step)?;
            Ok(SheetItem::Step(step))
        }
    }
}

fn written_items(
    alloc: Global,
    db: &Database,
    provable: &[u8],
    items: &[DraftItem],
) -> Result<List<SheetItem>, Memory>
    ensures { IfOk result (λ written. written ≡ map (sheet_item db.now provable.now) items.now) }
{
    let mut written = Vec::new(alloc);
    for item in items {
        written.push(written_item(alloc, db, provable, item)?)?;
    }
    Ok(List::from_vec(written))
}

/// The `$d` statement of a pair.
fn written_pair(alloc: Global, frames: &Frames, pair: Pair) -> Result<PairLine, Memory>
    ensures { IfOk result (λ line. line ≡ pair_line frames.now.symbols pair) }
{
    let mut names = Vec::new(alloc);
    names.push(symbol_token(alloc, frames, pair.a)?)?;
    names.push(symbol_token(alloc, frames, pair.b)?)?;
    Ok(PairLine {
        line: 0,
        names: List::from_vec(names),
    })
}

fn written_pairs(alloc: Global, frames: &Frames, pairs: &[Pair]) -> Result<List<PairLine>, Memory>
    ensures { IfOk result (λ written. written ≡ map (pair_line frames.now.symbols) pairs.now) }
{
    let mut written = Vec::new(alloc);
    for pair in pairs {
        written.push(written_pair(alloc, frames, *pair)?)?;
    }
    Ok(List::from_vec(written))
}

/// The worksheet of a theorem with these statements.
fn made_sheet(
    alloc: Global,
    theorem: &[u8],
    loc: &Option<Name>,
    items: List<SheetItem>,
    pairs: List<PairLine>,
) -> Result<Sheet, Memory>
    ensures { IfOk result (λ s. s ≡ record { line = 0; theorem = theorem.now; loc = loc.now; items = items; pairs = pairs }) }
{
    let theorem = List::copy_of(alloc, theorem)?;
    let loc = copied_option(alloc, loc)?;
    Ok(Sheet {
        line: 0,
        theorem,
        loc,
        items,
        pairs,
    })
}

/// The worksheet that is written for a draft, by what is kept of the database.
fn draft_sheet(
    alloc: Global,
    db: &Database,
    provable: &[u8],
    sheet: &Sheet,
    items: &[DraftItem],
    pairs: &[Pair],
) -> Result<Sheet, Memory>
    ensures { IfOk result (λ s. s ≡ sheet_in db.now provable.now sheet.now.theorem sheet.now.loc items.now pairs.now) }
{
    let items = written_items(alloc, db, provable, items)?;
    let pairs = written_pairs(alloc, db.frames(), pairs)?;
    made_sheet(alloc, sheet.theorem.as_slice(), &sheet.loc, items, pairs)
}

/// The worksheet that is written for one that was read, with these comments and steps and these pairs, without its proof.
/// Its formulas begin with the name of the provable typecode. It takes time and memory in proportion to its text.
///
/// Fails where memory runs out.
pub fn written_sheet(
    alloc: Global,
    db: &Database,
    provable: &[u8],
    sheet: &Sheet,
    items: &[DraftItem],
    pairs: &[Pair],
) -> Result<Sheet, Memory>
    ensures fields { IfOk result (λ s. (kinds : Kinds) (text : List ℕ) → IsOpened kinds text db.now → kinds.provable ≡ provable.now
        → s ≡ sheet_of (book kinds text db.now) sheet.now.theorem sheet.now.loc (items_in db.now items.now) pairs.now) }
    ensures writing { IfOk result (λ s. (kinds : Kinds) (text : List ℕ) (options : Options) (w : Writing) → IsOpened kinds text db.now → kinds.provable ≡ provable.now
        → w.read.theorem ≡ sheet.now.theorem → w.read.loc ≡ sheet.now.loc → w.items ≡ items_in db.now items.now → pairs_of_writing (book kinds text db.now) options w ≡ pairs.now
        → s ≡ sheet_of_writing (book kinds text db.now) options w) }
{
    draft_sheet(alloc, db, provable, sheet, items, pairs)
}
