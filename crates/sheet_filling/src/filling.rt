ghost use Rattle.std.specs.Prelude.{◌≡◌, IfOk};
ghost use Rattle.sheet_filling.specs.Filled as spec;
ghost use Rattle.sheet_filling.specs.Filling.{ForWriting, IsFilledSheet, IsFilledText};

use crate::places::filled_step;
use crate::seeking::seek;
use crate::written::WrittenFormulas;
use mm_base::{Bytes, List, Memory};
use mm_database::Database;
use sheet_print::layout;
use sheet_text::{Sheet, SheetItem, SheetStep};
use std::alloc::Global;

fn fill_step(
    alloc: Global,
    db: &Database,
    written: &WrittenFormulas,
    number: u32,
    step: SheetStep,
) -> Result<SheetStep, Memory>
    ensures { IfOk result (λ s. spec.ForStep db.now written.now number step (λ d options w e. spec.IsStepFilled d options w number e s)) }
{
    let found = seek(alloc, db, written, number, &step)?;
    filled_step(alloc, db.frames(), &found, step)
}

fn fill_item(
    alloc: Global,
    db: &Database,
    written: &WrittenFormulas,
    number: u32,
    item: SheetItem,
) -> Result<SheetItem, Memory>
    ensures { IfOk result (spec.IsItemFilled db.now written.now number item) }
{
    match item {
        SheetItem::Comment(lines) => Ok(SheetItem::Comment(lines)),
        SheetItem::Step(step) => {
            let step = fill_step(alloc, db, written, number, step)?;
            Ok(SheetItem::Step(step))
        }
    }
}

/// The number of the next step behind an item.
fn number_after(number: u32, item: &SheetItem) -> Result<u32, Memory>
    ensures { IfOk result (λ next. next ≡ spec.number_after number item.now) }
{
    match item {
        SheetItem::Comment(_) => Ok(number),
        SheetItem::Step(_) => {
            if number == u32::MAX {
                return Err(Memory);
            }
            Ok(number + 1)
        }
    }
}

fn fill_items(
    alloc: Global,
    db: &Database,
    written: &WrittenFormulas,
    items: Vec<SheetItem>,
) -> Result<List<SheetItem>, Memory>
    ensures { IfOk result (spec.AreItemsFilled db.now written.now 0 items.items) }
{
    let mut filled = Vec::new(alloc);
    let mut number = 0;
    for item in items {
        let next = number_after(number, &item)?;
        filled.push(fill_item(alloc, db, written, number, item)?)?;
        number = next;
    }
    Ok(List::from_vec(filled))
}

/// The worksheet with its steps filled: each step with neither a reference nor places, and without a work variable, that is
/// no hypothesis gets the first assertion that serves it, with the first earlier steps, where one does. Each is filled as the
/// worksheet stands, whatever the steps before it get. It takes the time of these searches.
///
/// # Errors
/// `Memory`: there is no room for what the searches need or for what is filled in, or there are 2^32 or more steps, which no
/// worksheet within the limits has.
pub fn fill_sheet(
    alloc: Global,
    db: &Database,
    written: &WrittenFormulas,
    sheet: Sheet,
) -> Result<Sheet, Memory>
    ensures { IfOk result (λ s. ForWriting db.now written.now sheet (λ d options w. IsFilledSheet d options w s)) }
{
    let Sheet {
        line,
        theorem,
        loc,
        items,
        pairs,
    } = sheet;
    let items = fill_items(alloc, db, written, items.into_vec())?;
    Ok(Sheet {
        line,
        theorem,
        loc,
        items,
        pairs,
    })
}

/// The text of the worksheet with its steps filled, as `fill_sheet` gives it, without a proof.
///
/// # Errors
/// `Memory`: as for `fill_sheet`, or there is no room for the text.
pub fn filled_text(
    alloc: Global,
    db: &Database,
    written: &WrittenFormulas,
    sheet: Sheet,
) -> Result<Bytes, Memory>
    ensures { IfOk result (λ text. ForWriting db.now written.now sheet (λ d options w. IsFilledText d options w text)) }
{
    let filled = fill_sheet(alloc, db, written, sheet)?;
    layout(alloc, &filled, None)
}
