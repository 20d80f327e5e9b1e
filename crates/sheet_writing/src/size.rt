ghost use Rattle.std.specs.Prelude.{◌≡◌, ◌-◌, ◌^◌, ℕ, List, min};
ghost use Rattle.mm_base.specs.declared.kinds.Kinds.{Kinds};
ghost use Rattle.mm_database.specs.Opened.{IsOpened};
ghost use Rattle.fault_lines.specs.Refusals.{told_number};
ghost use Rattle.solve_model.specs.Bound.{work_size};
ghost use Rattle.written_model.specs.declared.options.Options.{Options};
ghost use Rattle.written_model.specs.Written.{Writing, written_bound};
ghost use Rattle.written_steps.specs.Drafts.{book, items_in};
ghost use Rattle.sheet_writing.specs.Sizes.{item_size_in, size_in, step_size_in};

use formula_parse::nodes;
use mm_database::Database;
use sheet_bind::standing_size;
use written_steps::{DraftItem, DraftStep};

fn step_size(db: &Database, place: u32, step: &DraftStep) -> u64
    ensures { result ≡ min (step_size_in db.now place step.now) (2 ^ 64 - 1) }
{
    let places = step.places.as_slice().len();
    let standing = standing_size(db, place, step.hyp, &step.reference, places);
    nodes(&step.tree).saturating_add(standing)
}

fn item_size(db: &Database, place: u32, item: &DraftItem) -> u64
    ensures { result ≡ min (item_size_in db.now place item.now) (2 ^ 64 - 1) }
{
    match item {
        DraftItem::Comment(_) => 0,
        DraftItem::Step(step) => step_size(db, place, step),
    }
}

fn size(db: &Database, place: u32, items: &[DraftItem]) -> u64
    ensures { result ≡ min (size_in db.now place items.now) (2 ^ 64 - 1) }
{
    let mut size: u64 = 0;
    for item in items {
        size = size.saturating_add(item_size(db, place, item));
    }
    size
}

/// The work size of the worksheet that is written, or 2^64 - 1 where it is larger: the nodes of its formulas and of the
/// assertions of its candidates. It takes time in proportion to that.
pub fn written_size(db: &Database, place: u32, items: &[DraftItem]) -> u64
    ensures { (kinds : Kinds) (text : List ℕ) (options : Options) (w : Writing) → IsOpened kinds text db.now → w.bound.place ≡ place → w.items ≡ items_in db.now items.now
        → result ≡ told_number (work_size (book kinds text db.now) (written_bound (book kinds text db.now) options w)) }
{
    size(db, place, items)
}
