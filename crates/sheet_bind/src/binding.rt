ghost use Rattle.std.specs.Prelude.{◌≡◌, ◌≤◌, ◌<◌, ◌-◌, ◌^◌, ℕ, List, length, min, None, IfOk, IfErr};
ghost use Rattle.mm_base.specs.Limits.{most_work_size};
ghost use Rattle.mm_database.specs.Books.{database_of};
ghost use Rattle.mm_database.specs.Opened.{IsOpened};
ghost use Rattle.solve_model.specs.Binding as spec;
ghost use Rattle.sheet_bind.specs.Judging.{scene, IsJudged};
ghost use Rattle.sheet_bind.specs.Results.{IsBound, IsRefused, IsBoundAt, IsRefusedAt, IsOver, bound_in, proved_in, size_of};

use crate::faults::BindFault;
use crate::pairs::given_pairs;
use crate::setting::{Place, place_of};
use crate::steps::{Judged, judge};
use crate::theorem::theorem_of;
use crate::work_size::work_size;
use mm_base::{Kinds, List, MOST_WORK_SIZE, Memory, Pair};
use mm_database::Database;
use mm_frames::Frames;
use proof_model::Theorem;
use sheet_text::Sheet;
use solve_model::{Bound, BoundStep};
use std::alloc::Global;

/// The pairs and the theorem of a worksheet, and what is kept of its place for the bound worksheet.
#[derive(Drop)]
struct Proved {
    place: u32,
    existing: bool,
    pairs: List<Pair>,
    theorem: Theorem,
}

fn proved_of(alloc: Global, db: &Database, sheet: &Sheet, place: Place) -> Result<Proved, Memory>
    ensures { IfOk result (λ p. p ≡ proved_in db.now sheet.now place) }
{
    let frames = db.frames();
    let Place { setting, hyps } = place;
    let pairs = given_pairs(alloc, frames, sheet.pairs.as_slice())?;
    let theorem = theorem_of(
        alloc,
        frames,
        &setting,
        hyps,
        sheet.items.as_slice(),
        pairs.as_slice(),
    )?;
    Ok(Proved {
        place: setting.place,
        existing: setting.conclusion.is_some(),
        pairs,
        theorem,
    })
}

/// The bound worksheet, where it has no fault and these are its steps.
fn bound_of(
    alloc: Global,
    db: &Database,
    sheet: &Sheet,
    place: Place,
    steps: Vec<BoundStep>,
) -> Result<Bound, Memory>
    ensures { IfOk result (λ b. b ≡ bound_in db.now sheet.now place steps.items) }
{
    match proved_of(alloc, db, sheet, place) {
        Err(_) => Err(Memory),
        Ok(
            Proved {
                place,
                existing,
                pairs,
                theorem,
            },
        ) => Ok(Bound {
            place,
            existing,
            steps: List::from_vec(steps),
            pairs,
            theorem,
        }),
    }
}

/// The worksheet over the database, where its work size is within the limit.
fn within_limit(
    alloc: Global,
    db: &Database,
    sheet: &Sheet,
    place: Place,
    steps: Vec<BoundStep>,
) -> Result<Bound, BindFault>
    ensures bound { IfOk result (λ b. (b ≡ bound_in db.now sheet.now place steps.items) × (min (size_of db.now place steps.items) (2 ^ 64 - 1) ≤ most_work_size)) }
    ensures too_much { IfErr result (IsOver (min (size_of db.now place steps.items) (2 ^ 64 - 1))) }
{
    let size = work_size(db, place.setting.place, steps.as_slice());
    if size > MOST_WORK_SIZE {
        return Err(BindFault::TooMuch(size));
    }
    match bound_of(alloc, db, sheet, place, steps) {
        Ok(bound) => Ok(bound),
        Err(_) => Err(BindFault::Memory),
    }
}

/// The worksheet over the database at its place.
fn bind_at(
    alloc: Global,
    db: &Database,
    kinds: &Kinds,
    sheet: &Sheet,
    place: Place,
) -> Result<Bound, BindFault>
    ensures bound { IfOk result (IsBoundAt (scene db.now kinds.now.provable sheet.now.theorem place.setting) sheet.now place) }
    ensures refused { IfErr result (IsRefusedAt (scene db.now kinds.now.provable sheet.now.theorem place.setting) sheet.now place) }
{
    match judge(alloc, db, kinds, &place.setting, sheet) {
        Err(_) => Err(BindFault::Memory),
        Ok(Judged { first, steps }) => match first {
            Some(found) => Err(BindFault::At(found.code, found.line)),
            None => within_limit(alloc, db, sheet, place, steps),
        },
    }
}

/// The place, the trees of the steps, the pairs and the theorem of a worksheet over the database that was opened with
/// these kinds. It takes one pass over the statements of the database, and beyond that time that depends on the worksheet
/// and on what is active at its place.
///
/// # Errors
/// `At` with the first fault of the worksheet, by line and then code; `TooMuch` with the work size, where there is none and
/// the work size is over 2^24; and `Memory` where memory runs out.
pub fn bind_sheet(
    alloc: Global,
    db: &Database,
    kinds: &Kinds,
    sheet: &Sheet,
) -> Result<Bound, BindFault>
    ensures bound { (text : List ℕ) → IsOpened kinds.now text db.now → IfOk result (IsBound (database_of kinds.now text db.now.rows db.now.parsed) sheet.now) }
    ensures refused { (text : List ℕ) → IsOpened kinds.now text db.now → IfErr result (IsRefused (database_of kinds.now text db.now.rows db.now.parsed) sheet.now) }
{
    let frames = db.frames();
    has_few_statements(frames);
    match place_of(alloc, frames, kinds, sheet) {
        Err(_) => Err(BindFault::Memory),
        Ok(place) => bind_at(alloc, db, kinds, sheet, place),
    }
}

/// The theorem of a worksheet over the database that was opened with these kinds. It takes one pass over the statements of
/// the database. `Memory`: there is no room for it.
pub fn sheet_theorem(
    alloc: Global,
    db: &Database,
    kinds: &Kinds,
    sheet: &Sheet,
) -> Result<Theorem, Memory>
    ensures { (text : List ℕ) → IsOpened kinds.now text db.now → IfOk result (λ t. t ≡ spec.theorem_of (database_of kinds.now text db.now.rows db.now.parsed) sheet.now) }
{
    let frames = db.frames();
    has_few_statements(frames);
    match place_of(alloc, frames, kinds, sheet) {
        Err(_) => Err(Memory),
        Ok(place) => theorem_at(alloc, db, sheet, place),
    }
}

/// The theorem of a worksheet at its place.
fn theorem_at(alloc: Global, db: &Database, sheet: &Sheet, place: Place) -> Result<Theorem, Memory>
    ensures { IfOk result (λ t. t ≡ (proved_in db.now sheet.now place).theorem) }
{
    match proved_of(alloc, db, sheet, place) {
        Err(_) => Err(Memory),
        Ok(
            Proved {
                place: _,
                existing: _,
                pairs: _,
                theorem,
            },
        ) => Ok(theorem),
    }
}

fn has_few_statements(frames: &Frames)
    ensures { length frames.now.entries < 4294967296 }
{
    let _ = frames.end();
}
