//! Opening the files of a database and of a worksheet.

ghost use Rattle.std.specs.Prelude.{◌≡◌, ℕ, List, Option, IfOk};
ghost use Rattle.mm_base.specs.Outside.{Files, NoneFell};
ghost use Rattle.mm_frames.specs.Contents.{contents_of};
ghost use Rattle.mm_model.specs.Statements.{database_fault};
ghost use Rattle.mmp_run.specs.Opened.{IsListedText};
ghost use Rattle.mmp_run.specs.OpenedBoth.{IsOpenedBoth};
ghost use Rattle.mmp_run.specs.OpenedSheet.{IsOpenedSheet};

use crate::opening::{Opened, open};
use crate::sheet::{OpenedSheet, open_sheet};
use call_answers::Ending;
use mm_base::{Bytes, Memory, Store};
use mm_frames::Frames;
use sheet_text::Sheet;
use std::alloc::Global;

/// The text of a database without a fault, its statements, and what a worksheet says; or the ending that refuses a file.
#[derive(Drop)]
pub enum OpenedBoth {
    Both(Bytes, Frames, Sheet),
    Refused(Ending),
}

// What was opened, behind a database without a fault.
fn with_sheet(text: Bytes, frames: Frames, opened: OpenedSheet) -> OpenedBoth
    ensures { (told : Option Files) (before mid now : List ℕ → ℕ) (database sheet : List ℕ) → IsListedText told database text frames → NoneFell before mid
        → IsOpenedSheet told mid now sheet opened → IsOpenedBoth told before now database sheet result }
{
    match opened {
        OpenedSheet::Sheet(sheet) => OpenedBoth::Both(text, frames, sheet),
        OpenedSheet::Refused(end) => OpenedBoth::Refused(end),
    }
}

/// Reads and judges a database, and then a worksheet where the database has no fault.
pub fn open_both<S: Store>(
    alloc: Global,
    store: &mut S,
    database: &str,
    sheet: &str,
) -> Result<OpenedBoth, Memory>
    ensures opened { IfOk result (IsOpenedBoth (S.told store.old) (S.read_faults store.old) (S.read_faults store.new) database.now sheet.now) }
    ensures same_files { S.told store.new ≡ S.told store.old }
    ensures replace_faults { NoneFell (S.replace_faults store.old) (S.replace_faults store.new) }
{
    match open(alloc, store, database)? {
        Opened::Refused(end) => Ok(OpenedBoth::Refused(end)),
        Opened::Database(text, frames) => match open_sheet(alloc, store, sheet) {
            Ok(opened) => Ok(with_sheet(text, frames, opened)),
            Err(_) => Err(Memory),
        },
    }
}
