//! Opening the file of a worksheet.

ghost use Rattle.std.specs.Prelude.{◌≡◌, ◌<◌, ◌≤◌, ℕ, List, Option, Some, length, IfOk, IfSome, IsSome, IsSomeAnd};
ghost use Rattle.mm_base.specs.Outside.{Files, NoneFell, Rose};
ghost use Rattle.mm_base.specs.Limits.{most_sheet_bytes};
ghost use Rattle.sheet_read.specs.Faults.{IsFault};
ghost use Rattle.sheet_text.specs.TextFaults.{line_fault};
ghost use Rattle.fault_lines.specs.FaultLines.{refusal_line};
ghost use Rattle.mmp_run.specs.Opened.{Has};
ghost use Rattle.mmp_run.specs.OpenedSheet.{IsOpenedSheet};
ghost use Rattle.mmp_run.specs.Refusals.{refusal};
ghost use Rattle.sheet_unify.specs.Answered.{refusal_of};

use crate::endings::{refuse_line, refuse_read};
use crate::files::{FileRead, read_file};
use call_answers::Ending;
use mm_base::{Bytes, MOST_SHEET_BYTES, Memory, Status, Store};
use sheet_read::{SheetCode, SheetFault, read_sheet};
use sheet_text::Sheet;
use sheet_unify::{UnifyFault, fault_line};
use std::alloc::Global;

/// What a worksheet says, or the ending that refuses the file.
#[derive(Drop)]
pub enum OpenedSheet {
    Sheet(Sheet),
    Refused(Ending),
}

/// The ending with this status that tells a fault of a worksheet, other than want of memory.
pub fn refuse_sheet(alloc: Global, status: Status, fault: &UnifyFault) -> Result<Ending, Memory>
    requires { IsSome (refusal_of fault.now) }
    ensures { IfOk result (λ end. IfSome (refusal_of fault.now) (λ r. end ≡ refusal status (refusal_line r))) }
{
    let line = fault_line(alloc, fault)?;
    refuse_line(alloc, status, line)
}

// The ending that tells that the file of a worksheet is too big.
fn open_big(alloc: Global) -> Result<OpenedSheet, Memory>
    ensures { IfOk result (λ opened. (told : Option Files) (before now : List ℕ → ℕ) (name : List ℕ)
        → IfSome told (λ files. IsSomeAnd (files name) (λ text. most_sheet_bytes < length text)) → IsOpenedSheet told before now name opened) }
{
    let end = refuse_sheet(alloc, Status::Sheet, &UnifyFault::TooBig)?;
    Ok(OpenedSheet::Refused(end))
}

// The ending that tells that the file of a worksheet could not be read.
fn open_unread(alloc: Global, name: &str) -> Result<OpenedSheet, Memory>
    ensures { IfOk result (λ opened. (told : Option Files) (before now : List ℕ → ℕ)
        → Rose (before name.now) (now name.now) → IsOpenedSheet told before now name.now opened) }
{
    let end = refuse_read(alloc, name)?;
    Ok(OpenedSheet::Refused(end))
}

// The ending that tells the first fault of the text of a worksheet.
fn open_fault(alloc: Global, text: &[u8], code: SheetCode, line: u32) -> Result<OpenedSheet, Memory>
    requires short { length text.now ≤ most_sheet_bytes }
    requires first { IsFault (SheetFault.At code line) (line_fault text.now) }
    ensures { IfOk result (λ opened. (told : Option Files) (before now : List ℕ → ℕ) (name : List ℕ)
        → Has told name text.now → IsOpenedSheet told before now name opened) }
{
    let _ = text;
    let end = refuse_sheet(alloc, Status::Sheet, &UnifyFault::Sheet(code, line))?;
    Ok(OpenedSheet::Refused(end))
}

// Judges the text of a worksheet.
fn open_text(alloc: Global, text: &[u8]) -> Result<OpenedSheet, Memory>
    requires { length text.now ≤ most_sheet_bytes }
    ensures { IfOk result (λ opened. (told : Option Files) (before now : List ℕ → ℕ) (name : List ℕ)
        → Has told name text.now → IsOpenedSheet told before now name opened) }
{
    match read_sheet(alloc, text) {
        Ok(sheet) => Ok(OpenedSheet::Sheet(sheet)),
        Err(SheetFault::At(code, line)) => open_fault(alloc, text, code, line),
        Err(SheetFault::Memory) => Err(Memory),
    }
}

// Judges the bytes of the file of a worksheet.
fn open_bytes(alloc: Global, text: Bytes) -> Result<OpenedSheet, Memory>
    requires { length text ≤ most_sheet_bytes }
    ensures { IfOk result (λ opened. (told : Option Files) (before now : List ℕ → ℕ) (name : List ℕ)
        → Has told name text → IsOpenedSheet told before now name opened) }
{
    open_text(alloc, text.as_slice())
}

/// Reads a worksheet.
pub fn open_sheet<S: Store>(alloc: Global, store: &mut S, name: &str) -> Result<OpenedSheet, Memory>
    ensures opened { IfOk result (IsOpenedSheet (S.told store.old) (S.read_faults store.old) (S.read_faults store.new) name.now) }
    ensures same_files { S.told store.new ≡ S.told store.old }
    ensures read_faults { NoneFell (S.read_faults store.old) (S.read_faults store.new) }
    ensures replace_faults { NoneFell (S.replace_faults store.old) (S.replace_faults store.new) }
{
    match read_file(alloc, store, name, MOST_SHEET_BYTES) {
        Ok(FileRead::Text(text)) => open_bytes(alloc, text),
        Ok(FileRead::TooBig) => open_big(alloc),
        Ok(FileRead::Fault) => open_unread(alloc, name),
        Err(_) => Err(Memory),
    }
}
