//! Opening the file of a database.

ghost use Rattle.std.specs.Prelude.{◌≡◌, ◌<◌, ◌≤◌, ℕ, List, Option, length, IfOk, IfSome, IsSomeAnd};
ghost use Rattle.mm_base.specs.Outside.{Files, NoneFell, Rose};
ghost use Rattle.mm_base.specs.Limits.{most_database_bytes};
ghost use Rattle.mm_database.specs.Faults.{IsDbFault, IsTold};
ghost use Rattle.mm_model.specs.Faults.{fault};
ghost use Rattle.mm_model.specs.Statements.{database_fault};
ghost use Rattle.mmp_run.specs.Opened.{Has, IsOpenedDatabase};
ghost use Rattle.mmp_run.specs.Refusals.{refusal};
ghost use Rattle.mmp_run.specs.Refused.{IsDatabaseRefusal};
ghost use Rattle.fault_lines.specs.FaultLines.{database_line};

use crate::endings::{refuse, refuse_line, refuse_read};
use crate::files::{FileRead, read_file};
use call_answers::Ending;
use mm_base::{Bytes, MOST_DATABASE_BYTES, Memory, Status, Store};
use mm_database::{DbFault, db_fault_line, read_frames};
use mm_frames::Frames;
use std::alloc::Global;

/// The text of a database without a fault and its statements, or the ending that refuses the file.
#[derive(Drop)]
pub enum Opened {
    Database(Bytes, Frames),
    Refused(Ending),
}

// The ending that tells that a database is too big.
fn refuse_size(alloc: Global) -> Result<Ending, Memory>
    ensures { IfOk result (λ end. end ≡ refusal Status.Database (database_line (fault most_database_bytes 30))) }
{
    refuse(
        alloc,
        Status::Database,
        "database error 30 TooBig at byte 268435456",
    )
}

// The ending that tells the first fault of a database, unless memory ran out.
fn refuse_fault(alloc: Global, text: &[u8], fault: DbFault) -> Result<Ending, Memory>
    requires first { IsDbFault fault (database_fault text.now) }
    requires told { IsTold fault }
    ensures { IfOk result (IsDatabaseRefusal text.now) }
{
    let _ = text;
    match fault {
        DbFault::Memory => Err(Memory),
        _ => {
            let line = db_fault_line(alloc, &fault)?;
            refuse_line(alloc, Status::Database, line)
        }
    }
}

// The ending that tells that the file of a database is too big.
fn open_big(alloc: Global) -> Result<Opened, Memory>
    ensures { IfOk result (λ opened. (told : Option Files) (before now : List ℕ → ℕ) (name : List ℕ)
        → IfSome told (λ files. IsSomeAnd (files name) (λ text. most_database_bytes < length text)) → IsOpenedDatabase told before now name opened) }
{
    let end = refuse_size(alloc)?;
    Ok(Opened::Refused(end))
}

// The ending that tells that the file of a database could not be read.
fn open_unread(alloc: Global, name: &str) -> Result<Opened, Memory>
    ensures { IfOk result (λ opened. (told : Option Files) (before now : List ℕ → ℕ)
        → Rose (before name.now) (now name.now) → IsOpenedDatabase told before now name.now opened) }
{
    let end = refuse_read(alloc, name)?;
    Ok(Opened::Refused(end))
}

// The ending that tells the first fault of the text of a database.
fn open_fault(alloc: Global, text: &[u8], fault: DbFault) -> Result<Opened, Memory>
    requires first { IsDbFault fault (database_fault text.now) }
    requires told { IsTold fault }
    ensures { IfOk result (λ opened. (told : Option Files) (before now : List ℕ → ℕ) (name : List ℕ)
        → Has told name text.now → IsOpenedDatabase told before now name opened) }
{
    let end = refuse_fault(alloc, text, fault)?;
    Ok(Opened::Refused(end))
}

// Judges the text of a database.
fn open_text(alloc: Global, text: Bytes) -> Result<Opened, Memory>
    requires { length text ≤ most_database_bytes }
    ensures { IfOk result (λ opened. (told : Option Files) (before now : List ℕ → ℕ) (name : List ℕ)
        → Has told name text → IsOpenedDatabase told before now name opened) }
{
    match read_frames(alloc, text.as_slice()) {
        Ok(frames) => Ok(Opened::Database(text, frames)),
        Err(fault) => open_fault(alloc, text.as_slice(), fault),
    }
}

/// Reads and judges a database.
pub fn open<S: Store>(alloc: Global, store: &mut S, name: &str) -> Result<Opened, Memory>
    ensures opened { IfOk result (IsOpenedDatabase (S.told store.old) (S.read_faults store.old) (S.read_faults store.new) name.now) }
    ensures same_files { S.told store.new ≡ S.told store.old }
    ensures read_faults { NoneFell (S.read_faults store.old) (S.read_faults store.new) }
    ensures replace_faults { NoneFell (S.replace_faults store.old) (S.replace_faults store.new) }
{
    match read_file(alloc, store, name, MOST_DATABASE_BYTES) {
        Ok(FileRead::Text(text)) => open_text(alloc, text),
        Ok(FileRead::TooBig) => open_big(alloc),
        Ok(FileRead::Fault) => open_unread(alloc, name),
        Err(_) => Err(Memory),
    }
}
