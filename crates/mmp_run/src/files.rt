ghost use Rattle.std.specs.Prelude.{◌≡◌, ◌≤◌, IfOk};
ghost use Rattle.mm_base.specs.Outside.{NoneFell};
ghost use Rattle.mm_base.specs.Limits.{most_database_bytes};
ghost use Rattle.mmp_run.specs.Found.{IsFound};

use mm_base::{Bytes, List, Memory, ReadStop, Store};
use std::alloc::Global;

/// What a store has under a name.
#[derive(Drop)]
pub enum FileRead {
    Text(Bytes),
    TooBig,
    Fault,
}

/// Reads a file of at most `most` bytes.
pub fn read_file<S: Store>(
    alloc: Global,
    store: &mut S,
    name: &str,
    most: u64,
) -> Result<FileRead, Memory>
    requires { most ≤ most_database_bytes }
    ensures found { IfOk result (IsFound (S.told store.old) most name.now (S.read_faults store.old name.now) (S.read_faults store.new name.now)) }
    ensures same_files { S.told store.new ≡ S.told store.old }
    ensures read_faults { NoneFell (S.read_faults store.old) (S.read_faults store.new) }
    ensures replace_faults { NoneFell (S.replace_faults store.old) (S.replace_faults store.new) }
{
    let mut bytes = Vec::new(alloc);
    match store.read(name, most, &mut bytes) {
        Ok(()) => Ok(FileRead::Text(List::from_vec(bytes))),
        Err(ReadStop::More) => Ok(FileRead::TooBig),
        Err(ReadStop::Failed) => Ok(FileRead::Fault),
        Err(ReadStop::Memory) => Err(Memory),
    }
}
