//! Places where no block is open.

ghost use Rattle.std.specs.Prelude.{◌≡◌, ◌<◌, ◌+◌, ◌^◌, List, length, map};
ghost use Rattle.mm_model.specs.Names.{Name};
ghost use Rattle.mm_model.specs.Statements.{Statement};
ghost use Rattle.frame_lists.specs.Entries.{entry_in};
ghost use Rattle.frame_lists.specs.Listings.{place_behind};
ghost use Rattle.frame_lists.specs.Places.{depth_after, place_by};

use crate::entry::{Entry, EntryKind};

/// How many blocks are open behind a statement, by how many are open before it.
fn depth_after(kind: EntryKind, depth: usize) -> usize
    requires { depth + 1 < 2 ^ 64 }
    ensures { result ≡ depth_after kind depth }
{
    match kind {
        EntryKind::OpenBlock => depth + 1,
        EntryKind::CloseBlock => depth.saturating_sub(1),
        EntryKind::Statement(_) => depth,
    }
}

/// The least place above a position where no block is open; the last place where there is none.
fn first_place(entries: &[Entry], position: u32) -> u32
    requires { length entries.now < 2 ^ 32 }
    ensures { result ≡ place_by entries.now position }
{
    let mut depth = 0;
    for number in 0..entries.len() {
        depth = depth_after(entries[number].kind, depth);
        if number >= position as usize && depth == 0 {
            return number as u32 + 1;
        }
    }
    entries.len() as u32
}

/// The least place above a position where no block is open; the last place where there is none. It takes one pass over the
/// statements, and no memory.
pub fn place_after(entries: &[Entry], position: u32) -> u32
    requires { length entries.now < 2 ^ 32 }
    ensures { (names : List Name) (ss : List Statement) → entries.now ≡ map (entry_in names) ss → result ≡ place_behind ss position }
{
    first_place(entries, position)
}
