ghost use Rattle.std.specs.Prelude.{◌≡◌, ◌+◌, ◌<◌, ◌≤◌, ◌^◌, ◌==◌, ℕ, [], ◌∷◌, None, IfOk, OnOk, OnErr, take, vec_len, if◌then◌else◌};
ghost use Rattle.std.specs.Map.{lookup};
ghost use Rattle.leaf_names.specs.Leaves.{fresh_leaf};
ghost use Rattle.leaf_names.specs.Tables.{Adds, same_leaf};
ghost use Rattle.leaf_names.specs.Cursors.{AreFew, AreSmall, HasRoom, IsKept, last_number};

use crate::free::first_unused;
use indexmap::{IndexMap, IndexSet};
use mm_base::Memory;
use mm_frames::Frames;
use std::alloc::Global;

/// The fresh leaves that have a name.
#[derive(Drop)]
pub(crate) struct Given {
    /// The numbers of their work variables, by leaf, in the order in which they were given.
    pub numbers: IndexMap<(u32, u32), u32>,
    /// By the symbol of a typecode the last number that was given for it, 0 where none was.
    pub last: Vec<u32>,
}

impl Given {
    ghost use Rattle.std.specs.Prelude.{◌≡◌, []};

    /// No leaf has a name.
    pub(crate) fn new(alloc: Global) -> Given
        ensures numbers { result.numbers.entries ≡ [] }
        ensures last { result.last.items ≡ [] }
    {
        Given {
            numbers: IndexMap::new(alloc),
            last: Vec::new(alloc),
        }
    }
}

/// Makes a list at least so long.
fn grow(last: &mut Vec<u32>, len: usize) -> Result<(), Memory>
    ensures kept { (c : ℕ) → last_number last.new.items c ≡ last_number last.old.items c }
    ensures long { OnOk result (len ≤ vec_len last.new) }
{
    while last.len() < len {
        last.push(0)?;
    }
    Ok(())
}

fn set_last(last: &mut Vec<u32>, code: u32, number: u32)
    requires { code < vec_len last.old }
    ensures { (c : ℕ) → last_number last.new.items c ≡ (if c == code then number else last_number last.old.items c) }
{
    last[code as usize] = number;
}

/// Names a leaf that has no name.
fn add_new(
    alloc: Global,
    frames: &Frames,
    read: &IndexSet<(u32, u32)>,
    given: &mut Given,
    leaf: (u32, u32),
) -> Result<(), Memory>
    requires absent { lookup (same_leaf leaf) given.old.numbers.entries ≡ None }
    requires kept { IsKept frames.now.symbols read.now.keys given.old.numbers.entries given.old.last.items }
    requires room { HasRoom frames.now.symbols read.now.keys given.old.last.items leaf.0 }
    requires small { leaf.1 < 2 ^ 31 }
    ensures kept { IsKept frames.now.symbols read.now.keys given.new.numbers.entries given.new.last.items }
    ensures added { OnOk result (Adds frames.now.symbols read.now.keys (leaf ∷ []) given.old.numbers.entries given.new.numbers.entries) }
    ensures same { OnErr result (given.new.numbers.entries ≡ given.old.numbers.entries) }
{
    let number = first_unused(alloc, frames, read, given.last.as_slice(), leaf.0)?;
    grow(&mut given.last, leaf.0 as usize + 1)?;
    given.numbers.insert(leaf, number)?;
    set_last(&mut given.last, leaf.0, number);
    Ok(())
}

/// Names a leaf that may have a name.
fn add_leaf(
    alloc: Global,
    frames: &Frames,
    read: &IndexSet<(u32, u32)>,
    given: &mut Given,
    leaf: (u32, u32),
) -> Result<(), Memory>
    requires few { AreFew frames.now.symbols read.now.keys }
    requires kept { IsKept frames.now.symbols read.now.keys given.old.numbers.entries given.old.last.items }
    requires small { leaf.1 < 2 ^ 31 }
    ensures kept { IsKept frames.now.symbols read.now.keys given.new.numbers.entries given.new.last.items }
    ensures added { OnOk result (Adds frames.now.symbols read.now.keys (leaf ∷ []) given.old.numbers.entries given.new.numbers.entries) }
    ensures same { OnErr result (given.new.numbers.entries ≡ given.old.numbers.entries) }
{
    if given.numbers.contains_key(&leaf) {
        return Ok(());
    }
    add_new(alloc, frames, read, given, leaf)
}

/// Names leaves in their order, each that has no name.
pub(crate) fn add_leaves(
    alloc: Global,
    frames: &Frames,
    read: &IndexSet<(u32, u32)>,
    given: &mut Given,
    leaves: &[(u32, u32)],
) -> Result<(), Memory>
    requires few { AreFew frames.now.symbols read.now.keys }
    requires kept { IsKept frames.now.symbols read.now.keys given.old.numbers.entries given.old.last.items }
    requires small { AreSmall leaves.now }
    ensures kept { IsKept frames.now.symbols read.now.keys given.new.numbers.entries given.new.last.items }
    ensures added { OnOk result (Adds frames.now.symbols read.now.keys leaves.now given.old.numbers.entries given.new.numbers.entries) }
    ensures partly { OnErr result ((k : ℕ) × Adds frames.now.symbols read.now.keys (take k leaves.now) given.old.numbers.entries given.new.numbers.entries) }
{
    for leaf in leaves {
        add_leaf(alloc, frames, read, given, *leaf)?;
    }
    Ok(())
}
