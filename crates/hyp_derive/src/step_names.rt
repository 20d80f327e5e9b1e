ghost use Rattle.std.specs.Prelude.{◌≡◌, ◌≤◌, ◌++◌, ℕ, [], ◌∷◌, List, false, IfOk, OnOk, OnErr};
ghost use Rattle.mm_model.specs.Names.{Name, contains};
ghost use Rattle.sheet_text.specs.Layout.{step_names};
ghost use Rattle.written_model.specs.Filled.{derived_name, derived_names};
ghost use Rattle.hyp_derive.specs.Naming.{numbered_name, item_names, with_name, AreUsedBelow, HaveSameNames, IsLeastNew};

use crate::naming::derived;
use mm_base::{List, Memory, Name};
use names::Names;
use sheet_text::{Sheet, SheetItem};
use std::alloc::Global;
use std::marker::Model;

/// The names that are used, each once, in the order in which they were put in, with new names for derived steps.
#[derive(Drop)]
pub struct StepNames {
    alloc: Global,
    names: Names,
    next: u64,
}

impl Model for StepNames {
    ghost use Rattle.std.specs.Prelude.{List, ℕ};
    ghost use Rattle.hyp_derive.specs.Naming.{AreUsedBelow};

    ghost Value = { List (List ℕ) };

    ghost view = { λ used. used.names };

    ghost invariant = { λ used. AreUsedBelow used.names used.next };
}

/// Puts a name in, unless it is there.
fn add_name(names: &mut Names, name: &[u8]) -> Result<(), Memory>
    ensures added { OnOk result (names.new ≡ with_name names.old name.now) }
    ensures same { OnErr result (names.new ≡ names.old) }
{
    if names.contains(name) {
        return Ok(());
    }
    if names.count() == u32::MAX {
        return Err(Memory);
    }
    names.add(name)?;
    Ok(())
}

/// Whether the name that is `d` and a number is used.
fn is_used(alloc: Global, names: &Names, number: u64) -> Result<bool, Memory>
    ensures { IfOk result (λ used. used ≡ contains names.now (numbered_name number)) }
{
    let name = derived(alloc, number)?;
    Ok(names.contains(name.as_slice()))
}

/// The least number that makes a name not used, where those below `next` make names that are used.
fn least_new(alloc: Global, names: &Names, next: u64) -> Result<u64, Memory>
    requires { AreUsedBelow names.now next }
    ensures { IfOk result (IsLeastNew names.now) }
{
    for number in next..names.count() as u64 + 2 {
        if !is_used(alloc, names, number)? {
            return Ok(number);
        }
    }
    unreachable!()
}

/// Puts in the name of an item that is a step.
fn put_item(names: &mut StepNames, item: &SheetItem) -> Result<(), Memory>
    ensures { OnOk result ((used : List Name) → HaveSameNames names.old used → HaveSameNames names.new (used ++ item_names item.now)) }
{
    match item {
        SheetItem::Comment(_) => Ok(()),
        SheetItem::Step(step) => names.add(step.name.as_slice()),
    }
}

impl StepNames {
    /// The names of the steps of a worksheet. It takes memory for a copy of each. `Memory`: there is no room for them, or
    /// there are more than 2^32 - 1.
    pub fn of(alloc: Global, sheet: &Sheet) -> Result<StepNames, Memory>
        ensures { IfOk result (λ used. HaveSameNames used (step_names sheet.now)) }
    {
        let mut used = StepNames::new(alloc);
        for item in sheet.items.as_slice() {
            put_item(&mut used, item)?;
        }
        Ok(used)
    }

    /// No names. It takes no memory.
    pub fn new(alloc: Global) -> StepNames
        ensures { result ≡ [] }
    {
        StepNames {
            alloc,
            names: Names::new(alloc),
            next: 1,
        }
    }

    /// Puts a name in, unless it is there. It takes memory for a copy of the name. `Memory`: there is no room for it, or
    /// there are 2^32 - 1 names; the names stay as they were.
    pub fn add(&mut self, name: &[u8]) -> Result<(), Memory>
        ensures added { OnOk result (self.new ≡ with_name self.old name.now) }
        ensures extended { OnOk result ((used : List Name) → HaveSameNames self.old used → HaveSameNames self.new (used ++ name.now ∷ [])) }
        ensures same { OnErr result (self.new ≡ self.old) }
    {
        add_name(&mut self.names, name)
    }

    /// A name that is not used, for a new step, and from now on used: `d` and the least number from 1 that makes one.
    /// Each call goes on at the number of the last one, so that all together look at each number at most twice. `Memory`:
    /// there is no room for the name, or there are 2^32 - 1; the names stay as they were.
    pub fn derive(&mut self) -> Result<Name, Memory>
        ensures name { IfOk result (λ name. (used : List Name) → HaveSameNames self.old used → name ≡ derived_name used) }
        ensures is_new { IfOk result (λ name. contains self.old name ≡ false) }
        ensures added { IfOk result (λ name. self.new ≡ self.old ++ name ∷ []) }
        ensures same { OnErr result (self.new ≡ self.old) }
    {
        let number = least_new(self.alloc, &self.names, self.next)?;
        let name = derived(self.alloc, number)?;
        add_name(&mut self.names, name.as_slice())?;
        self.next = number;
        Ok(name)
    }

    /// So many new names, one after the other, each as `derive` gives it. `Memory`: there is no room for them; some of
    /// them may then be used.
    pub fn derive_all(&mut self, count: usize) -> Result<List<Name>, Memory>
        ensures names { IfOk result (λ names. (used : List Name) → HaveSameNames self.old used → names ≡ derived_names count used) }
        ensures added { IfOk result (λ names. self.new ≡ self.old ++ names) }
        ensures some { OnErr result ((k : ℕ) × (k ≤ count) × (self.new ≡ self.old ++ derived_names k self.old)) }
    {
        let mut names = Vec::new(self.alloc);
        for _ in 0..count {
            names.push(self.derive()?)?;
        }
        Ok(List::from_vec(names))
    }
}
