ghost use Rattle.std.specs.Prelude.{◌≡◌, []};
ghost use Rattle.mm_database.specs.HeadKeys.{head_key, key_of, entry_key};

use crate::assertions::Parsed;
use mm_base::{Label, List, Memory, Tree};
use std::alloc::Global;
use std::collections::HashMap;

/// The labels of usable assertions by the head of their conclusion and the number of their `$e`.
#[derive(Drop)]
pub struct Heads {
    /// By 0 for a variable, or else one more than the number of the head's label, and by the number of `$e`.
    labels: HashMap<(u64, u64), List<Label>>,
    none: List<Label>,
    ghost empty: { none ≡ [] },
}

fn head_key(head: Option<Label>) -> u64
    ensures { result ≡ head_key head }
{
    match head {
        None => 0,
        Some(label) => u64::from(label.0) + 1,
    }
}

fn tree_key(tree: &Tree) -> Option<u64>
    ensures { result ≡ key_of tree.now }
{
    match tree {
        Tree::Var(_, _) => Some(0),
        Tree::Work(_, _) => None,
        Tree::Fresh(_, _) => None,
        Tree::Node(label, _, _) => Some(u64::from(label.0) + 1),
    }
}

/// Where an assertion stands; none where it is not kept.
fn key(entry: &Option<Parsed>) -> Option<(u64, u64)>
    ensures { result ≡ entry_key entry.now }
{
    match entry {
        None => None,
        Some(parsed) => match tree_key(&parsed.tree) {
            None => None,
            Some(head) => Some((head, parsed.hyps.as_slice().len() as u64)),
        },
    }
}

impl Heads {
    ghost use Rattle.std.specs.Prelude.{◌≡◌, ◌&&◌, ◌++◌, ◌∷◌, [], ℕ, nat_eq, IfOk, OnOk, if◌then◌else◌};
    ghost use Rattle.mm_database.specs.Heads.{labels_at, AreHeads};

    fn new(alloc: Global) -> Heads
        ensures { (h n : ℕ) → labels_at result h n ≡ [] }
    {
        Heads {
            labels: HashMap::new(alloc),
            none: List::from_vec(Vec::new(alloc)),
        }
    }

    /// The labels at a head, with that number of `$e`.
    pub fn at(&self, head: Option<Label>, hyps: u32) -> &List<Label>
        ensures { result.now ≡ labels_at self.now (head_key head) hyps }
    {
        match self.labels.get(&(head_key(head), u64::from(hyps))) {
            None => &self.none,
            Some(labels) => labels,
        }
    }

    /// Adds a label behind those that are there.
    fn add(&mut self, alloc: Global, key: (u64, u64), label: Label) -> Result<(), Memory>
        ensures { OnOk result ((h n : ℕ) → labels_at self.new h n
            ≡ (if nat_eq key.0 h && nat_eq key.1 n then labels_at self.old h n ++ label ∷ [] else labels_at self.old h n)) }
    {
        let mut labels = match self.labels.remove(&key) {
            None => Vec::new(alloc),
            Some(labels) => labels.into_vec(),
        };
        labels.push(label)?;
        self.labels.insert(key, List::from_vec(labels))?;
        Ok(())
    }

    /// The usable assertions by head.
    pub fn of(alloc: Global, parsed: &[Option<Parsed>]) -> Result<Heads, Memory>
        ensures { IfOk result (AreHeads parsed.now) }
    {
        let mut heads = Heads::new(alloc);
        if parsed.len() > u32::MAX as usize {
            return Err(Memory);
        }
        for number in 0..parsed.len() {
            if let Some(found) = key(&parsed[number]) {
                heads.add(alloc, found, Label(number as u32))?;
            }
        }
        Ok(heads)
    }
}
