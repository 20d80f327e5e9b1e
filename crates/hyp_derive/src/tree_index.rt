ghost use Rattle.std.specs.Prelude.{◌≡◌, ◌<◌, ◌^◌, ◌++◌, [], ◌∷◌, length, position, slice_get, find, OnOk, OnErr};
ghost use Rattle.solve_model.specs.Trees.{same_tree};
ghost use Rattle.hyp_derive.specs.Indexing.{is_at};

use crate::hash::tree_hash;
use mm_base::{List, Memory, Rows, Tree, is_same};
use solve_laws::same_trees_are_equal;
use std::alloc::Global;
use std::marker::Model;

/// Trees in the order in which they were put in, with a look-up of the first that equals a tree. They count from 0.
#[derive(Drop)]
pub struct TreeIndex {
    alloc: Global,
    trees: Vec<Tree>,
    places: Rows<u32>,
}

impl Model for TreeIndex {
    ghost use Rattle.std.specs.Prelude.{List};
    ghost use Rattle.mm_base.specs.declared.tree.Tree.{Tree};
    ghost use Rattle.mm_base.specs.contracts.tree.Tree as tree_contract;
    ghost use Rattle.std.specs.Coded.{codes};
    ghost use Rattle.hyp_derive.specs.Indexing.{IsIndexOf};

    ghost Value = { List Tree };

    ghost coded = { Prim.hlevel (codes, tree_contract.the_row.coded) };

    ghost view = { λ index. index.trees.items };

    ghost invariant = { λ index. IsIndexOf index.places index.trees.items };
}

/// Whether an equal tree stands at the place.
fn stands_at(trees: &[Tree], tree: &Tree, place: u32) -> bool
    ensures { result ≡ is_at trees.now tree.now place }
{
    match trees.get(place as usize) {
        Some(other) => is_same(tree, other),
        None => false,
    }
}

/// The first of these places at which an equal tree stands.
fn first_same(trees: &[Tree], places: &[u32], tree: &Tree) -> Option<u32>
    ensures { result ≡ find (is_at trees.now tree.now) places.now }
{
    places
        .iter()
        .copied()
        .find(|place| stands_at(trees, tree, *place))
}

impl TreeIndex {
    /// No trees. It takes no memory.
    pub fn new(alloc: Global) -> TreeIndex
        ensures { result ≡ [] }
    {
        TreeIndex {
            alloc,
            trees: Vec::new(alloc),
            places: Rows::new(alloc),
        }
    }

    /// Puts a tree behind the others. It reads the tree once. `Memory`: there is no room for it, or there are 2^32 - 1
    /// trees; the trees stay as they were.
    pub fn push(&mut self, tree: Tree) -> Result<(), Memory>
        ensures added { OnOk result (self.new ≡ self.old ++ tree ∷ []) }
        ensures same { OnErr result (self.new ≡ self.old) }
    {
        let place = self.trees.len();
        if place + 1 >= 1 << 32 {
            return Err(Memory);
        }
        let hash = tree_hash(&tree);
        self.trees.push(tree)?;
        match self.places.add(self.alloc, hash, place as u32) {
            Ok(()) => Ok(()),
            Err(error) => {
                self.trees.truncate(place);
                Err(error)
            }
        }
    }

    /// The number of the first tree that equals this one; none where no tree does. It reads the tree once, and compares
    /// it with those that have its hash.
    pub fn position(&self, tree: &Tree) -> Option<u32>
        ensures { result ≡ position (same_tree tree.now) self.now }
    {
        same_trees_are_equal();
        first_same(self.trees.as_slice(), self.places.at(tree_hash(tree)), tree)
    }

    /// The tree of a number.
    pub fn get(&self, number: u32) -> &Tree
        requires { number < length self.now }
        ensures { slice_get self.now number ≡ Some result.now }
    {
        &self.trees[number as usize]
    }

    /// How many trees there are.
    pub fn len(&self) -> u32
        ensures { result ≡ length self.now }
    {
        self.trees.len() as u32
    }

    /// The trees, in order. It takes no memory and no time.
    pub fn as_slice(&self) -> &[Tree]
        ensures { result.now ≡ self.now }
    {
        self.trees.as_slice()
    }

    /// The trees, given back. It takes no memory.
    pub fn into_trees(self) -> List<Tree>
        ensures { result ≡ self }
    {
        let TreeIndex {
            alloc: _,
            trees,
            places: _,
        } = self;
        List::from_vec(trees)
    }
}
