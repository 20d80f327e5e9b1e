ghost use Rattle.std.specs.Prelude.{◌≡◌, ◌≤◌, ◌^◌, ◌<◌, ℕ, length};
ghost use Rattle.mm_base.specs.Limits.{most_database_bytes};

use crate::given::{Given, add_leaves};
use crate::leaves::fresh_leaves;
use crate::read::read_works;
use crate::renamed::renamed;
use indexmap::IndexSet;
use mm_base::{Memory, Tree};
use mm_database::Database;
use solve_model::Bound;
use std::alloc::Global;
use std::marker::Model;

/// The names of the fresh leaves of trees that are to be written: each leaf, where it first stands, becomes the work
/// variable of its typecode with the least number that the worksheet as it was read does not have, whose name the
/// database does not declare, and that no other leaf became. A leaf and a number are looked up in constant time.
#[derive(Drop)]
pub struct Names<'a> {
    alloc: Global,
    db: &'a Database,
    /// The work variables of the worksheet as it was read, each by the symbol of its typecode and its number.
    read: IndexSet<(u32, u32)>,
    given: Given,
}

impl<'a> Model for Names<'a> {
    ghost use Rattle.leaf_names.specs.Tables.{Table};
    ghost use Rattle.leaf_names.specs.Cursors.{AreFew, IsKept};

    ghost Value = { Table };

    ghost view = { λ n. record { symbols = n.db.now.contents.symbols; rows = n.db.now.rows; read = n.read.keys; given = n.given.numbers.entries } };

    ghost invariant = { λ n. AreFew n.db.now.contents.symbols n.read.keys
        × IsKept n.db.now.contents.symbols n.read.keys n.given.numbers.entries n.given.last.items };
}

impl<'a> Names<'a> {
    ghost use Rattle.std.specs.Prelude.{◌≡◌, ◌↔◌, ◌≤◌, ◌^◌, ◌<◌, ◌++◌, ◌∷◌, [], ℕ, List, length, take, IfOk, IsTrue, OnOk, OnErr};
    ghost use Rattle.mm_base.specs.declared.symbols.Typecode.{Typecode};
    ghost use Rattle.mm_base.specs.declared.tree.Tree.{Tree};
    ghost use Rattle.mm_database.specs.Opened.{Opened};
    ghost use Rattle.solve_model.specs.declared.bound.Bound.{Bound};
    ghost use Rattle.solve_model.specs.Trees.{fresh, Occurs};
    ghost use Rattle.written_model.specs.Named.{name_tree};
    ghost use Rattle.leaf_names.specs.Leaves.{fresh_leaves as leaves_of};
    ghost use Rattle.leaf_names.specs.Tables.{NamedLeaf, naming_of, read_leaves};
    ghost use Rattle.leaf_names.specs.Named.{AddsTo, IsNamesOf, with_more};
    ghost use Rattle.again_laws.specs.Second.{NumbersFit};

    /// No names yet, over a worksheet as it was read. It takes the time to write the formulas of the worksheet, and
    /// memory for their work variables.
    ///
    /// Fails where memory runs out.
    pub fn new(alloc: Global, db: &'a Database, bound: &Bound) -> Result<Names<'a>, Memory>
        requires symbols { length db.now.contents.symbols ≤ most_database_bytes }
        requires read { length (read_leaves db.now.rows bound.now) ≤ 2 ^ 28 }
        ensures { IfOk result (IsNamesOf db.now bound.now []) }
    {
        let read = read_works(alloc, db.grammar(), bound)?;
        Ok(Names {
            alloc,
            db,
            read,
            given: Given::new(alloc),
        })
    }

    /// Names the fresh leaves of one more tree, in the order of its text. Those that have a name keep it. It takes
    /// time in proportion to the tree, and for each new name what it takes to pass over the numbers that are read or
    /// declared above the last one that was given.
    ///
    /// Fails where memory runs out. Then a front of the tree's leaves has names; the same tree may be added again.
    pub fn add(&mut self, tree: &Tree) -> Result<(), Memory>
        requires small { (c : Typecode) (n : ℕ) → Occurs (fresh c n) tree.now → n < 2 ^ 31 }
        ensures added { (d : Opened) (bound : Bound) (ts : List Tree) → IsNamesOf d bound ts self.old → OnOk result (IsNamesOf d bound (ts ++ tree.now ∷ []) self.new) }
        ensures kept { (more : List NamedLeaf) × (self.new ≡ with_more self.old more) }
        ensures partly { OnErr result ((k : ℕ) × AddsTo (take k (leaves_of self.old.rows tree.now)) self.old self.new) }
    {
        let leaves = fresh_leaves(self.alloc, self.db.grammar(), tree)?;
        add_leaves(
            self.alloc,
            self.db.frames(),
            &self.read,
            &mut self.given,
            leaves.as_slice(),
        )
    }

    /// Whether no leaf has a name.
    pub fn is_empty(&self) -> bool
        ensures { IsTrue result ↔ (length self.now.given ≡ 0) }
    {
        self.given.numbers.is_empty()
    }

    /// The numbers that leaves have are such as a token may have. It does nothing.
    pub fn numbers_fit(&self)
        ensures { NumbersFit (naming_of self.now.given) }
    {
        let _ = &self.given;
    }

    /// The tree with its fresh leaves named; a leaf that has no name stays as it is. It takes time and memory in
    /// proportion to the tree.
    ///
    /// Fails where memory runs out.
    pub fn named(&self, tree: &Tree) -> Result<Tree, Memory>
        ensures { IfOk result (λ t. t ≡ name_tree (naming_of self.now.given) tree.now) }
    {
        renamed(self.alloc, &self.given.numbers, tree)
    }
}
