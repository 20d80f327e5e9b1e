ghost use Rattle.std.specs.Prelude.{◌≡◌, ◌<◌, length, IfOk, slice_index_or, None};
ghost use Rattle.term_model.specs.Ranks.{IsAbove};
ghost use Rattle.chain_laws.specs.Leaves.{named_leaf, leaf_at};
ghost use Rattle.chain_laws.specs.Reading.{read};
ghost use Rattle.step_chain.specs.Grown.{AreWorksIn};
ghost use Rattle.step_chain.specs.Readings.{kept, AreNames};

use chain_laws::WorkNode;
use mm_base::{List, MOST_FORMULA_TOKENS, Memory, Tree, Typecode};
use std::alloc::Global;
use std::marker::Model;
use term_arena::{Arena, Id, Shape};

/// Why a tree is not answered.
#[derive(Clone, Copy, Debug, PartialEq, Eq)]
pub enum TreeFault {
    /// Its text has so many tokens, with a typecode: over 4,096.
    TooLong(u64),
    /// There is no room for it.
    Memory,
}

impl From<Memory> for TreeFault {
    ghost use Rattle.std.specs.Prelude.{◌≡◌};
    ghost use Rattle.step_chain.specs.declared.reading.TreeFault.TheVariants as fault;

    ghost from_gives = { λ e r. r ≡ fault.Memory };

    fn from(_: Memory) -> TreeFault {
        TreeFault::Memory
    }
}

/// The one of lesser number; the first of two of one number.
fn lesser(first: Option<WorkNode>, second: WorkNode) -> WorkNode
    ensures { result ≡ kept first second }
{
    match first {
        Some(work) if work.number <= second.number => work,
        _ => second,
    }
}

/// Of each node the least work variable whose bindings end there.
fn names(alloc: Global, arena: &Arena, works: &[WorkNode]) -> Result<Vec<Option<WorkNode>>, Memory>
    requires { AreWorksIn (length arena.now.nodes) works.now }
    ensures { IfOk result (λ v. AreNames arena.now.links works.now (length arena.now.nodes) v.items) }
{
    let mut names = vec![in alloc; None; arena.count() as usize]?;
    for work in works {
        let end = arena.follow(Id(work.node)).0 as usize;
        names[end] = Some(lesser(names[end], *work));
    }
    Ok(names)
}

/// The leaf of an unbound free node.
fn leaf(names: &[Option<WorkNode>], end: Id, code: Typecode) -> Tree
    requires { end.0 < length names.now }
    ensures { result ≡ named_leaf end.0 code (slice_index_or names.now end.0 None) }
{
    match names[end.0 as usize] {
        Some(work) => Tree::Work(work.code, work.number),
        None => Tree::Fresh(code, end.0),
    }
}

/// The tree of a node that is less deep than this.
fn read(
    alloc: Global,
    arena: &Arena,
    works: &[WorkNode],
    names: &[Option<WorkNode>],
    id: Id,
    depth: u32,
) -> Result<Tree, Memory>
    requires names { AreNames arena.now.links works.now (length arena.now.nodes) names.now }
    requires id { id.0 < length arena.now.nodes }
    requires deep { IsAbove arena.now.nodes arena.now.links depth id.0 }
    ensures { IfOk result (λ t. t ≡ read arena.now.nodes arena.now.links (leaf_at arena.now.links works.now) depth id.0) }
{
    let end = arena.follow(id);
    match arena.look(end) {
        Shape::Var(sym, code) => Ok(Tree::Var(sym, code)),
        Shape::Free(code) => Ok(leaf(names, end, code)),
        Shape::Node(label, code, count) => {
            let mut trees = Vec::with_capacity(alloc, count as usize)?;
            for k in 0..count {
                let child = arena.child(end, k);
                let tree = read(alloc, arena, works, names, child, depth - 1)?;
                trees.push(tree)?;
            }
            Ok(Tree::Node(label, code, List::from_vec(trees)))
        }
    }
}

/// The trees of a solved store's nodes, with the tokens of all of them counted once.
#[derive(Drop)]
pub struct Trees<'a, 'w> {
    alloc: Global,
    arena: &'a Arena,
    works: &'w [WorkNode],
    names: Vec<Option<WorkNode>>,
    sizes: List<u64>,
}

impl<'a, 'w> Model for Trees<'a, 'w> {
    ghost use Rattle.step_chain.specs.Readings.{Readable, IsReadable};

    ghost Value = { Readable };

    ghost view = { λ t. record { nodes = t.arena.now.nodes; links = t.arena.now.links; works = t.works.now } };

    ghost invariant = { λ t. IsReadable t.arena.now.nodes t.arena.now.links t.works.now t.names.items t.sizes };
}

impl<'a, 'w> Trees<'a, 'w> {
    ghost use Rattle.std.specs.Prelude.{◌≡◌, ◌<◌, length, IfOk};
    ghost use Rattle.term_model.specs.Store.{IsSolved};
    ghost use Rattle.chain_laws.specs.Reading.{value_at};
    ghost use Rattle.step_chain.specs.Grown.{AreWorksIn};
    ghost use Rattle.step_chain.specs.Readings.{IsReadOff};

    /// Counts the tokens of a store's nodes, where the work variables have these nodes. It takes time and memory in proportion
    /// to the nodes. `Memory`: there is no room.
    pub fn of(
        alloc: Global,
        arena: &'a Arena,
        works: &'w [WorkNode],
    ) -> Result<Trees<'a, 'w>, Memory>
        requires solved { IsSolved arena.now.nodes arena.now.links }
        requires works { AreWorksIn (length arena.now.nodes) works.now }
        ensures { IfOk result (λ t. t ≡ record { nodes = arena.now.nodes; links = arena.now.links; works = works.now }) }
    {
        let names = names(alloc, arena, works)?;
        let sizes = arena.sizes()?;
        Ok(Trees {
            alloc,
            arena,
            works,
            names,
            sizes,
        })
    }

    /// The tree of a node: each unbound free node is the least work variable that ends there, or else a fresh leaf of its
    /// number. `TooLong`: its text, with a typecode, has so many tokens, over 4,096 (2^64 - 1 where there are more); nothing is
    /// built then. It recurses as deep as the tree. `Memory`: there is no room for the tree.
    pub fn tree(&self, id: Id) -> Result<Tree, TreeFault>
        requires { id.0 < length self.now.nodes }
        ensures value { IfOk result (λ t. t ≡ value_at self.now.nodes self.now.links self.now.works id.0) }
        ensures read { IsReadOff self.now.nodes self.now.links self.now.works id.0 result }
    {
        let depth = self.arena.count();
        let tokens = self.sizes.as_slice()[id.0 as usize].saturating_add(1);
        if tokens > MOST_FORMULA_TOKENS {
            return Err(TreeFault::TooLong(tokens));
        }
        match read(self.alloc, self.arena, self.works, &self.names, id, depth) {
            Ok(tree) => Ok(tree),
            Err(_) => Err(TreeFault::Memory),
        }
    }
}
