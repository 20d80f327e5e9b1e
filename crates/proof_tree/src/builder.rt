//! A graph that grows.

ghost use Rattle.std.specs.Prelude.{◌≡◌, ◌<◌, [], length, take, ◌+◌, IfOk};
ghost use Rattle.std.specs.List.{AllByRecursion};
ghost use Rattle.proof_tree.specs.Keys.{node_of_key, nodes_of_keys};

use crate::graph::{ProofGraph, ProofNode};
use indexmap::IndexSet;
use mm_base::{List, Memory};
use std::alloc::Global;
use std::marker::Model;

/// A node, in a form that is found by its hash.
#[derive(PartialEq, Eq, Hash, Drop)]
pub(crate) struct Key {
    label: Vec<u8>,
    below: Vec<u32>,
}

/// The nodes so far.
#[derive(Drop)]
pub(crate) struct GraphBuilder {
    alloc: Global,
    keys: IndexSet<Key>,
}

impl Model for GraphBuilder {
    ghost use Rattle.std.specs.Prelude.{◌<◌, ◌^◌, List, length};
    ghost use Rattle.proof_tree.specs.declared.graph.ProofNode.{ProofNode};
    ghost use Rattle.proof_tree.specs.Graphs.{NameEarlier};
    ghost use Rattle.proof_tree.specs.Keys.{nodes_of_keys};

    ghost Value = { List ProofNode };

    ghost view = { λ g. nodes_of_keys g.keys.keys };

    ghost invariant = { λ g. NameEarlier 0 (nodes_of_keys g.keys.keys) × (length g.keys.keys < 2 ^ 32) };
}

impl GraphBuilder {
    ghost use Rattle.proof_tree.specs.Adding.{Adds, proof_over};

    /// No nodes.
    pub(crate) fn new(alloc: Global) -> GraphBuilder
        ensures { result ≡ [] }
    {
        GraphBuilder {
            alloc,
            keys: IndexSet::new(alloc),
        }
    }

    /// The number of the node with this label and these nodes below, which is made where there is none.
    pub(crate) fn add(&mut self, label: &[u8], below: Vec<u32>) -> Result<u32, Memory>
        requires { AllByRecursion (λ k. k < length self.old) below.items }
        ensures { IfOk result (Adds self.old self.new (proof_over self.old label.now below.items)) }
    {
        if self.keys.len() >= u32::MAX as usize {
            return Err(Memory);
        }
        let label = Vec::from_slice(self.alloc, label)?;
        let (number, _) = self.keys.insert_full(Key { label, below })?;
        Ok(number as u32)
    }

    /// The graph of a node's proof.
    pub(crate) fn finish(self, root: u32) -> Result<ProofGraph, Memory>
        requires { root < length self }
        ensures { IfOk result (λ graph. graph ≡ take (root + 1) self) }
    {
        let GraphBuilder { alloc, mut keys } = self;
        keys.truncate(root as usize + 1);
        match nodes_of(alloc, keys) {
            Ok(nodes) => Ok(ProofGraph { nodes }),
            Err(_) => Err(Memory),
        }
    }
}

fn nodes_of(alloc: Global, keys: IndexSet<Key>) -> Result<Vec<ProofNode>, Memory>
    ensures { IfOk result (λ nodes. nodes.items ≡ nodes_of_keys keys.keys) }
{
    let mut nodes = Vec::new(alloc);
    for key in keys {
        nodes.push(node_of(key))?;
    }
    Ok(nodes)
}

fn node_of(key: Key) -> ProofNode
    ensures { result ≡ node_of_key key }
{
    let Key { label, below } = key;
    ProofNode {
        label: List::from_vec(label),
        below: List::from_vec(below),
    }
}
