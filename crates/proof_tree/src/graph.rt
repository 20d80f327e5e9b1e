use mm_base::{List, Name};
use std::marker::Model;

/// A proof: its last label, and by number the nodes of the proofs of its hypotheses, in order.
#[derive(Debug, Drop)]
pub struct ProofNode {
    pub label: Name,
    pub below: List<u32>,
}

/// Proofs as nodes, no two of them equal. Each stands behind those that it names, and the last one is the root.
#[derive(Drop)]
pub struct ProofGraph {
    pub(crate) nodes: Vec<ProofNode>,
}

impl Model for ProofGraph {
    ghost use Rattle.std.specs.Prelude.{List};
    ghost use Rattle.proof_tree.specs.declared.graph.ProofNode.{ProofNode};
    ghost use Rattle.proof_tree.specs.Graphs.{IsGraph};

    ghost Value = { List ProofNode };

    ghost view = { λ g. g.nodes.items };

    ghost invariant = { λ g. IsGraph g.nodes.items };
}

impl ProofGraph {
    ghost use Rattle.std.specs.Prelude.{◌≡◌, ◌<◌, ◌^◌, length};
    ghost use Rattle.proof_tree.specs.Graphs.{IsGraph, NameEarlier, NodesDiffer};

    /// Its nodes.
    pub fn nodes(&self) -> &[ProofNode]
        ensures nodes { result.now ≡ self.now }
        ensures graph { IsGraph result.now }
        ensures earlier { NameEarlier 0 result.now }
        ensures root { 0 < length result.now }
    {
        self.nodes.as_slice()
    }
}
