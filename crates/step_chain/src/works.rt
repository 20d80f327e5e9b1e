ghost use Rattle.std.specs.Prelude.{◌≡◌, ◌++◌, ◌∷◌, [], None, IfOk, OnOk};
ghost use Rattle.chain_laws.specs.Adding.{work_at};

use chain_laws::WorkNode;
use indexmap::IndexMap;
use mm_base::{Memory, Sym, Typecode};
use std::alloc::Global;
use std::marker::Model;

/// The work variables of a worksheet with their nodes, in the order in which they were put in, and by a look-up in constant
/// time.
#[derive(Drop)]
pub struct WorkTable {
    /// By the number of the typecode's symbol and the work variable's own number.
    nodes: IndexMap<(u32, u32), u32>,
}

impl Model for WorkTable {
    ghost use Rattle.std.specs.Prelude.{List, map};
    ghost use Rattle.chain_laws.specs.declared.leaves.WorkNode.{WorkNode};
    ghost use Rattle.step_chain.specs.Works.{work_of};

    ghost Value = { List WorkNode };

    ghost view = { λ t. map work_of t.nodes.entries };
}

impl WorkTable {
    /// No work variables.
    pub fn new(alloc: Global) -> WorkTable
        ensures { result ≡ [] }
    {
        WorkTable {
            nodes: IndexMap::new(alloc),
        }
    }

    /// The node of a work variable; none where it is not among them.
    pub fn node(&self, code: Typecode, number: u32) -> Option<u32>
        ensures { result ≡ work_at self.now code number }
    {
        self.nodes.get(&(code.0.0, number)).copied()
    }

    /// Puts in a work variable that is not there.
    pub fn add(&mut self, code: Typecode, number: u32, node: u32) -> Result<(), Memory>
        requires { work_at self.old code number ≡ None }
        ensures { OnOk result (self.new ≡ self.old ++ record { code = code; number = number; node = node } ∷ []) }
    {
        self.nodes.insert((code.0.0, number), node)?;
        Ok(())
    }

    /// The work variables with their nodes, as a list.
    pub fn list(&self, alloc: Global) -> Result<Vec<WorkNode>, Memory>
        ensures { IfOk result (λ works. works.items ≡ self.now) }
    {
        let works = self
            .nodes
            .iter()
            .map(|(name, node)| WorkNode {
                code: Typecode(Sym(name.0)),
                number: name.1,
                node: *node,
            })
            .collect(alloc)?;
        Ok(works)
    }
}
