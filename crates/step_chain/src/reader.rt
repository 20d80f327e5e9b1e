ghost use Rattle.std.specs.Prelude.{◌≡◌, ◌<◌, length, IfOk};
ghost use Rattle.step_chain.specs.Grown.{AreVariablesIn};
ghost use Rattle.step_chain.specs.Answers.{AreReadOff};

use crate::reading::{TreeFault, Trees};
use chain_laws::VariableNode;
use mm_base::{List, Tree};
use std::alloc::Global;
use term_arena::Id;

/// The trees of the nodes of variables, in order, or the fault of the first that is too long.
pub fn values(
    alloc: Global,
    trees: &Trees<'_, '_>,
    variables: &[VariableNode],
) -> Result<List<Tree>, TreeFault>
    requires { AreVariablesIn (length trees.now.nodes) variables.now }
    ensures read { AreReadOff trees.now variables.now result }
    ensures count { IfOk result (λ ts. length ts ≡ length variables.now) }
{
    let mut values = Vec::new(alloc);
    for variable in variables {
        match trees.tree(Id(variable.node)) {
            Err(fault) => return Err(fault),
            Ok(tree) => {
                if values.push(tree).is_err() {
                    return Err(TreeFault::Memory);
                }
            }
        }
    }
    Ok(List::from_vec(values))
}
