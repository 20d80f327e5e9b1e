ghost use Rattle.std.specs.Prelude.{◌≡◌, ◌≤◌, IfOk, IsSome};
ghost use Rattle.step_chain.specs.Values.{accepted_at, value_of};
ghost use Rattle.step_chain.specs.Answers.{OfAccepted, constants_of};
ghost use Rattle.step_filling.specs.Wanted.{wanted_from, AreWanted};

use mm_base::{Memory, Tree};
use std::alloc::Global;
use step_chain::{ChainTrees, TreeFault};

/// The trees that are wanted for a step, up to the first that is too long.
#[derive(Drop)]
pub struct Wanted {
    /// Those before the first that is too long; all of them where none is.
    pub trees: Vec<Tree>,
    /// The tokens of the first that is too long.
    pub long: Option<u64>,
}

/// The `$e` of an accepted step from a number on, up to the first that is too long.
pub fn read_wanted(
    alloc: Global,
    trees: &ChainTrees<'_, '_>,
    i: u32,
    first: usize,
) -> Result<Wanted, Memory>
    requires { IsSome (accepted_at trees.now i) }
    ensures { IfOk result (λ w. OfAccepted trees.now i (λ y. AreWanted (constants_of trees.now) (wanted_from (value_of trees.now) i first y.assertion.hyps) w.trees.items w.long)) }
{
    let mut found = Vec::new(alloc);
    for k in first..trees.chain().hyps(i) {
        match trees.place(i, k) {
            Ok(tree) => found.push(tree)?,
            Err(TreeFault::Memory) => return Err(Memory),
            Err(TreeFault::TooLong(tokens)) => {
                return Ok(Wanted {
                    trees: found,
                    long: Some(tokens),
                });
            }
        }
    }
    Ok(Wanted {
        trees: found,
        long: None,
    })
}
