ghost use Rattle.std.specs.Prelude.{◌≡◌, map, IfOk};
ghost use Rattle.written_steps.specs.declared.draft.DraftStep.{DraftStep as StepOf};
ghost use Rattle.written_steps.specs.Drafts.{drafts_in, refs};
ghost use Rattle.sheet_unify.specs.Ended.{IsKept};

use crate::kept::Kept;
use mm_base::{List, Memory, Tree};
use solve_model::Bound;
use std::alloc::Global;
use written_steps::{DraftItem, DraftStep, draft_steps};

fn copies(alloc: Global, steps: &[&DraftStep]) -> Result<List<Tree>, Memory>
    ensures { IfOk result (λ trees. trees ≡ map (λ (s : StepOf). s.tree) (refs steps.now)) }
{
    let mut trees = Vec::new(alloc);
    for step in steps {
        trees.push(step.tree.copy()?)?;
    }
    Ok(List::from_vec(trees))
}

/// Copies of the trees of the steps.
fn trees_of(alloc: Global, items: &[DraftItem]) -> Result<List<Tree>, Memory>
    ensures { IfOk result (λ trees. trees ≡ map (λ (s : StepOf). s.tree) (drafts_in items.now)) }
{
    let steps = draft_steps(alloc, items)?;
    copies(alloc, steps.as_slice())
}

/// What is kept of the steps.
pub fn kept_of(alloc: Global, bound: &Bound, items: &[DraftItem]) -> Result<Kept, Memory>
    ensures { IfOk result (IsKept bound.now items.now) }
{
    let given = List::copy_of(alloc, bound.pairs.as_slice())?;
    let trees = trees_of(alloc, items)?;
    Ok(Kept { given, trees })
}
