//! Hypotheses in order of appearance.

ghost use Rattle.std.specs.Prelude.{◌≡◌, IfOk, OnOk, map};
ghost use Rattle.frame_lists.specs.Steps.{float_of, labels_of, or_more, hypothesis_at};
ghost use Rattle.frame_lists.specs.Orders.{AreHypotheses};

use crate::listed::Listed;
use crate::scope::Scope;
use crate::sorted::rising;
use mm_base::{List, Memory};
use mm_model::Hyp;
use number_set::NumberSet;
use std::alloc::Global;

/// The label of the active `$f` of a variable.
fn float_of(scope: &Scope, variable: u32) -> Option<u32>
    ensures { result ≡ float_of scope.now variable }
{
    match scope.typed.place(variable) {
        None => None,
        Some(place) => scope.floats.as_slice().get(place).copied(),
    }
}

fn push_found(labels: &mut Vec<u32>, label: Option<u32>) -> Result<(), Memory>
    ensures { OnOk result (labels.new.items ≡ or_more labels.old.items label) }
{
    match label {
        None => Ok(()),
        Some(label) => Ok(labels.push(label)?),
    }
}

/// The labels of all active `$e` and of the active `$f` of these variables, in no order.
fn labels_of(alloc: Global, scope: &Scope, variables: &[u32]) -> Result<Vec<u32>, Memory>
    ensures { IfOk result (λ v. v.items ≡ labels_of scope.now variables.now) }
{
    let mut labels = Vec::from_slice(alloc, scope.essentials.as_slice())?;
    for variable in variables {
        push_found(&mut labels, float_of(scope, *variable))?;
    }
    Ok(labels)
}

/// The hypotheses of these labels.
fn hypotheses(alloc: Global, listed: &Listed, labels: &[u32]) -> Result<List<Hyp>, Memory>
    ensures { IfOk result (λ hyps. hyps ≡ map (hypothesis_at listed.now) labels.now) }
{
    let mut hyps = Vec::with_capacity(alloc, labels.len())?;
    for label in labels {
        hyps.push(listed.hypothesis(alloc, *label)?)?;
    }
    Ok(List::from_vec(hyps))
}

/// All active `$e` and the active `$f` of these variables, in order of appearance.
pub(crate) fn mandatory_hypotheses(
    alloc: Global,
    listed: &Listed,
    scope: &Scope,
    variables: &NumberSet,
) -> Result<List<Hyp>, Memory>
    ensures { IfOk result (λ hyps. AreHypotheses listed.now (labels_of scope.now variables.now) hyps) }
{
    let labels = rising(labels_of(alloc, scope, variables.items())?);
    hypotheses(alloc, listed, labels.as_slice())
}

/// All active hypotheses, in order of appearance.
pub(crate) fn active_hypotheses(
    alloc: Global,
    listed: &Listed,
    scope: &Scope,
) -> Result<List<Hyp>, Memory>
    ensures { IfOk result (λ hyps. hyps ≡ map (hypothesis_at listed.now) scope.now.hyps) }
{
    hypotheses(alloc, listed, scope.hyps.as_slice())
}
