ghost use Rattle.std.specs.Prelude.{◌≡◌, IfOk};
ghost use Rattle.written_model.specs.Filled.{reported as reported_of};
ghost use Rattle.step_filling.specs.Kept.{derived_draft, draft_of};

use crate::copies::copied_reference;
use mm_base::{List, Memory, Name, Tree};
use sheet_text::{Given, SheetStep};
use solve_model::Verdict;
use std::alloc::Global;
use written_model::ReportVerdict;
use written_steps::{DraftStep, StepUse};

/// What is reported of a verdict.
pub fn reported(verdict: Verdict) -> ReportVerdict
    ensures { result ≡ reported_of verdict }
{
    match verdict {
        Verdict::Fits => ReportVerdict::Fits,
        Verdict::NoFit => ReportVerdict::NoFit,
        Verdict::UnknownRef => ReportVerdict::UnknownRef,
        Verdict::NotUsable => ReportVerdict::NotUsable,
        Verdict::TooManyHyps => ReportVerdict::TooManyHyps,
        Verdict::NoRef => ReportVerdict::NoRef,
        Verdict::Hyp => ReportVerdict::Hyp,
    }
}

/// A new step of a formula.
pub fn derived_step(alloc: Global, name: Name, tree: Tree) -> DraftStep
    ensures { result ≡ derived_draft name tree }
{
    DraftStep {
        hyp: false,
        name,
        places: List::from_vec(Vec::new(alloc)),
        reference: None,
        tree,
        verdict: ReportVerdict::NoRef,
        by: None,
    }
}

/// A step of the worksheet with these places, formula, verdict and use.
pub fn own_step(
    alloc: Global,
    step: &SheetStep,
    places: List<Given>,
    tree: Tree,
    verdict: ReportVerdict,
    by: Option<StepUse>,
) -> Result<DraftStep, Memory>
    ensures { IfOk result (λ s. s ≡ draft_of step.now places tree verdict by) }
{
    let name = List::copy_of(alloc, step.name.as_slice())?;
    let reference = copied_reference(alloc, &step.reference)?;
    Ok(DraftStep {
        hyp: step.hyp,
        name,
        places,
        reference,
        tree,
        verdict,
        by,
    })
}
