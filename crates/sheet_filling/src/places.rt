ghost use Rattle.std.specs.Prelude.{◌≡◌, map, IfOk};
ghost use Rattle.sheet_text.specs.declared.sheet.Given.TheVariants as given;
ghost use Rattle.sheet_filling.specs.Filled as spec;

use auto_model::Auto;
use mm_base::{List, Memory, Name};
use mm_frames::Frames;
use sheet_text::{Given, SheetStep};
use std::alloc::Global;
use written_steps::label_name;

/// The places that name the steps of these numbers.
fn places_of(alloc: Global, numbers: &[u32]) -> Result<List<Given>, Memory>
    ensures { IfOk result (λ places. places ≡ map (λ k. given.Step k) numbers.now) }
{
    let mut places = Vec::new(alloc);
    for number in numbers {
        places.push(Given::Step(*number))?;
    }
    Ok(List::from_vec(places))
}

/// The step with this reference and these places.
fn with_reference(step: SheetStep, reference: Name, places: List<Given>) -> SheetStep
    ensures { result ≡ spec.with_reference step reference places }
{
    let SheetStep {
        line,
        hyp,
        name,
        places: _,
        reference: _,
        formula,
    } = step;
    SheetStep {
        line,
        hyp,
        name,
        places,
        reference: Some(reference),
        formula,
    }
}

/// The step with what fills it.
fn filled_with(
    alloc: Global,
    frames: &Frames,
    auto: &Auto,
    step: SheetStep,
) -> Result<SheetStep, Memory>
    ensures { IfOk result (λ s. s ≡ spec.filled_with frames.now step auto.now) }
{
    let reference = List::copy_of(alloc, label_name(frames, auto.label))?;
    let places = places_of(alloc, auto.places.as_slice())?;
    Ok(with_reference(step, reference, places))
}

/// The step with what fills it, where there is something.
pub(crate) fn filled_step(
    alloc: Global,
    frames: &Frames,
    found: &Option<Auto>,
    step: SheetStep,
) -> Result<SheetStep, Memory>
    ensures { IfOk result (λ s. s ≡ spec.step_with frames.now step found.now) }
{
    match found {
        None => Ok(step),
        Some(auto) => filled_with(alloc, frames, auto, step),
    }
}
