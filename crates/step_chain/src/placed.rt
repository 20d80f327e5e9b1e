ghost use Rattle.std.specs.Prelude.{◌≡◌, ◌↔◌, length, IsTrue};
ghost use Rattle.std.specs.List.{list_all};
ghost use Rattle.step_chain.specs.Steps.{ArePlaced, place_in, step_placed};

use sheet_text::Given;
use solve_model::{Bound, BoundStep};

fn place_in(place: &Given, count: usize) -> bool
    ensures { result ≡ place_in count place.now }
{
    match place {
        Given::Gap => true,
        Given::Step(step) => (*step as usize) < count,
    }
}

fn places_in(places: &[Given], count: usize) -> bool
    ensures { result ≡ list_all (place_in count) places.now }
{
    places.iter().all(|place| place_in(place, count))
}

fn step_placed(step: &BoundStep, count: usize) -> bool
    ensures { result ≡ step_placed count step.now }
{
    let places = step.places.as_slice();
    if places.len() > u32::MAX as usize {
        return false;
    }
    places_in(places, count)
}

fn steps_placed(steps: &[BoundStep], count: usize) -> bool
    ensures { result ≡ list_all (step_placed count) steps.now }
{
    steps.iter().all(|step| step_placed(step, count))
}

/// Whether the places of each step name steps of the worksheet, as those of a worksheet that was read do. It takes time in
/// proportion to the places.
pub fn are_placed(bound: &Bound) -> bool
    ensures { IsTrue result ↔ ArePlaced bound.now }
{
    let steps = bound.steps.as_slice();
    steps_placed(steps, steps.len())
}
