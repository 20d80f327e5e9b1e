ghost use Rattle.std.specs.Prelude.{◌≡◌, OnOk};
ghost use Rattle.sheet_bind.specs.Rules.{no_hyps, noted, with_label};

use mm_base::{Memory, Name};
use names::Names;
use sheet_text::SheetStep;
use std::alloc::Global;

/// The `h` steps so far: how many they are, and their labels, each once.
#[derive(Drop)]
pub struct HypSteps {
    pub count: usize,
    pub labels: Names,
}

/// None so far.
pub fn no_hyps(alloc: Global) -> HypSteps
    ensures { result ≡ no_hyps }
{
    HypSteps {
        count: 0,
        labels: Names::new(alloc),
    }
}

/// Notes one more step. `Memory`: there is no room, or there are more than 2^32 - 2 labels, which no worksheet within the
/// limits has.
pub fn note(hyps: &mut HypSteps, step: &SheetStep) -> Result<(), Memory>
    ensures { OnOk result (hyps.new ≡ noted hyps.old step.now) }
{
    if !step.hyp {
        return Ok(());
    }
    let Some(count) = hyps.count.checked_add(1) else {
        return Err(Memory);
    };
    hyps.count = count;
    note_label(&mut hyps.labels, &step.reference)
}

fn note_label(labels: &mut Names, label: &Option<Name>) -> Result<(), Memory>
    ensures { OnOk result (labels.new ≡ with_label labels.old label.now) }
{
    let Some(label) = label else {
        return Ok(());
    };
    if labels.contains(label.as_slice()) {
        return Ok(());
    }
    if labels.count() >= u32::MAX - 1 {
        return Err(Memory);
    }
    labels.add(label.as_slice())?;
    Ok(())
}
