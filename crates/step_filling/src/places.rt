ghost use Rattle.std.specs.Prelude.{◌≡◌, ◌++◌, map, IfOk, OnOk};
ghost use Rattle.sheet_text.specs.declared.sheet.Given.TheVariants as given;
ghost use Rattle.written_model.specs.Filled.{written_place as place_among};

use mm_base::{List, Memory};
use sheet_text::Given;
use std::alloc::Global;

/// A place among the written steps, where the steps read so far have these numbers there.
fn written_place(numbers: &[u32], place: Given) -> Given
    ensures { result ≡ place_among numbers.now place }
{
    match place {
        Given::Gap => Given::Gap,
        Given::Step(k) => match numbers.get(k as usize) {
            None => Given::Step(0),
            Some(number) => Given::Step(*number),
        },
    }
}

fn put_places(written: &mut Vec<Given>, numbers: &[u32], places: &[Given]) -> Result<(), Memory>
    ensures { OnOk result (written.new.items ≡ written.old.items ++ map (place_among numbers.now) places.now) }
{
    for place in places {
        written.push(written_place(numbers, *place))?;
    }
    Ok(())
}

fn put_numbers(written: &mut Vec<Given>, more: &[u32]) -> Result<(), Memory>
    ensures { OnOk result (written.new.items ≡ written.old.items ++ map (λ k. given.Step k) more.now) }
{
    for number in more {
        written.push(Given::Step(*number))?;
    }
    Ok(())
}

/// Places among the written steps, and then the steps that fill.
pub fn written_places(
    alloc: Global,
    numbers: &[u32],
    places: &[Given],
    more: &[u32],
) -> Result<List<Given>, Memory>
    ensures { IfOk result (λ written. written ≡ map (place_among numbers.now) places.now ++ map (λ k. given.Step k) more.now) }
{
    let mut written = Vec::new(alloc);
    put_places(&mut written, numbers, places)?;
    put_numbers(&mut written, more)?;
    Ok(List::from_vec(written))
}
