ghost use Rattle.std.specs.Prelude.{◌≡◌, map, slice_index_or, IfOk};
ghost use Rattle.sheet_text.specs.declared.sheet.Given.{Given};
ghost use Rattle.sheet_text.specs.declared.sheet.Given.TheVariants as given;

use mm_base::{List, Memory};
use sheet_text::Given;
use std::alloc::Global;

/// The place of a number; a `?` past the last.
fn place_at(places: &[Given], number: u32) -> Given
    ensures { result ≡ slice_index_or places.now number given.Gap }
{
    match places.get(number as usize) {
        Some(place) => *place,
        None => Given::Gap,
    }
}

/// The places in an order that has their numbers.
pub fn in_order(alloc: Global, places: &[Given], order: &[u32]) -> Result<List<Given>, Memory>
    ensures { IfOk result (λ ordered. ordered ≡ map (λ k. slice_index_or places.now k given.Gap) order.now) }
{
    let mut ordered = Vec::new(alloc);
    for number in order {
        ordered.push(place_at(places, *number))?;
    }
    Ok(List::from_vec(ordered))
}
