ghost use Rattle.std.specs.Prelude.{◌≡◌, ◌<◌, ◌≤◌, filter, length, slice_index_or, IfOk};
ghost use Rattle.std.specs.List.{range_with_len};
ghost use Rattle.std.specs.Option.{option_copied};
ghost use Rattle.written_model.specs.Found as spec;
ghost use Rattle.written_model.specs.WrittenSteps.{no_tree};
ghost use Rattle.auto_fill.specs.Answers.{IsAnswer};
ghost use Rattle.auto_fill.specs.Labelling.{HasAuto, IsSound};
ghost use Rattle.auto_fill.specs.Ready.{IsPlace};

use crate::labelling::first_below;
use crate::sought::Sought;
use auto_model::Auto;
use mm_base::{List, Memory, Pair, Tree};
use mm_database::Database;
use ref_search::is_ground;
use std::alloc::Global;

/// The numbers of the steps before one that have no work variable.
fn ground_places(alloc: Global, trees: &[Tree], number: u32) -> Result<Vec<u32>, Memory>
    requires { number ≤ length trees.now }
    ensures { IfOk result (λ places. places.items ≡ filter (λ k. spec.is_ground (slice_index_or trees.now k no_tree)) (range_with_len 0 number)) }
{
    let mut places = Vec::new(alloc);
    for k in 0..number {
        if is_ground(&trees[k as usize]) {
            places.push(k)?;
        }
    }
    Ok(places)
}

/// What fills a step that lists no places: the first usable assertion before a place, in database order, that has one to
/// three `$e`, and of which one substitution makes the conclusion the step's formula and the `$e` the formulas of earlier
/// steps without a work variable, without a clash; where pairs are given, each needed pair has to be among them. Of the
/// tuples of earlier steps it takes the first in lexicographic order; a step may stand in it several times. None exactly
/// where there is none. The steps are given by their formulas, in order, and the one to fill by its number.
///
/// It goes through the assertions whose conclusion is a variable and those with the head of the step's formula. Where the
/// conclusion becomes the formula it looks for a step for each `$e` alone, and only where each has one does it try tuples.
/// It takes memory for the numbers of the earlier steps, for one tuple and the bindings of an assertion, and for copies of the
/// values where all trees become those of the worksheet.
///
/// # Errors
/// `Memory`: there is no room for them.
pub fn fill_ref(
    alloc: Global,
    db: &Database,
    place: u32,
    trees: &[Tree],
    number: u32,
    allowed: Option<&List<Pair>>,
) -> Result<Option<Auto>, Memory>
    requires { IsPlace trees.now number }
    ensures answer { IfOk result (IsAnswer db.now place (option_copied allowed.entry) trees.now number) }
    ensures sound { IfOk result (HasAuto (IsSound db.now (length db.now.contents.labels))) }
{
    let places = ground_places(alloc, trees, number)?;
    let bound = db.before(place);
    let sought = Sought {
        trees,
        number,
        places: places.as_slice(),
        given: allowed,
    };
    first_below(alloc, db, bound, &sought)
}
