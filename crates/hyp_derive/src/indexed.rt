ghost use Rattle.std.specs.Prelude.{◌≡◌, ◌++◌, IfOk, OnOk, position};
ghost use Rattle.std.specs.List.{position_or_len};
ghost use Rattle.solve_model.specs.Trees.{same_tree};
ghost use Rattle.written_model.specs.Filled.{fill as filled_by};
ghost use Rattle.hyp_derive.specs.Filling.{with_tree};

use crate::filling::numbered;
use crate::tree_index::TreeIndex;
use mm_base::{List, Memory, Tree};
use solve_laws::same_trees_are_equal;
use std::alloc::Global;
use written_model::Filled;

/// The first place of an equal tree among the earlier ones and then the new ones.
fn place_of(earlier: &TreeIndex, made: &TreeIndex, tree: &Tree) -> Option<usize>
    ensures { result ≡ position (same_tree tree.now) (earlier.now ++ made.now) }
{
    match earlier.position(tree) {
        Some(place) => Some(place as usize),
        None => match made.position(tree) {
            Some(place) => Some(earlier.len() as usize + place as usize),
            None => None,
        },
    }
}

/// The place of a wanted tree, which is put behind the new ones where it is not there yet.
fn add(earlier: &TreeIndex, made: &mut TreeIndex, tree: &Tree) -> Result<u32, Memory>
    ensures made { OnOk result (made.new ≡ with_tree earlier.now made.old tree.now) }
    ensures place { IfOk result (λ place. place ≡ position_or_len (same_tree tree.now) (earlier.now ++ made.old)) }
{
    match place_of(earlier, made, tree) {
        Some(place) => numbered(place),
        None => {
            let place = numbered(earlier.len() as usize + made.len() as usize)?;
            made.push(tree.copy()?)?;
            Ok(place)
        }
    }
}

/// Steps for wanted trees: each is that of the first earlier tree that is equal, and else of a new one, which later
/// wanted trees may name too. It takes memory for the new trees and a number for each wanted one, and the time to read
/// the wanted trees and to compare each with those of its hash. Beyond 2^32 trees it answers want of memory.
pub fn fill_from(alloc: Global, earlier: &TreeIndex, wanted: &[Tree]) -> Result<Filled, Memory>
    ensures { IfOk result (λ filled. filled ≡ filled_by earlier.now wanted.now) }
{
    same_trees_are_equal();
    let mut made = TreeIndex::new(alloc);
    let mut places = Vec::new(alloc);
    for tree in wanted {
        let place = add(earlier, &mut made, tree)?;
        places.push(place)?;
    }
    Ok(Filled {
        made: made.into_trees(),
        places: List::from_vec(places),
    })
}
