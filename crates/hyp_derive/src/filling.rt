ghost use Rattle.std.specs.Prelude.{◌≡◌, ◌++◌, false, true, MatchOption, position, IfOk, OnOk};
ghost use Rattle.std.specs.List.{list_any, position_or_len};
ghost use Rattle.solve_model.specs.Trees.{same_tree};
ghost use Rattle.written_model.specs.Filled.{fill as filled_by};
ghost use Rattle.hyp_derive.specs.Filling.{with_tree};

use mm_base::{List, Memory, Tree, is_same};
use solve_laws::same_trees_are_equal;
use std::alloc::Global;
use written_model::Filled;

/// The first place of an equal tree.
fn place_in(trees: &[Tree], tree: &Tree) -> Option<usize>
    ensures { result ≡ position (same_tree tree.now) trees.now }
{
    trees.iter().position(|other| is_same(tree, other))
}

/// The first place of an equal tree among the earlier ones and then the new ones.
fn place_of(earlier: &[Tree], made: &[Tree], tree: &Tree) -> Option<usize>
    ensures { result ≡ position (same_tree tree.now) (earlier.now ++ made.now) }
{
    match place_in(earlier, tree) {
        Some(place) => Some(place),
        None => match place_in(made, tree) {
            Some(place) => Some(earlier.len() + place),
            None => None,
        },
    }
}

/// The place of a wanted tree, which is put behind the new ones where it is not there yet.
fn add(earlier: &[Tree], made: &mut Vec<Tree>, tree: &Tree) -> Result<u32, Memory>
    ensures made { OnOk result (made.new.items ≡ with_tree earlier.now made.old.items tree.now) }
    ensures place { IfOk result (λ place. place ≡ position_or_len (same_tree tree.now) (earlier.now ++ made.old.items)) }
{
    match place_of(earlier, made.as_slice(), tree) {
        Some(place) => numbered(place),
        None => {
            let place = numbered(earlier.len() + made.len())?;
            made.push(tree.copy()?)?;
            Ok(place)
        }
    }
}

/// The place as a number; more than 2^32 trees are more than memory is meant for.
pub fn numbered(place: usize) -> Result<u32, Memory>
    ensures { IfOk result (λ number. number ≡ place) }
{
    match u32::try_from(place) {
        Ok(number) => Ok(number),
        Err(_) => Err(Memory),
    }
}

/// Steps for wanted trees: each is that of the first earlier tree that is equal, and else of a new one, which later
/// wanted trees may name too. It takes memory for the new trees and a number for each wanted one. Each wanted tree is
/// compared with those before it, up to the first node that differs. Beyond 2^32 trees it answers want of memory.
pub fn fill(alloc: Global, earlier: &List<Tree>, wanted: &List<Tree>) -> Result<Filled, Memory>
    ensures { IfOk result (λ filled. filled ≡ filled_by earlier.now wanted.now) }
{
    same_trees_are_equal();
    let mut made = Vec::new(alloc);
    let mut places = Vec::new(alloc);
    let known = earlier.as_slice();
    for tree in wanted.as_slice() {
        let place = add(known, &mut made, tree)?;
        places.push(place)?;
    }
    Ok(Filled {
        made: List::from_vec(made),
        places: List::from_vec(places),
    })
}
