ghost use Rattle.std.specs.Prelude.{◌≡◌, fold};
ghost use Rattle.solve_model.specs.Trees.{variables};
ghost use Rattle.distinct_vars.specs.Shared.{lesser_from, IsLeastShared};

use mm_base::{Sym, Tree};

fn lesser(low: u32, best: Option<u32>, symbol: Sym) -> Option<u32>
    ensures { result ≡ lesser_from low best symbol }
{
    match best {
        None => if low <= symbol.0 {
            Some(symbol.0)
        } else {
            None
        },
        Some(least) => if low <= symbol.0 && symbol.0 < least {
            Some(symbol.0)
        } else {
            Some(least)
        },
    }
}

/// The least of a number and those of a tree's variables from `low` on.
fn least_from(tree: &Tree, low: u32, best: Option<u32>) -> Option<u32>
    ensures { result ≡ fold (lesser_from low) best (variables tree.now) }
{
    match tree {
        Tree::Var(symbol, _) => lesser(low, best, *symbol),
        Tree::Work(_, _) => best,
        Tree::Fresh(_, _) => best,
        Tree::Node(_, _, children) => {
            let mut least = best;
            for child in children.as_slice() {
                least = least_from(child, low, least);
            }
            least
        }
    }
}

/// The least variable, by its number, that two trees share. Each pass over the trees finds a greater variable of the one
/// or the other, so the passes are not more than the different variables of both.
pub fn least_shared(one: &Tree, other: &Tree) -> Option<u32>
    ensures { IsLeastShared (variables one.now) (variables other.now) result }
{
    let mut low = 0;
    loop {
        let Some(first) = least_from(one, low, None) else {
            return None;
        };
        let Some(second) = least_from(other, first, None) else {
            return None;
        };
        if first == second {
            return Some(first);
        }
        low = second;
    }
}
