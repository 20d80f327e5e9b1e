ghost use Rattle.std.specs.Prelude.{◌≡◌, ◌<◌, ◌≤◌, length, true, OnOk, OnErr};
ghost use Rattle.std.specs.Bool.{OnTrue, OnFalse};
ghost use Rattle.term_model.specs.Store.{IsSolved};
ghost use Rattle.chain_laws.specs.Layout.{Joins, CannotJoin};
ghost use Rattle.step_chain.specs.Joined.{pairs_of, ArePairsIn, KeepsNodes};

use term_arena::{Arena, Id};
use term_unify::{NoFit, unify};

/// Gives the two nodes of each pair one tree, where some solution does. It takes no memory. `NoFit`: no solution gives them
/// one tree, and nothing has changed.
pub fn join_all(arena: &mut Arena, pairs: &[(Id, Id)]) -> Result<(), NoFit>
    requires ready { arena.old.ready ≡ true }
    requires inside { ArePairsIn (length arena.old.nodes) pairs.now }
    requires solved { IsSolved arena.old.nodes arena.old.links }
    ensures kept { KeepsNodes arena.old arena.new }
    ensures solved { IsSolved arena.new.nodes arena.new.links }
    ensures joined { OnOk result (Joins arena.old.nodes arena.old.links arena.new.links (pairs_of pairs.now)) }
    ensures cannot { OnErr result (CannotJoin arena.old.nodes arena.old.links (pairs_of pairs.now)) }
    ensures unchanged { OnErr result (arena.new ≡ arena.old) }
{
    let mark = arena.mark();
    if join_each(arena, pairs) {
        return Ok(());
    }
    arena.undo_to(mark);
    Err(NoFit)
}

/// The same; where some pair has no common tree, the bindings of those before it stay.
fn join_each(arena: &mut Arena, pairs: &[(Id, Id)]) -> bool
    requires ready { arena.old.ready ≡ true }
    requires inside { ArePairsIn (length arena.old.nodes) pairs.now }
    requires solved { IsSolved arena.old.nodes arena.old.links }
    ensures kept { KeepsNodes arena.old arena.new }
    ensures solved { IsSolved arena.new.nodes arena.new.links }
    ensures joined { OnTrue result (Joins arena.old.nodes arena.old.links arena.new.links (pairs_of pairs.now)) }
    ensures cannot { OnFalse result (CannotJoin arena.old.nodes arena.old.links (pairs_of pairs.now)) }
{
    for pair in pairs {
        let (left, right) = *pair;
        match unify(arena, left, right) {
            Ok(()) => {}
            Err(NoFit) => return false,
        }
    }
    true
}
