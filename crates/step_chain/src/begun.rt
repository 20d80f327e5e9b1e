ghost use Rattle.std.specs.Prelude.{◌≡◌, [], length, IfOk};
ghost use Rattle.mm_model.specs.Names.{typecode};
ghost use Rattle.mm_model.specs.Frames.{symbol_in};
ghost use Rattle.term_model.specs.Store.{IsSolved};
ghost use Rattle.term_model.specs.Sizes.{HaveConstants};
ghost use Rattle.chain_laws.specs.Adding.{constants_in};
ghost use Rattle.step_chain.specs.Grown.{IsGrown};
ghost use Rattle.step_chain.specs.Levels.{IsFront};

use crate::formulas::{FormulaNodes, add_all};
use chain_laws::bound_is_ready;
use mm_base::{Kinds, Memory, Sym, Typecode};
use mm_database::Database;
use mm_frames::Frames;
use solve_model::Bound;
use std::alloc::Global;
use term_arena::Arena;

/// The logic typecode; past the last symbol where the database does not declare it.
pub fn logic_code(frames: &Frames, kinds: &Kinds) -> Typecode
    ensures { result ≡ typecode (symbol_in frames.now.symbols kinds.now.logic) }
{
    match frames.symbol(kinds.logic.as_slice()) {
        None => Typecode(Sym(frames.symbols())),
        Some(symbol) => Typecode(symbol),
    }
}

/// Adds the nodes of a bound worksheet's formulas to an empty store, where this is the logic typecode: it is then that of the
/// worksheet with no step pushed.
/// `Memory`: there is no room for them.
pub fn begin(
    alloc: Global,
    arena: &mut Arena,
    db: &Database,
    logic: Typecode,
    bound: &Bound,
) -> Result<FormulaNodes, Memory>
    requires nodes { arena.old.nodes ≡ [] }
    requires links { arena.old.links ≡ [] }
    requires solved { IsSolved arena.old.nodes arena.old.links }
    ensures front { IfOk result (λ f. IsFront db.now logic bound.now f.works.items f.formulas.items [] arena.new.nodes arena.new.links) }
    ensures count { IfOk result (λ f. length f.formulas.items ≡ length bound.now.steps) }
    ensures constants { IfOk result (λ f. HaveConstants (constants_in db.now.rows) arena.new.nodes) }
    ensures grows { IsGrown arena.old arena.new }
{
    bound_is_ready();
    let nodes = add_all(alloc, arena, db.grammar(), logic, bound.steps.as_slice());
    let _count = arena.count();
    nodes
}
