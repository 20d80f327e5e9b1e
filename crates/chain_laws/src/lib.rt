//! Laws that join the store of terms to the solutions of a worksheet. Each is the contract of a function that does nothing.
#![tactic(auto)]

mod leaves;

ghost use Rattle.chain_laws.specs.Laws.{MostGeneralExists, BoundIsReady, CandidatesAreReady, EachHasMostGeneral};

pub use leaves::{VariableNode, WorkNode};
use model_laws::{frames_have_own_expressions, has_database_facts};

/// Where a valuation solves typed formulas and candidates, there is a most general one.
pub fn most_general_exists()
    ensures { MostGeneralExists }
{}

/// The formulas of a bound worksheet are typed before its place.
pub fn bound_is_ready()
    ensures { BoundIsReady }
{}

/// The trees of a candidate are typed before the worksheet's place, and have its mandatory variables alone.
pub fn candidates_are_ready()
    ensures { CandidatesAreReady }
{
    has_database_facts();
    frames_have_own_expressions();
}

/// Where a valuation solves the candidates of a bound worksheet, there is a most general one.
pub fn has_most_general()
    ensures { EachHasMostGeneral }
{
    most_general_exists();
    bound_is_ready();
    candidates_are_ready();
}
