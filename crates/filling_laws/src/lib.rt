//! Laws of a chain whose steps are all judged, and of what its worksheet is filled to. Each is the contract of a function that
//! does nothing.
#![tactic(auto)]

ghost use Rattle.filling_laws.specs.Counted.{AcceptedAreCandidates, FrontsAreCounted};
ghost use Rattle.filling_laws.specs.Leaves.{LeavesAreSmall};
ghost use Rattle.filling_laws.specs.Values.{BoundComesBefore, ValuesAreShort};

use again_laws::assertions_are_whole;
use model_laws::has_database_facts;
use sheet_laws::read_is_spellable;
use step_filling::chain_is_counted;

/// The accepted steps are candidates: their assertions are usable before the worksheet's place, and their places name steps.
pub fn accepted_are_candidates()
    ensures { AcceptedAreCandidates }
{
    has_database_facts();
}

/// What a front of the worksheet is filled to, and what is wanted for the next step, has as many tokens as the chain counts.
pub fn fronts_are_counted()
    ensures { FrontsAreCounted }
{
    accepted_are_candidates();
    chain_is_counted();
}

/// The numbers of the fresh leaves of what is filled are those of nodes of the chain's store.
pub fn leaves_are_small()
    ensures { LeavesAreSmall }
{}

/// Where no formula is too long, no value of an accepted step is, if each place names an earlier step; and so it is with what
/// a text says.
pub fn values_are_short()
    ensures short { ValuesAreShort }
    ensures earlier { BoundComesBefore }
{
    assertions_are_whole();
    accepted_are_candidates();
    read_is_spellable();
}
