ghost use Rattle.step_filling.specs.ChainCounted.{ChainIsCounted};
ghost use Rattle.step_filling.specs.Counted.{FormulaIsTyped, InstanceIsTyped, TypedIsCounted};
ghost use Rattle.step_filling.specs.Defined.{LongIsFirst, ShortIsShort};

use chain_laws::{bound_is_ready, candidates_are_ready};
use model_laws::has_database_facts;
use step_chain::constants_are_counted;
use writing_laws::count_is_that_of_a_store;

/// Where the trees of a worksheet have as many tokens as the chain counts, what is answered of formulas that are too long,
/// and of those that are not, holds in the words of the definitions.
pub fn long_is_first()
    ensures first { LongIsFirst }
    ensures short { ShortIsShort }
{}

/// A typed tree over the database of a text without a fault has as many tokens as the chain counts.
/// The formulas of what is bound, and the instances of a candidate's trees, are typed under each valuation of typed trees.
pub fn typed_is_counted()
    ensures counted { TypedIsCounted }
    ensures formulas { FormulaIsTyped }
    ensures instances { InstanceIsTyped }
{
    has_database_facts();
    constants_are_counted();
    count_is_that_of_a_store();
}

/// A chain counts the tokens of the formulas of its steps, and of the `$e` of its accepted candidates, as the definitions do.
pub fn chain_is_counted()
    ensures { ChainIsCounted }
{
    typed_is_counted();
    bound_is_ready();
    candidates_are_ready();
}
