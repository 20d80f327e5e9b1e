ghost use Rattle.step_chain.specs.Constants.{ConstantsAreCounted};

use model_laws::has_database_facts;

/// The numbers of constants by which the store counts tokens are those of the productions' texts.
pub fn constants_are_counted()
    ensures { ConstantsAreCounted }
{
    has_database_facts();
}
