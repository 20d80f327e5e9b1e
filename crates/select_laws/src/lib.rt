//! Laws of the assertions that a step fits. Each is the contract of a function that does nothing.
#![tactic(auto)]

ghost use Rattle.select_laws.specs.OneSelection.{SelectionsAreOne};
ghost use Rattle.select_model.specs.Selected.{FoundIsTheFirst};

use model_laws::{frames_have_own_expressions, has_database_facts, mandatory_variables_stand};
use sheet_laws::sound_text_is_read;

/// The reference that the search found for a step is the first label that fits it.
pub fn found_is_the_first()
    ensures { FoundIsTheFirst }
{}

/// Two answers to one step of one worksheet are the same.
pub fn selections_are_one()
    ensures { SelectionsAreOne }
{
    has_database_facts();
    mandatory_variables_stand();
    frames_have_own_expressions();
    sound_text_is_read();
}
