//! The place of what came of a worksheet.

ghost use Rattle.sheet_theorem.specs.Outcomes.{OutcomesHavePlaces};

use model_laws::frames_have_own_expressions;

/// The place of what came of a worksheet is one of the database.
pub fn outcomes_have_places()
    ensures { OutcomesHavePlaces }
{
    frames_have_own_expressions();
}
