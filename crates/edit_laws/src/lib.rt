//! Laws of the editor session. Each is the contract of a function that does nothing.
#![tactic(auto)]

ghost use Rattle.edit_laws.specs.OtherSheets.{EachSheetIsAlone, OtherSheetsChangeNothing, RepliesAreOne};

use model_laws::{frames_have_own_expressions, has_database_facts, mandatory_variables_stand};
use sheet_laws::sound_text_is_read;

/// The replies that name a sheet are those to what is asked of it, each on the text that the earlier of them left.
pub fn each_sheet_is_alone()
    ensures { EachSheetIsAlone }
{}

/// Two replies to one request on one text are the same.
pub fn replies_are_one()
    ensures { RepliesAreOne }
{
    has_database_facts();
    mandatory_variables_stand();
    frames_have_own_expressions();
    sound_text_is_read();
}

/// What is asked of other sheets changes no reply that names a sheet.
pub fn other_sheets_change_nothing()
    ensures { OtherSheetsChangeNothing }
{
    replies_are_one();
}
