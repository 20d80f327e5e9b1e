//! The law that a text without a fault has none with a theorem in it that can be put in. It is the contract of a function that
//! does nothing.
#![tactic(auto)]

ghost use Rattle.installed_laws.specs.FinishedCanBePutIn.{FinishedCanBePutIn};
ghost use Rattle.installed_laws.specs.InstalledFault.{InstalledTextHasNoFault};

use again_laws::written_sheet_binds;
use answer_laws::written_reads_back;
use model_laws::names_are_words;

/// A text without a fault has none with a theorem in it that can be put in at the place, where it does not become too long.
pub fn installed_text_has_no_fault()
    ensures { InstalledTextHasNoFault }
{}

/// The new theorem of a finished worksheet over a text without a fault can be put into the text at the worksheet's place.
pub fn finished_can_be_put_in()
    ensures { FinishedCanBePutIn }
{
    written_reads_back();
    written_sheet_binds();
    names_are_words();
}
