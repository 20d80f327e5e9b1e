//! The law of `export`: which accepted proofs become finished worksheets. Each law is the contract of a function that does
//! nothing.
#![tactic(auto)]

ghost use Rattle.export_laws.specs.ExportLaw.{ExportedFits, LawOfExport};

use fitting_laws::fitting_becomes_finished;
use model_laws::databases_have_places;

/// The worksheet of an accepted proof that is exportable fits as it is written: each step but the hypotheses rests on an
/// assertion that fits over the steps that it lists, and each formula has its one tree.
pub fn exported_sheet_fits()
    ensures { ExportedFits }
{
    databases_have_places();
}

/// An accepted proof that is exportable becomes a worksheet in which each step fits as it is given and none has a clash, and
/// which is finished, or has a fault of size.
pub fn export_is_finished()
    ensures { LawOfExport }
{
    exported_sheet_fits();
    fitting_becomes_finished();
}
