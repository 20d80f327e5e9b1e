ghost use Rattle.mm_database.specs.Kept.{KeptAreUsable};

/// What an opened database keeps of a label is the trees and the variables of the label's usable assertion, and it keeps
/// something of exactly the usable ones.
pub fn kept_are_usable()
    ensures { KeptAreUsable }
{}
