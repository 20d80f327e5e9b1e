//! Laws of a theorem that is put into the text of a database. Each is the contract of a function that does nothing.
#![tactic(auto)]

ghost use Rattle.install_laws.specs.InstalledActive.{ActiveStaysBefore, ActiveStaysBehind};
ghost use Rattle.install_laws.specs.InstalledDatabase.{FramesAreMoved};
ghost use Rattle.install_laws.specs.InstalledFrames.{FramesStayBefore, FramesStayBehind};
ghost use Rattle.install_laws.specs.InstalledNames.{LabelsArePutIn, SymbolsStay};
ghost use Rattle.install_laws.specs.InstalledProofs.{TheoremsStay, ProofsStay, OldProofsEndAlike, OldProofsStayAccepted};
ghost use Rattle.install_laws.specs.InstalledStatements.{StatementsArePutIn};
ghost use Rattle.install_laws.specs.TwoDatabases.{LawOfSamePairs, LawOfMorePairs};

/// The statements of a text with a theorem in it are those before the place, those of the block, and the others.
pub fn statements_are_put_in()
    ensures { StatementsArePutIn }
{}

/// The labels of a text with a theorem in it are those before the place, the new ones, and the others; the symbols have the
/// numbers that they had.
pub fn names_are_put_in()
    ensures labels { LabelsArePutIn }
    ensures symbols { SymbolsStay }
{}

/// What is active at a place of a text stays active in the text with a theorem in it: the same variables, hypotheses and pairs,
/// by the same numbers. A place behind the block has moved by the statements of the block.
pub fn active_stays()
    ensures before { ActiveStaysBefore }
    ensures behind { ActiveStaysBehind }
{}

/// The frame of an assertion of a text is the same in the text with a theorem in it, up to its position where it is behind the
/// block.
pub fn frames_stay()
    ensures before { FramesStayBefore }
    ensures behind { FramesStayBehind }
{}

/// Each label of a text has in the text with a theorem in it the frame that it had, up to its position and the label's number,
/// where no new label is one of the text.
pub fn frames_are_moved()
    ensures { FramesAreMoved }
{}

/// What an assertion of a text has to prove is the same in the text with a theorem in it, but for its position, and so are the
/// words of its proof; and the stack machine ends as it did on each proof that names no new label.
pub fn old_proofs_end_alike()
    ensures theorems { TheoremsStay }
    ensures words { ProofsStay }
    ensures ends { OldProofsEndAlike }
{}

/// The stack machine accepts in the text with a theorem in it each proof of an assertion of the text that it accepted before,
/// where no new label is one of the text.
pub fn old_proofs_stay_accepted()
    ensures { OldProofsStayAccepted }
{}

/// The stack machine ends alike over two databases where a theorem has the same formula, hypotheses and pairs, and each label
/// of the proof names the same; with further pairs it accepts what it accepted.
pub fn databases_end_alike()
    ensures same { LawOfSamePairs }
    ensures more { LawOfMorePairs }
{}
