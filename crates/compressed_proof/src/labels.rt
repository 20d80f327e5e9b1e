//! The faults of the labels in the brackets.

ghost use Rattle.std.specs.Prelude.{◌≡◌, ℕ, ◌≤◌, ◌<◌, List, [], length, None, false, IfOk, IfErr, OnOk};
ghost use Rattle.mm_base.specs.Limits.{most_database_bytes};
ghost use Rattle.mm_model.specs.Names.{contains};
ghost use Rattle.proof_model.specs.ProofCode.{label_fault};
ghost use Rattle.compressed_proof.specs.Parts.{IsLabelFault, IsFaultAt};

use crate::fault::CodeFault;
use mm_base::{List, Memory, Name};
use names::Names;
use std::alloc::Global;

/// The names of a list, for look-ups.
fn names_of(alloc: Global, list: &[Name]) -> Result<Names, Memory>
    requires { length list.now ≤ most_database_bytes }
    ensures { IfOk result (λ names. (name : List ℕ) → contains names name ≡ contains list.now name) }
{
    let mut names = Names::new(alloc);
    for name in list {
        if !names.contains(name.as_slice()) {
            names.add(name.as_slice())?;
        }
    }
    Ok(names)
}

/// Looks at one label, with the labels before it.
fn check_label(
    alloc: Global,
    mandatory: &Names,
    before: &Names,
    place: u32,
    label: &[u8],
) -> Result<(), CodeFault>
    ensures fresh { OnOk result ((contains mandatory.now label.now ≡ false) × (contains before.now label.now ≡ false)) }
    ensures fault { IfErr result (λ e. IsFaultAt mandatory.now before.now place label.now e) }
{
    if mandatory.contains(label) {
        return Err(CodeFault::MandatoryListed(place, List::copy_of(alloc, label)?));
    }
    if before.contains(label) {
        return Err(CodeFault::LabelTwice(place, List::copy_of(alloc, label)?));
    }
    Ok(())
}

/// Looks at the labels in order, and puts each among those before it, which are none at first.
fn check_each(
    alloc: Global,
    labels: &[Name],
    listed: &Names,
    before: &mut Names,
) -> Result<(), CodeFault>
    requires labels { length labels.now ≤ most_database_bytes }
    requires none_before { before.old ≡ [] }
    ensures sound { (mandatory : List (List ℕ)) → ((name : List ℕ) → contains listed.now name ≡ contains mandatory name) →
        OnOk result (label_fault mandatory labels.now ≡ None) }
    ensures fault { (mandatory : List (List ℕ)) → ((name : List ℕ) → contains listed.now name ≡ contains mandatory name) →
        IfErr result (λ e. IsLabelFault mandatory labels.now e) }
{
    for (place, label) in labels.iter().enumerate() {
        let label = label.as_slice();
        check_label(alloc, listed, before, place as u32, label)?;
        before.add(label)?;
    }
    Ok(())
}

/// Looks at the labels in order: none is a mandatory hypothesis, and none stands before.
pub(crate) fn check_labels(
    alloc: Global,
    labels: &[Name],
    mandatory: &[Name],
) -> Result<(), CodeFault>
    requires labels { length labels.now ≤ most_database_bytes }
    requires mandatory { length mandatory.now ≤ most_database_bytes }
    ensures sound { OnOk result (label_fault mandatory.now labels.now ≡ None) }
    ensures fault { IfErr result (λ e. IsLabelFault mandatory.now labels.now e) }
{
    let listed = names_of(alloc, mandatory)?;
    let mut before = Names::new(alloc);
    check_each(alloc, labels, &listed, &mut before)
}
