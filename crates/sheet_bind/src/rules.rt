ghost use Rattle.std.specs.Prelude.{◌≡◌, ◌&&◌, ◌||◌, not, false, option_map, is_none};
ghost use Rattle.std.specs.List.{list_all};
ghost use Rattle.std.specs.Option.{option_map_or};
ghost use Rattle.std.specs.Str.{bytes_eq};
ghost use Rattle.mm_model.specs.Names.{contains};
ghost use Rattle.solve_model.specs.Binding.{same_tokens, has_label, is_qed};
ghost use Rattle.solve_model.specs.BindFaults.{is_blank, hyp_with_hyps, begins_with_token, wants_formula, formula_long};
ghost use Rattle.sheet_bind.specs.Found.{number_of};
ghost use Rattle.sheet_bind.specs.Rules as spec;
ghost use Rattle.sheet_bind.specs.Rules.{header_tests, word_tests, asks};
ghost use Rattle.sheet_bind.specs.Seen.{names_in, is_variable_named};
ghost use Rattle.sheet_bind.specs.Tests.{first_true};

use crate::faults::BindCode;
use crate::hyps::HypSteps;
use crate::scene::Scene;
use crate::setting::Setting;
use crate::symbols::same_tokens;
use crate::tokens::is_variable;
use mm_base::{Kinds, List, MOST_FORMULA_TOKENS, Name, Sym};
use mm_frames::{Frames, Hyp};
use mm_model::are_label_bytes;
use names::Names;
use sheet_text::{PairLine, Sheet, SheetStep};

fn is_known_label(frames: &Frames, name: &[u8]) -> bool
    ensures { result ≡ spec.is_known_label frames.now name.now }
{
    frames.label(name).is_some()
}

/// The first code of the header's rules that holds.
pub fn header_code(frames: &Frames, setting: &Setting, sheet: &Sheet) -> Option<BindCode>
    ensures { option_map number_of result ≡ first_true (header_tests frames.now setting.now sheet.now) }
{
    if loc_unknown(frames, setting, &sheet.loc) {
        return Some(BindCode::LocUnknown);
    }
    if theorem_taken(frames, setting, sheet.theorem.as_slice()) {
        return Some(BindCode::TheoremTaken);
    }
    if !are_label_bytes(sheet.theorem.as_slice()) {
        return Some(BindCode::TheoremName);
    }
    None
}

fn theorem_taken(frames: &Frames, setting: &Setting, theorem: &[u8]) -> bool
    ensures { result ≡ (is_none setting.now.conclusion && spec.is_known_label frames.now theorem.now) }
{
    setting.conclusion.is_none() && is_known_label(frames, theorem)
}

fn loc_unknown(frames: &Frames, setting: &Setting, loc: &Option<Name>) -> bool
    ensures { result ≡ (is_none setting.now.conclusion && spec.loc_unknown frames.now loc.now) }
{
    setting.conclusion.is_none() && is_unknown(frames, loc)
}

fn is_unknown(frames: &Frames, loc: &Option<Name>) -> bool
    ensures { result ≡ spec.loc_unknown frames.now loc.now }
{
    match loc {
        None => false,
        Some(label) => !is_known_label(frames, label.as_slice()),
    }
}

fn has_label(reference: &Option<Name>, name: &[u8]) -> bool
    ensures { result ≡ has_label reference.now name.now }
{
    match reference {
        None => false,
        Some(label) => label.as_slice() == name,
    }
}

/// Whether a step has the label and the tokens of a hypothesis.
fn is_hyp(frames: &Frames, hyp: &Hyp, step: &SheetStep) -> bool
    ensures { result ≡ spec.is_hyp frames.now.symbols hyp.now step.now }
{
    has_label(&step.reference, hyp.name.as_slice())
        && same_tokens(frames, step.formula.as_slice(), hyp.formula.as_slice())
}

pub fn is_qed(step: &SheetStep) -> bool
    ensures { result ≡ is_qed step.now }
{
    step.name.as_slice() == b"qed".as_slice()
}

fn is_blank(step: &SheetStep) -> bool
    ensures { result ≡ is_blank step.now }
{
    step.formula.as_slice().is_empty()
}

fn hyp_differs(frames: &Frames, setting: &Setting, before: usize, step: &SheetStep) -> bool
    ensures { result ≡ spec.hyp_differs frames.now setting.now before step.now }
{
    if !step.hyp {
        return false;
    }
    match setting.given.as_slice().get(before) {
        Some(hyp) => !is_hyp(frames, hyp, step),
        None => setting.conclusion.is_some(),
    }
}

fn qed_differs(frames: &Frames, setting: &Setting, before: usize, step: &SheetStep) -> bool
    ensures { result ≡ spec.qed_differs frames.now setting.now before step.now }
{
    is_qed(step)
        && (before < setting.given.as_slice().len()
            || conclusion_differs(frames, &setting.conclusion, step.formula.as_slice()))
}

fn conclusion_differs(frames: &Frames, conclusion: &Option<List<Sym>>, tokens: &[Name]) -> bool
    ensures { result ≡ option_map_or (λ f. not (same_tokens tokens.now (names_in frames.now.symbols f))) conclusion.now false }
{
    match conclusion {
        None => false,
        Some(formula) => !same_tokens(frames, tokens, formula.as_slice()),
    }
}

fn hyp_label_taken(
    frames: &Frames,
    setting: &Setting,
    theorem: &[u8],
    before: usize,
    step: &SheetStep,
) -> bool
    ensures { result ≡ spec.hyp_label_taken frames.now theorem.now setting.now before step.now }
{
    setting.conclusion.is_none()
        && step.hyp
        && setting.given.as_slice().len() <= before
        && is_taken(frames, theorem, &step.reference)
}

fn is_taken(frames: &Frames, theorem: &[u8], reference: &Option<Name>) -> bool
    ensures { result ≡ option_map_or (λ l. spec.is_known_label frames.now l || bytes_eq l theorem.now) reference.now false }
{
    match reference {
        None => false,
        Some(label) => is_known_label(frames, label.as_slice()) || label.as_slice() == theorem,
    }
}

fn hyp_with_hyps(step: &SheetStep) -> bool
    ensures { result ≡ hyp_with_hyps step.now }
{
    step.hyp && !step.places.as_slice().is_empty()
}

fn begins_with(provable: &[u8], tokens: &[Name]) -> bool
    ensures { result ≡ begins_with_token provable.now tokens.now }
{
    match tokens {
        [] => false,
        [first, ..] => first.as_slice() == provable,
    }
}

fn not_provable(kinds: &Kinds, step: &SheetStep) -> bool
    ensures { result ≡ spec.not_provable kinds.now.provable step.now }
{
    !is_blank(step) && !begins_with(kinds.provable.as_slice(), step.formula.as_slice())
}

fn wants_formula(step: &SheetStep) -> bool
    ensures { result ≡ wants_formula step.now }
{
    (step.hyp || is_qed(step)) && is_blank(step)
}

fn formula_long(step: &SheetStep) -> bool
    ensures { result ≡ formula_long step.now }
{
    MOST_FORMULA_TOKENS < step.formula.as_slice().len() as u64
}

fn hyp_label_twice(hyps: &HypSteps, step: &SheetStep) -> bool
    ensures { result ≡ spec.hyp_label_twice hyps.now step.now }
{
    step.hyp && is_among(&hyps.labels, &step.reference)
}

fn is_among(labels: &Names, reference: &Option<Name>) -> bool
    ensures { result ≡ option_map_or (contains labels.now) reference.now false }
{
    match reference {
        None => false,
        Some(label) => labels.contains(label.as_slice()),
    }
}

/// The first code of a step's rules that holds, but for those that ask for its trees, where this says whether each token of
/// its formula is known.
pub fn step_code(
    frames: &Frames,
    here: &Scene,
    hyps: &HypSteps,
    known: bool,
    step: &SheetStep,
) -> Option<BindCode>
    ensures { option_map number_of result ≡ first_true (word_tests frames.now here.now.kinds.now.provable here.now.theorem.now here.now.setting.now hyps.now known step.now) }
{
    if hyps_differ(frames, here.setting, hyps.count, step) {
        return Some(BindCode::HypsDiffer);
    }
    if hyp_label_taken(frames, here.setting, here.theorem, hyps.count, step) {
        return Some(BindCode::HypLabelTaken);
    }
    if hyp_with_hyps(step) {
        return Some(BindCode::HypWithHyps);
    }
    if not_provable(here.kinds, step) {
        return Some(BindCode::NotProvable);
    }
    if !known {
        return Some(BindCode::UnknownSymbol);
    }
    if wants_formula(step) {
        return Some(BindCode::Blank);
    }
    if formula_long(step) {
        return Some(BindCode::FormulaLong);
    }
    if hyp_label_twice(hyps, step) {
        return Some(BindCode::HypLabelTwice);
    }
    None
}

fn hyps_differ(frames: &Frames, setting: &Setting, before: usize, step: &SheetStep) -> bool
    ensures { result ≡ (spec.hyp_differs frames.now setting.now before step.now || spec.qed_differs frames.now setting.now before step.now) }
{
    hyp_differs(frames, setting, before, step) || qed_differs(frames, setting, before, step)
}

/// Whether trees of a formula are asked for, where this says whether each of its tokens is known.
pub fn asks_for_tree(kinds: &Kinds, known: bool, step: &SheetStep) -> bool
    ensures { result ≡ asks kinds.now.provable known step.now }
{
    !is_blank(step) && !not_provable(kinds, step) && known && !formula_long(step)
}

/// Whether a `$d` statement has a symbol that is no variable active at the place.
pub fn not_variable(frames: &Frames, setting: &Setting, pair: &PairLine) -> bool
    ensures { result ≡ spec.not_variable frames.now setting.now pair.now }
{
    !are_variables(frames, setting, pair.names.as_slice())
}

fn are_variables(frames: &Frames, setting: &Setting, names: &[Name]) -> bool
    ensures { result ≡ list_all (is_variable_named frames.now setting.now) names.now }
{
    for name in names {
        if !is_variable_named(frames, setting, name.as_slice()) {
            return false;
        }
    }
    true
}

fn is_variable_named(frames: &Frames, setting: &Setting, name: &[u8]) -> bool
    ensures { result ≡ is_variable_named frames.now setting.now name.now }
{
    match frames.symbol(name) {
        None => false,
        Some(symbol) => is_variable(setting, symbol),
    }
}
