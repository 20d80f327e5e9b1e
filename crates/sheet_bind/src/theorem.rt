ghost use Rattle.std.specs.Prelude.{◌≡◌, [], drop, find, fold, filter_map, length, option_copied, unwrap_or, IfOk, OnOk};
ghost use Rattle.std.specs.List.{list_all, list_any};
ghost use Rattle.sheet_text.specs.Layout.{step_of_item};
ghost use Rattle.solve_model.specs.Binding.{is_qed};
ghost use Rattle.sheet_bind.specs.Theorems.{symbols_in, is_symbol, hyp_of, put_item, put_hyp_step, grown, grown_of, formula_of, qed_in, put_number, put_essential, has_number, is_needed, put_name, theorem_in};

use crate::pairs::symbols_of;
use crate::rules::is_qed;
use crate::setting::Setting;
use mm_base::{List, Memory, Name, Pair, Sym};
use mm_frames::{Frames, Hyp};
use proof_model::Theorem;
use sheet_text::{SheetItem, SheetStep};
use std::alloc::Global;
use std::collections::BTreeSet;

/// The symbols of tokens; none where one is no symbol, as a work variable.
fn symbols_from(alloc: Global, frames: &Frames, tokens: &[Name]) -> Result<List<Sym>, Memory>
    ensures { IfOk result (λ symbols. symbols ≡ symbols_in frames.now.symbols tokens.now) }
{
    if !are_symbols(frames, tokens) {
        return Ok(List::from_vec(Vec::new(alloc)));
    }
    let symbols = symbols_of(alloc, frames, tokens)?;
    Ok(List::from_vec(symbols))
}

/// Whether each token is a symbol of the database.
fn are_symbols(frames: &Frames, tokens: &[Name]) -> bool
    ensures { result ≡ list_all (is_symbol frames.now.symbols) tokens.now }
{
    for token in tokens {
        if !is_symbol(frames, token.as_slice()) {
            return false;
        }
    }
    true
}

fn is_symbol(frames: &Frames, token: &[u8]) -> bool
    ensures { result ≡ is_symbol frames.now.symbols token.now }
{
    frames.symbol(token).is_some()
}

fn label_or_empty(alloc: Global, reference: &Option<Name>) -> Result<Name, Memory>
    ensures { IfOk result (λ name. name ≡ unwrap_or reference.now []) }
{
    match reference {
        None => Ok(List::from_vec(Vec::new(alloc))),
        Some(label) => List::copy_of(alloc, label.as_slice()),
    }
}

/// The hypothesis of an `h` step.
fn new_hyp(alloc: Global, frames: &Frames, step: &SheetStep) -> Result<Hyp, Memory>
    ensures { IfOk result (λ h. h ≡ hyp_of frames.now.symbols step.now) }
{
    let name = label_or_empty(alloc, &step.reference)?;
    let formula = symbols_from(alloc, frames, step.formula.as_slice())?;
    Ok(Hyp {
        name,
        floating: false,
        formula,
    })
}

/// The hypotheses so far, and how many of the given `$e` are not passed yet.
#[derive(Drop)]
pub struct Growing {
    pub left: usize,
    pub hyps: Vec<Hyp>,
}

/// The active hypotheses of the theorem: those at the place, and the `h` steps past its given `$e`.
fn theorem_hyps(
    alloc: Global,
    frames: &Frames,
    active: List<Hyp>,
    given: usize,
    items: &[SheetItem],
) -> Result<List<Hyp>, Memory>
    ensures { IfOk result (λ hyps. hyps ≡ (fold (put_item frames.now.symbols) (grown given active) items.now).hyps) }
{
    let mut growing = Growing {
        left: given,
        hyps: active.into_vec(),
    };
    for item in items {
        grow_by(alloc, frames, &mut growing, item)?;
    }
    let Growing { left: _, hyps } = growing;
    Ok(List::from_vec(hyps))
}

fn grow_by(
    alloc: Global,
    frames: &Frames,
    growing: &mut Growing,
    item: &SheetItem,
) -> Result<(), Memory>
    ensures { OnOk result (grown_of growing.new ≡ put_item frames.now.symbols (grown_of growing.old) item.now) }
{
    match item {
        SheetItem::Comment(_) => Ok(()),
        SheetItem::Step(step) => grow(alloc, frames, growing, step),
    }
}

/// Puts in the hypothesis of an `h` step, unless it is one of the given `$e`.
fn grow(
    alloc: Global,
    frames: &Frames,
    growing: &mut Growing,
    step: &SheetStep,
) -> Result<(), Memory>
    ensures { OnOk result (grown_of growing.new ≡ put_hyp_step frames.now.symbols (grown_of growing.old) step.now) }
{
    if !step.hyp {
        return Ok(());
    }
    if 0 < growing.left {
        growing.left -= 1;
        return Ok(());
    }
    let hyp = new_hyp(alloc, frames, step)?;
    growing.hyps.push(hyp)?;
    Ok(())
}

/// The formula of `qed`.
fn qed_formula(alloc: Global, frames: &Frames, items: &[SheetItem]) -> Result<List<Sym>, Memory>
    ensures { IfOk result (λ formula. formula ≡ formula_of frames.now.symbols (find is_qed (filter_map step_of_item items.now))) }
{
    match qed_step(items) {
        None => Ok(List::from_vec(Vec::new(alloc))),
        Some(step) => symbols_from(alloc, frames, step.formula.as_slice()),
    }
}

/// The first step that is named `qed`.
fn qed_step(items: &[SheetItem]) -> Option<&SheetStep>
    ensures { option_copied result ≡ find is_qed (filter_map step_of_item items.now) }
{
    for item in items {
        if let Some(step) = qed_in(item) {
            return Some(step);
        }
    }
    None
}

fn qed_in(item: &SheetItem) -> Option<&SheetStep>
    ensures { option_copied result ≡ qed_in item.now }
{
    match item {
        SheetItem::Comment(_) => None,
        SheetItem::Step(step) => if is_qed(step) { Some(step) } else { None },
    }
}

/// Puts in the numbers of symbols.
fn add_symbols(used: &mut BTreeSet<u32>, symbols: &[Sym]) -> Result<(), Memory>
    ensures { OnOk result (used.new.keys ≡ fold put_number used.old.keys symbols.now) }
{
    for symbol in symbols {
        add_symbol(used, *symbol)?;
    }
    Ok(())
}

fn add_symbol(used: &mut BTreeSet<u32>, symbol: Sym) -> Result<(), Memory>
    ensures { OnOk result (used.new.keys ≡ put_number used.old.keys symbol) }
{
    used.insert(symbol.0)?;
    Ok(())
}

/// Puts in those of a `$e`.
fn add_essential(used: &mut BTreeSet<u32>, hyp: &Hyp) -> Result<(), Memory>
    ensures { OnOk result (used.new.keys ≡ put_essential used.old.keys hyp.now) }
{
    if hyp.floating {
        return Ok(());
    }
    add_symbols(used, hyp.formula.as_slice())
}

/// The numbers of the symbols of a formula and of the `$e` among hypotheses.
fn used_in(alloc: Global, formula: &[Sym], hyps: &[Hyp]) -> Result<BTreeSet<u32>, Memory>
    ensures { IfOk result (λ used. used.keys ≡ fold put_essential (fold put_number [] formula.now) hyps.now) }
{
    let mut used = BTreeSet::new(alloc);
    add_symbols(&mut used, formula)?;
    for hyp in hyps {
        add_essential(&mut used, hyp)?;
    }
    Ok(used)
}

fn is_used(used: &BTreeSet<u32>, symbol: Sym) -> bool
    ensures { result ≡ has_number used.now.keys symbol }
{
    used.contains(&symbol.0)
}

/// Whether a hypothesis is a `$e`, or the `$f` of a marked variable.
fn is_mandatory(used: &BTreeSet<u32>, hyp: &Hyp) -> bool
    ensures { result ≡ is_needed used.now.keys hyp.now }
{
    !hyp.floating || has_used(used, hyp.formula.as_slice())
}

fn has_used(used: &BTreeSet<u32>, formula: &[Sym]) -> bool
    ensures { result ≡ list_any (has_number used.now.keys) (drop 1 formula.now) }
{
    match formula {
        [] => false,
        [_, variables @ ..] => are_used(used, variables),
    }
}

fn are_used(used: &BTreeSet<u32>, variables: &[Sym]) -> bool
    ensures { result ≡ list_any (has_number used.now.keys) variables.now }
{
    variables.iter().any(|symbol| is_used(used, *symbol))
}

/// The labels of the mandatory hypotheses of a formula, in order.
fn mandatory_of(alloc: Global, formula: &[Sym], hyps: &[Hyp]) -> Result<List<Name>, Memory>
    ensures { IfOk result (λ names. names ≡ fold (put_name (fold put_essential (fold put_number [] formula.now) hyps.now)) [] hyps.now) }
{
    let used = used_in(alloc, formula, hyps)?;
    mandatory_names(alloc, &used, hyps)
}

fn mandatory_names(alloc: Global, used: &BTreeSet<u32>, hyps: &[Hyp]) -> Result<List<Name>, Memory>
    ensures { IfOk result (λ names. names ≡ fold (put_name used.now.keys) [] hyps.now) }
{
    let mut names = Vec::new(alloc);
    for hyp in hyps {
        push_mandatory(alloc, used, &mut names, hyp)?;
    }
    Ok(List::from_vec(names))
}

fn push_mandatory(
    alloc: Global,
    used: &BTreeSet<u32>,
    names: &mut Vec<Name>,
    hyp: &Hyp,
) -> Result<(), Memory>
    ensures { OnOk result (names.new.items ≡ put_name used.now.keys names.old.items hyp.now) }
{
    if !is_mandatory(used, hyp) {
        return Ok(());
    }
    names.push(List::copy_of(alloc, hyp.name.as_slice())?)?;
    Ok(())
}

/// The theorem of a worksheet at a place, where these are the hypotheses that are active there.
pub fn theorem_of(
    alloc: Global,
    frames: &Frames,
    setting: &Setting,
    active: List<Hyp>,
    items: &[SheetItem],
    pairs: &[Pair],
) -> Result<Theorem, Memory>
    ensures { IfOk result (λ t. t ≡ theorem_in frames.now.symbols setting.now.place active (length setting.now.given) items.now pairs.now) }
{
    let given = setting.given.as_slice().len();
    let formula = qed_formula(alloc, frames, items)?;
    let hyps = theorem_hyps(alloc, frames, active, given, items)?;
    let mandatory = mandatory_of(alloc, formula.as_slice(), hyps.as_slice())?;
    let pairs = List::copy_of(alloc, pairs)?;
    Ok(Theorem {
        at: setting.place,
        formula,
        hyps,
        mandatory,
        pairs,
    })
}
