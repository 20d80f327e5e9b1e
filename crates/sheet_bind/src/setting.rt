ghost use Rattle.std.specs.Prelude.{◌≡◌, ◌≤◌, ◌<◌, ℕ, List, ◌∷◌, length, min, None, option_map, option_and_then, IfOk, IfSome, OnOk, fold, []};
ghost use Rattle.std.specs.Option.{option_copied, option_map_or};
ghost use Rattle.mm_model.specs.declared.frames.Frame.{Frame};
ghost use Rattle.mm_model.specs.Frames.{symbol_in, active_at, float_codes, place_after};
ghost use Rattle.mm_model.specs.Names.{typecode, label_named};
ghost use Rattle.mm_model.specs.Productions.{essentials};
ghost use Rattle.mm_model.specs.Statements.{statements, statement_fault, database_fault};
ghost use Rattle.mm_frames.specs.Contents.{contents_of, frame_at};
ghost use Rattle.sheet_bind.specs.Places.{has_code, put_declared, put_essential, setting_in, place_in, place_number, sheet_place};
ghost use Rattle.sheet_bind.specs.Seen.{existing_in};

use crate::marks::{codes_by_symbol, marks_of};
use crate::tokens::is_constant;
use mm_base::{Kinds, Label, List, Memory, Name, Sym, Typecode};
use mm_frames::{Active, Frame, Frames, Hyp};
use model_laws::frames_have_own_expressions;
use sheet_text::Sheet;
use std::alloc::Global;

/// What is known of the theorem's place.
#[derive(Drop)]
pub struct Setting {
    pub place: u32,
    /// Of a theorem of the database its formula; none of a new one.
    pub conclusion: Option<List<Sym>>,
    /// The `$e` that the theorem has before its own.
    pub given: List<Hyp>,
    /// By symbol whether it is a variable active at the place.
    pub variables: List<bool>,
    /// By symbol the typecode of its `$f` that is active at the place.
    pub codes: List<Option<Typecode>>,
    /// The typecodes that a work variable may have.
    pub work: List<Typecode>,
    /// The logic typecode.
    pub logic: Typecode,
}

/// The setting, and the hypotheses that are active at the place.
#[derive(Drop)]
pub struct Place {
    pub setting: Setting,
    pub hyps: List<Hyp>,
}

/// The frame of the theorem's name, where that is a `$p` of the database.
pub fn existing<'d>(frames: &'d Frames, theorem: &[u8]) -> Option<&'d Frame>
    ensures { option_copied result ≡ existing_in frames.now theorem.now }
{
    match frames.label(theorem) {
        None => None,
        Some(label) => match frame_at(frames, label) {
            None => None,
            Some(frame) => if frame.is_axiom { None } else { Some(frame) },
        },
    }
}

/// The frame of a label.
fn frame_at(frames: &Frames, label: Label) -> Option<&Frame>
    ensures { option_copied result ≡ frame_at frames.now label }
{
    match frames.frames().get(label.0 as usize) {
        None => None,
        Some(frame) => frame.as_ref(),
    }
}

/// The label of a name.
fn label_of(frames: &Frames, name: &[u8]) -> Option<Label>
    ensures label { result ≡ label_named frames.now.labels name.now }
    ensures known { IfSome result (λ l. l.0 < length frames.now.labels) }
{
    frames.label(name)
}

/// The place of a new theorem.
pub fn new_place(frames: &Frames, loc: &Option<Name>) -> u32
    ensures { (text : List ℕ) → frames.now ≡ contents_of text → result ≡ option_map_or (place_after (statements text))
        (option_and_then (label_named frames.now.labels) loc.now) (length frames.now.entries) }
{
    let Some(name) = loc else {
        return frames.end();
    };
    match label_of(frames, name.as_slice()) {
        None => frames.end(),
        Some(label) => frames.place_after(label),
    }
}

fn copy_hyp(alloc: Global, hyp: &Hyp) -> Result<Hyp, Memory>
    ensures { IfOk result (λ h. h ≡ hyp.now) }
{
    let name = List::copy_of(alloc, hyp.name.as_slice())?;
    let formula = List::copy_of(alloc, hyp.formula.as_slice())?;
    Ok(Hyp {
        name,
        floating: hyp.floating,
        formula,
    })
}

/// The `$e` among hypotheses.
pub fn essentials(alloc: Global, hyps: &[Hyp]) -> Result<List<Hyp>, Memory>
    ensures { IfOk result (λ kept. kept ≡ essentials hyps.now) }
{
    let mut kept = Vec::new(alloc);
    for hyp in hyps {
        push_essential(alloc, &mut kept, hyp)?;
    }
    Ok(List::from_vec(kept))
}

fn push_essential(alloc: Global, kept: &mut Vec<Hyp>, hyp: &Hyp) -> Result<(), Memory>
    ensures { OnOk result (kept.new.items ≡ put_essential kept.old.items hyp.now) }
{
    if hyp.floating {
        return Ok(());
    }
    let copy = copy_hyp(alloc, hyp)?;
    kept.push(copy)?;
    Ok(())
}

/// The logic typecode; past the last symbol where the database does not declare it.
fn logic_code(frames: &Frames, kinds: &Kinds) -> Typecode
    ensures { result ≡ typecode (symbol_in frames.now.symbols kinds.now.logic) }
{
    Typecode(frames.symbol_or_end(kinds.logic.as_slice()))
}

/// The typecodes, of the logic one and these, that the database declares as constants.
fn work_codes(
    alloc: Global,
    frames: &Frames,
    logic: Typecode,
    codes: &[Typecode],
) -> Result<List<Typecode>, Memory>
    ensures { IfOk result (λ kept. kept ≡ fold (put_declared frames.now) [] (logic ∷ codes.now)) }
{
    let mut kept = Vec::new(alloc);
    push_declared(frames, &mut kept, logic)?;
    for code in codes {
        push_declared(frames, &mut kept, *code)?;
    }
    Ok(List::from_vec(kept))
}

/// Puts in a typecode that the database declares as a constant, where it is not there yet.
fn push_declared(frames: &Frames, kept: &mut Vec<Typecode>, code: Typecode) -> Result<(), Memory>
    ensures { OnOk result (kept.new.items ≡ put_declared frames.now kept.old.items code) }
{
    if is_constant(frames.constants(), frames.end(), code.0) && !has_code(kept.as_slice(), code) {
        kept.push(code)?;
    }
    Ok(())
}

fn has_code(kept: &[Typecode], code: Typecode) -> bool
    ensures { result ≡ has_code kept.now code }
{
    kept.iter().any(|other| other.0.0 == code.0.0)
}

/// The formula of a theorem of the database.
fn conclusion_of(alloc: Global, frame: Option<&Frame>) -> Result<Option<List<Sym>>, Memory>
    ensures { IfOk result (λ f. f ≡ option_map (λ (g : Frame). g.formula) (option_copied frame.entry)) }
{
    match frame {
        None => Ok(None),
        Some(frame) => {
            let formula = List::copy_of(alloc, frame.formula.as_slice())?;
            Ok(Some(formula))
        }
    }
}

/// The `$e` of a theorem of the database; of a new one those that are active.
fn given_of(alloc: Global, frame: Option<&Frame>, active: &[Hyp]) -> Result<List<Hyp>, Memory>
    ensures { IfOk result (λ kept. kept ≡ option_map_or (λ (f : Frame). essentials f.hyps) (option_copied frame.entry) (essentials active.now)) }
{
    match frame {
        None => essentials(alloc, active),
        Some(frame) => essentials(alloc, frame.hyps.as_slice()),
    }
}

/// Where a theorem stands.
#[derive(Clone, Copy)]
pub struct Standing<'f> {
    /// The number of its place.
    pub place: u32,
    /// Of a theorem of the database its frame; none of a new one.
    pub frame: Option<&'f Frame>,
}

/// What is known at a place where this is active.
fn setting_of(
    alloc: Global,
    frames: &Frames,
    kinds: &Kinds,
    standing: &Standing,
    active: &Active,
    codes: &[Typecode],
) -> Result<Setting, Memory>
    ensures { IfOk result (λ x. x ≡ setting_in frames.now kinds.now.logic standing.now.place (option_copied standing.now.frame) active.now codes.now) }
{
    let count = frames.symbols() as usize;
    let logic = logic_code(frames, kinds);
    let conclusion = conclusion_of(alloc, standing.frame)?;
    let given = given_of(alloc, standing.frame, active.hyps.as_slice())?;
    let work = work_codes(alloc, frames, logic, codes)?;
    let variables = marks_of(alloc, count, active.variables.as_slice())?;
    let codes = codes_by_symbol(alloc, count, active.hyps.as_slice())?;
    Ok(Setting {
        place: standing.place,
        conclusion,
        given,
        variables: List::from_vec(variables),
        codes: List::from_vec(codes),
        work,
        logic,
    })
}

/// What is known at a place.
fn place_at(
    alloc: Global,
    frames: &Frames,
    kinds: &Kinds,
    standing: &Standing,
) -> Result<Place, Memory>
    requires { standing.now.place ≤ length frames.now.entries }
    ensures within { IfOk result (λ p. p.setting.place ≤ length frames.now.entries) }
    ensures place { (text : List ℕ) → frames.now ≡ contents_of text → statement_fault text ≡ None → IfOk result (λ p. p ≡ place_in frames.now kinds.now.logic standing.now.place
        (option_copied standing.now.frame) (active_at (statements text) standing.now.place) (float_codes (statements text) standing.now.place)) }
{
    let codes = frames.float_codes(standing.place)?;
    let active = frames.active_at(standing.place)?;
    let setting = setting_of(alloc, frames, kinds, standing, &active, codes.as_slice())?;
    Ok(Place {
        setting,
        hyps: active.hyps,
    })
}

/// The theorem's place.
fn place_number(frames: &Frames, frame: Option<&Frame>, loc: &Option<Name>) -> u32
    ensures { (text : List ℕ) → frames.now ≡ contents_of text → result ≡ place_number text frames.now (option_copied frame.entry) loc.now }
{
    match frame {
        None => new_place(frames, loc),
        Some(frame) => frame.at,
    }
}

/// The place and what is known there.
pub fn place_of(
    alloc: Global,
    frames: &Frames,
    kinds: &Kinds,
    sheet: &Sheet,
) -> Result<Place, Memory>
    ensures within { IfOk result (λ p. p.setting.place ≤ length frames.now.entries) }
    ensures place { (text : List ℕ) → frames.now ≡ contents_of text → database_fault text ≡ None → IfOk result (λ p. p ≡ sheet_place text frames.now kinds.now.logic sheet.now) }
{
    frames_have_own_expressions();
    let frame = existing(frames, sheet.theorem.as_slice());
    let place = at_most(place_number(frames, frame, &sheet.loc), frames.end());
    let standing = Standing { place, frame };
    place_at(alloc, frames, kinds, &standing)
}

fn at_most(place: u32, end: u32) -> u32
    ensures least { result ≡ min place end }
    ensures within { result ≤ end }
{
    if end < place { end } else { place }
}
