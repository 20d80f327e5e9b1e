ghost use Rattle.std.specs.Prelude.{◌≡◌, ◌⊎◌, ◌≤◌, true, [], ◌∷◌, ◌++◌, length, drop, fold, option_map, Option, None, IfOk, OnOk};
ghost use Rattle.mm_base.specs.declared.tree.Tree.{Tree};
ghost use Rattle.mm_base.specs.Limits.{most_formula_tokens};
ghost use Rattle.mm_model.specs.Faults as spec;
ghost use Rattle.sheet_bind.specs.Found.{found};
ghost use Rattle.sheet_bind.specs.Judging.{scene, scene_of, state_of, start_of, IsTreeIn, IsTreeJudged, IsStepJudged, IsStepAdded, IsAdded, IsJudged, Runs, is_worth, bound_of, with_pair, put_step, AreTrees, with_trees, tree_in};
ghost use Rattle.mm_model.specs.Typed.{Parses};
ghost use Rattle.sheet_bind.specs.Rules.{header_tests, word_tests};
ghost use Rattle.sheet_bind.specs.Tests.{first_true};

use crate::faults::{BindCode, FoundFault, at_line, comes_first, earlier};
use crate::hyps::{HypSteps, no_hyps, note};
use crate::rules::{asks_for_tree, header_code, not_variable, step_code};
use crate::scene::Scene;
use crate::setting::Setting;
use crate::tokens::{all_known, expression};
use formula_parse::{ParseFault, parse};
use mm_base::{Kinds, List, Memory, Name, Tree};
use mm_database::Database;
use mm_frames::Frames;
use mm_model::Leaf;
use sheet_text::{PairLine, Sheet, SheetItem, SheetStep};
use solve_model::BoundStep;
use std::alloc::Global;
use syntax_grammar::Grammar;

/// The first fault so far, the `h` steps so far, and the steps with their trees. The trees are there where there is no
/// fault.
#[derive(Drop)]
pub struct Judging {
    pub first: Option<FoundFault>,
    pub hyps: HypSteps,
    pub steps: Vec<BoundStep>,
}

/// The first fault, and the steps with their trees. The trees are there where there is no fault.
#[derive(Drop)]
pub struct Judged {
    pub first: Option<FoundFault>,
    pub steps: Vec<BoundStep>,
}

/// What came of a step: the first fault, with those of the step among them, and its tree.
#[derive(Drop)]
struct StepJudged {
    first: Option<FoundFault>,
    tree: Option<Tree>,
}

/// Whether a fault at a line with the code `NoTree` would come first.
fn is_worth(first: Option<FoundFault>, line: u32) -> bool
    ensures { result ≡ is_worth (option_map found first) line }
{
    match first {
        None => true,
        Some(first) => !comes_first(
            first,
            FoundFault {
                line,
                code: BindCode::NoTree,
            },
        ),
    }
}

/// The trees that an expression has.
#[derive(Drop)]
enum Trees {
    /// None.
    NoTree,
    /// The only one.
    One(Tree),
    /// Two different ones.
    TwoTrees,
}

fn trees_of(
    alloc: Global,
    grammar: &Grammar,
    setting: &Setting,
    leaves: &List<Leaf>,
) -> Result<Trees, Memory>
    requires { length leaves.now ≤ 4095 }
    ensures { IfOk result (AreTrees (Parses grammar.now setting.now.place leaves.now setting.now.logic)) }
{
    match parse(alloc, grammar, setting.place, leaves, setting.logic) {
        Ok(tree) => Ok(Trees::One(tree)),
        Err(ParseFault::NoTree) => Ok(Trees::NoTree),
        Err(ParseFault::TwoTrees(_, _)) => Ok(Trees::TwoTrees),
        Err(ParseFault::Memory) => Err(Memory),
    }
}

/// The faults of trees at a line.
fn judge_trees(line: u32, first: Option<FoundFault>, trees: Trees) -> StepJudged
    ensures first { option_map found result.first ≡ with_trees line (option_map found first) trees }
    ensures tree { result.tree ≡ tree_in trees }
{
    match trees {
        Trees::NoTree => StepJudged {
            first: earlier(first, at_line(line, Some(BindCode::NoTree))),
            tree: None,
        },
        Trees::One(tree) => StepJudged {
            first,
            tree: Some(tree),
        },
        Trees::TwoTrees => StepJudged {
            first: earlier(first, at_line(line, Some(BindCode::TwoTrees))),
            tree: None,
        },
    }
}

/// The tokens behind the first.
fn behind_first(tokens: &[Name]) -> &[Name]
    requires { 1 ≤ length tokens.now }
    ensures { result.now ≡ drop 1 tokens.now }
{
    &tokens[1..]
}

/// The faults of a formula's trees, and its tree.
fn judge_tree(
    alloc: Global,
    db: &Database,
    setting: &Setting,
    first: Option<FoundFault>,
    step: &SheetStep,
) -> Result<StepJudged, Memory>
    requires some { 1 ≤ length step.now.formula }
    requires short { length step.now.formula ≤ most_formula_tokens }
    ensures { IfOk result (λ r. IsTreeJudged (IsTreeIn (scene db.now [] [] setting.now) step.now) step.now.line (option_map found first) (option_map found r.first) r.tree) }
{
    let tokens = behind_first(step.formula.as_slice());
    let leaves = expression(alloc, db.frames(), setting, tokens)?;
    let trees = trees_of(alloc, db.grammar(), setting, &leaves)?;
    Ok(judge_trees(step.line, first, trees))
}

/// The first fault, with those that a step's words show among them.
fn with_words(
    frames: &Frames,
    here: &Scene,
    hyps: &HypSteps,
    known: bool,
    first: Option<FoundFault>,
    step: &SheetStep,
) -> Option<FoundFault>
    ensures { option_map found result ≡ spec.earlier (option_map found first) (option_map (spec.fault step.now.line)
        (first_true (word_tests frames.now here.now.kinds.now.provable here.now.theorem.now here.now.setting.now hyps.now known step.now))) }
{
    let code = step_code(frames, here, hyps, known, step);
    earlier(first, at_line(step.line, code))
}

/// The faults of a step, and its tree.
fn judge_step(
    alloc: Global,
    here: &Scene,
    hyps: &HypSteps,
    first: Option<FoundFault>,
    step: &SheetStep,
) -> Result<StepJudged, Memory>
    ensures { IfOk result (λ r. IsStepJudged (scene_of here.now) hyps.now step.now (option_map found first) (option_map found r.first) r.tree) }
{
    let frames = here.db.frames();
    let known = all_known(alloc, frames, here.setting, step.formula.as_slice())?;
    let first = with_words(frames, here, hyps, known, first, step);
    if !asks_for_tree(here.kinds, known, step) {
        return Ok(StepJudged { first, tree: None });
    }
    if !is_worth(first, step.line) {
        return Ok(StepJudged { first, tree: None });
    }
    judge_tree(alloc, here.db, here.setting, first, step)
}

fn copied_reference(alloc: Global, reference: &Option<Name>) -> Result<Option<Name>, Memory>
    ensures { IfOk result (λ copy. copy ≡ reference.now) }
{
    match reference {
        None => Ok(None),
        Some(label) => {
            let copy = List::copy_of(alloc, label.as_slice())?;
            Ok(Some(copy))
        }
    }
}

/// A step without its tree.
fn bare_step(alloc: Global, step: &SheetStep) -> Result<BoundStep, Memory>
    ensures { IfOk result (λ b. b ≡ bound_of step.now None) }
{
    let name = List::copy_of(alloc, step.name.as_slice())?;
    let places = List::copy_of(alloc, step.places.as_slice())?;
    let reference = copied_reference(alloc, &step.reference)?;
    Ok(BoundStep {
        line: step.line,
        hyp: step.hyp,
        name,
        places,
        reference,
        tree: None,
    })
}

/// A step with its tree.
fn bound_step(alloc: Global, step: &SheetStep, tree: Option<Tree>) -> Result<BoundStep, Memory>
    ensures { IfOk result (λ b. b ≡ bound_of step.now tree) }
{
    match bare_step(alloc, step) {
        Err(_) => Err(Memory),
        Ok(
            BoundStep {
                line,
                hyp,
                name,
                places,
                reference,
                tree: _,
            },
        ) => Ok(BoundStep {
            line,
            hyp,
            name,
            places,
            reference,
            tree,
        }),
    }
}

/// Puts in a step with its tree, and notes it.
fn put_step(
    alloc: Global,
    judging: &mut Judging,
    judged: StepJudged,
    step: &SheetStep,
) -> Result<(), Memory>
    ensures { OnOk result (state_of judging.new ≡ put_step (state_of judging.old) step.now (option_map found judged.first) judged.tree) }
{
    let StepJudged { first, tree } = judged;
    let bound = bound_step(alloc, step, tree)?;
    judging.steps.push(bound)?;
    judging.first = first;
    note(&mut judging.hyps, step)
}

fn add_step(
    alloc: Global,
    here: &Scene,
    judging: &mut Judging,
    step: &SheetStep,
) -> Result<(), Memory>
    ensures { OnOk result (IsStepAdded (scene_of here.now) step.now (state_of judging.old) (state_of judging.new)) }
{
    let judged = judge_step(alloc, here, &judging.hyps, judging.first, step)?;
    put_step(alloc, judging, judged, step)
}

fn add_item(
    alloc: Global,
    here: &Scene,
    judging: &mut Judging,
    item: &SheetItem,
) -> Result<(), Memory>
    ensures { OnOk result (IsAdded (scene_of here.now) item.now (state_of judging.old) (state_of judging.new)) }
{
    match item {
        SheetItem::Comment(_) => Ok(()),
        SheetItem::Step(step) => add_step(alloc, here, judging, step),
    }
}

/// The faults of the steps, with the first of the header, and the steps with their trees.
fn judge_items(
    alloc: Global,
    here: &Scene,
    first: Option<FoundFault>,
    items: &[SheetItem],
) -> Result<Judging, Memory>
    ensures { IfOk result (λ j. Runs (scene_of here.now) (start_of (option_map found first)) items.now (state_of j)) }
{
    let mut judging = Judging {
        first,
        hyps: no_hyps(alloc),
        steps: Vec::new(alloc),
    };
    for item in items {
        add_item(alloc, here, &mut judging, item)?;
    }
    Ok(judging)
}

/// The first fault, with that of a `$d` statement among them.
fn with_pair(
    frames: &Frames,
    setting: &Setting,
    first: Option<FoundFault>,
    pair: &PairLine,
) -> Option<FoundFault>
    ensures { option_map found result ≡ with_pair frames.now setting.now (option_map found first) pair.now }
{
    if not_variable(frames, setting, pair) {
        earlier(first, at_line(pair.line, Some(BindCode::NotVariable)))
    } else {
        first
    }
}

fn with_pairs(
    frames: &Frames,
    setting: &Setting,
    first: Option<FoundFault>,
    pairs: &[PairLine],
) -> Option<FoundFault>
    ensures { option_map found result ≡ fold (with_pair frames.now setting.now) (option_map found first) pairs.now }
{
    let mut least = first;
    for pair in pairs {
        least = with_pair(frames, setting, least, pair);
    }
    least
}

/// The first fault of the header.
fn header_fault(frames: &Frames, setting: &Setting, sheet: &Sheet) -> Option<FoundFault>
    ensures { option_map found result ≡ option_map (spec.fault sheet.now.line) (first_true (header_tests frames.now setting.now sheet.now)) }
{
    at_line(sheet.line, header_code(frames, setting, sheet))
}

/// The first fault of the header, the steps and the `$d` statements; and the steps with their trees.
pub fn judge(
    alloc: Global,
    db: &Database,
    kinds: &Kinds,
    setting: &Setting,
    sheet: &Sheet,
) -> Result<Judged, Memory>
    ensures { IfOk result (λ j. IsJudged (scene db.now kinds.now.provable sheet.now.theorem setting.now) sheet.now (option_map found j.first) j.steps.items) }
{
    let frames = db.frames();
    let first = header_fault(frames, setting, sheet);
    let here = Scene {
        db,
        kinds,
        setting,
        theorem: sheet.theorem.as_slice(),
    };
    match judge_items(alloc, &here, first, sheet.items.as_slice()) {
        Err(_) => Err(Memory),
        Ok(
            Judging {
                first,
                hyps: _,
                steps,
            },
        ) => Ok(Judged {
            first: with_pairs(frames, setting, first, sheet.pairs.as_slice()),
            steps,
        }),
    }
}
