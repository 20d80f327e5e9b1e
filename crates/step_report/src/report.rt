ghost use Rattle.std.specs.Prelude.{◌≡◌, map, option_and_then, IfOk};
ghost use Rattle.std.specs.List.{AllByRecursion};
ghost use Rattle.std.specs.Option.{ForSome};
ghost use Rattle.written_model.specs.Report as spec;
ghost use Rattle.written_model.specs.WrittenSteps.{steps_in};
ghost use Rattle.written_steps.specs.Drafts.{AreSound, ForEachText, IsSoundStep, IsSoundUse, items_in, refs, use_in};
ghost use Rattle.step_report.specs.Flaws.{flaw_in, lack_in, line_in, line_by};

use crate::pairs::needed_by;
use distinct_vars::{clash, lacking};
use mm_base::{List, Memory, Name, Pair, Sym};
use mm_database::Database;
use std::alloc::Global;
use written_model::{DvMode, ReportLine};
use written_steps::{DraftItem, DraftStep, StepUse, draft_steps, pairs, variables};

/// The variable of the clash of a use.
fn clash_of(db: &Database, by: &StepUse) -> Option<Sym>
    requires { IsSoundUse db.now by.now }
    ensures { ForEachText db.now (result ≡ spec.step_clash (use_in db.now by.now)) }
{
    match clash(pairs(db, by), variables(db, by), &by.values) {
        None => None,
        Some((_, _, shared)) => Some(shared),
    }
}

/// The first pair that a use needs and that is not given, where only given ones are allowed.
fn lack_of(
    alloc: Global,
    db: &Database,
    mode: DvMode,
    given: &List<Pair>,
    by: &StepUse,
) -> Result<Option<Pair>, Memory>
    requires { IsSoundUse db.now by.now }
    ensures { IfOk result (λ lack. ForEachText db.now (lack ≡ lack_in mode given.now (use_in db.now by.now))) }
{
    match mode {
        DvMode::Add => Ok(None),
        DvMode::Given => {
            let needed = needed_by(alloc, db, by)?;
            Ok(lacking(&needed, given))
        }
    }
}

/// What is told of the pairs of a use.
#[derive(Clone, Copy)]
pub struct Flaw {
    pub clash: Option<Sym>,
    pub lack: Option<Pair>,
}

fn flaw_of_use(
    alloc: Global,
    db: &Database,
    mode: DvMode,
    given: &List<Pair>,
    by: &StepUse,
) -> Result<Flaw, Memory>
    requires { IsSoundUse db.now by.now }
    ensures { IfOk result (λ flaw. ForEachText db.now (flaw ≡ flaw_in mode given.now (use_in db.now by.now))) }
{
    let clash = clash_of(db, by);
    if clash.is_some() {
        return Ok(Flaw { clash, lack: None });
    }
    let lack = lack_of(alloc, db, mode, given, by)?;
    Ok(Flaw { clash: None, lack })
}

fn flaw_of(
    alloc: Global,
    db: &Database,
    mode: DvMode,
    given: &List<Pair>,
    by: &Option<StepUse>,
) -> Result<Flaw, Memory>
    requires { ForSome by.now (IsSoundUse db.now) }
    ensures { IfOk result (λ flaw. ForEachText db.now (flaw ≡ flaw_in mode given.now (option_and_then (use_in db.now) by.now))) }
{
    match by {
        None => Ok(Flaw {
            clash: None,
            lack: None,
        }),
        Some(by) => flaw_of_use(alloc, db, mode, given, by),
    }
}

fn copied_reference(alloc: Global, reference: &Option<Name>) -> Result<Option<Name>, Memory>
    ensures { IfOk result (λ copy. copy ≡ reference.now) }
{
    match reference {
        None => Ok(None),
        Some(label) => {
            let copy = List::copy_of(alloc, label.as_slice())?;
            Ok(Some(copy))
        }
    }
}

fn line_with(alloc: Global, step: &DraftStep, flaw: Flaw) -> Result<ReportLine, Memory>
    ensures { IfOk result (λ line. line ≡ line_by step.now flaw) }
{
    let reference = copied_reference(alloc, &step.reference)?;
    let name = List::copy_of(alloc, step.name.as_slice())?;
    Ok(ReportLine {
        name,
        verdict: step.verdict,
        reference,
        clash: flaw.clash,
        lack: flaw.lack,
    })
}

fn line_of(
    alloc: Global,
    db: &Database,
    mode: DvMode,
    given: &List<Pair>,
    step: &DraftStep,
) -> Result<ReportLine, Memory>
    requires { IsSoundStep db.now step.now }
    ensures { IfOk result (λ line. ForEachText db.now (line ≡ line_in db.now mode given.now step.now)) }
{
    let flaw = flaw_of(alloc, db, mode, given, &step.by)?;
    line_with(alloc, step, flaw)
}

fn lines_of(
    alloc: Global,
    db: &Database,
    mode: DvMode,
    given: &List<Pair>,
    steps: &[&DraftStep],
) -> Result<List<ReportLine>, Memory>
    requires { AllByRecursion (IsSoundStep db.now) (refs steps.now) }
    ensures { IfOk result (λ lines. ForEachText db.now (lines ≡ map (line_in db.now mode given.now) (refs steps.now))) }
{
    let mut lines = Vec::new(alloc);
    for step in steps {
        lines.push(line_of(alloc, db, mode, given, step)?)?;
    }
    Ok(List::from_vec(lines))
}

/// What is reported of the steps, in order. It takes memory for the lines and their names, and for each step the time of
/// looking for a clash and of `distinct_vars::needed`. `Memory`: there is no room.
pub fn report_of(
    alloc: Global,
    db: &Database,
    mode: DvMode,
    given: &List<Pair>,
    items: &[DraftItem],
) -> Result<List<ReportLine>, Memory>
    requires { AreSound db.now items.now }
    ensures { IfOk result (λ lines. ForEachText db.now (lines ≡ map (spec.report_of mode given.now) (steps_in (items_in db.now items.now)))) }
{
    let steps = draft_steps(alloc, items)?;
    lines_of(alloc, db, mode, given, steps.as_slice())
}
