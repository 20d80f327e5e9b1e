ghost use Rattle.std.specs.Prelude.{◌≡◌, ◌++◌, ◌∷◌, ℕ, List, [], map, IfOk, OnOk};
ghost use Rattle.mm_base.specs.declared.kinds.Kinds.{Kinds};
ghost use Rattle.mm_database.specs.Books.{database_of};
ghost use Rattle.mm_database.specs.Opened.{IsOpened};
ghost use Rattle.written_model.specs.Report as lines;
ghost use Rattle.sheet_unify.specs.Lines.{behind, clash_in, lack_in, report_text, shows};

use crate::words::put_word;
use mm_base::{Bytes, List, Memory, Name, Pair, Sym};
use mm_database::Database;
use mm_frames::Frames;
use std::alloc::Global;
use written_model::{ReportLine, ReportVerdict};
use written_steps::symbol_name;

/// The words of a verdict.
fn verdict_words(verdict: ReportVerdict) -> &'static [u8]
    ensures { 32 ∷ result.now ≡ behind (lines.verdict_words verdict) }
{
    match verdict {
        ReportVerdict::Hyp => b"hyp",
        ReportVerdict::Fits => b"fits",
        ReportVerdict::Found => b"found",
        ReportVerdict::NoFit => b"no fit",
        ReportVerdict::UnknownRef => b"unknown",
        ReportVerdict::NotUsable => b"not usable",
        ReportVerdict::TooManyHyps => b"too many hypotheses",
        ReportVerdict::NoRef => b"no reference",
    }
}

/// Whether a line with a verdict shows the step's reference.
fn shows_reference(verdict: ReportVerdict) -> bool
    ensures { result ≡ shows verdict }
{
    match verdict {
        ReportVerdict::Hyp | ReportVerdict::NoRef => false,
        ReportVerdict::Fits
        | ReportVerdict::Found
        | ReportVerdict::NoFit
        | ReportVerdict::UnknownRef
        | ReportVerdict::NotUsable
        | ReportVerdict::TooManyHyps => true,
    }
}

fn put_reference(
    line: &mut Vec<u8>,
    verdict: ReportVerdict,
    reference: &Option<Name>,
) -> Result<(), Memory>
    ensures { OnOk result (line.new.items ≡ line.old.items ++ behind (lines.reference_words verdict reference.now)) }
{
    if !shows_reference(verdict) {
        return Ok(());
    }
    match reference {
        None => Ok(()),
        Some(label) => put_word(line, label.as_slice()),
    }
}

fn put_clash(line: &mut Vec<u8>, frames: &Frames, clash: Option<Sym>) -> Result<(), Memory>
    ensures { OnOk result (line.new.items ≡ line.old.items ++ behind (clash_in frames.now.symbols clash)) }
{
    match clash {
        None => Ok(()),
        Some(shared) => {
            put_word(line, b"clash")?;
            put_word(line, symbol_name(frames, shared))
        }
    }
}

fn put_lack(line: &mut Vec<u8>, frames: &Frames, lack: Option<Pair>) -> Result<(), Memory>
    ensures { OnOk result (line.new.items ≡ line.old.items ++ behind (lack_in frames.now.symbols lack)) }
{
    match lack {
        None => Ok(()),
        Some(pair) => {
            put_word(line, b"needs")?;
            put_word(line, symbol_name(frames, pair.a))?;
            put_word(line, symbol_name(frames, pair.b))
        }
    }
}

/// The line on a step.
fn report_line(alloc: Global, frames: &Frames, report: &ReportLine) -> Result<Bytes, Memory>
    ensures { IfOk result (λ line. line ≡ report_text frames.now.symbols report.now) }
{
    let mut line = Vec::from_slice(alloc, report.name.as_slice())?;
    put_word(&mut line, verdict_words(report.verdict))?;
    put_reference(&mut line, report.verdict, &report.reference)?;
    put_clash(&mut line, frames, report.clash)?;
    put_lack(&mut line, frames, report.lack)?;
    Ok(List::from_vec(line))
}

fn last_line(finished: bool) -> &'static [u8]
    ensures { result.now ≡ lines.last_line finished }
{
    if finished {
        b"finished"
    } else {
        b"not finished"
    }
}

/// The lines of a report over the symbols of this database, one for each step in order, and a last one that says whether the
/// worksheet is finished; without line feeds.
pub fn report_lines(
    alloc: Global,
    db: &Database,
    report: &List<ReportLine>,
    finished: bool,
) -> Result<List<Bytes>, Memory>
    ensures { (kinds : Kinds) (text : List ℕ) → IsOpened kinds text db.now
        → IfOk result (λ all. all ≡ lines.report_lines (database_of kinds text db.now.rows db.now.parsed) report.now finished) }
{
    let mut lines = Vec::new(alloc);
    for line in report.as_slice() {
        lines.push(report_line(alloc, db.frames(), line)?)?;
    }
    lines.push(List::copy_of(alloc, last_line(finished))?)?;
    Ok(List::from_vec(lines))
}
