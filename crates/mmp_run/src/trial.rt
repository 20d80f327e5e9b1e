//! The trial of the program by itself.

ghost use Rattle.std.specs.Prelude.{◌≡◌, ◌≤◌, ℕ, List, [], None, count_by, length, option_map, IfOk};
ghost use Rattle.std.specs.List.{after_first, flat_map};
ghost use Rattle.std.specs.Str.{bytes_eq};
ghost use Rattle.mm_base.specs.Limits.{most_sheet_bytes};
ghost use Rattle.call_answers.specs.Endings.{status_of as status_of_end};
ghost use Rattle.call_answers.specs.Trial.{IsTried, is_fits, letters_in, letter_count, proof_line, trial_options, trial_report};
ghost use Rattle.mm_database.specs.Faults.{IsDbFault, IsTold};
ghost use Rattle.mm_database.specs.Opened.{IsOpened};
ghost use Rattle.mm_frames.specs.Contents.{contents_of};
ghost use Rattle.mm_model.specs.Statements.{database_fault};
ghost use Rattle.mmp_run.specs.Refused.{IsTextEnding};
ghost use Rattle.mmp_run.specs.Tried.{is_bracket, tokens_shown, TellsOutcome};
ghost use Rattle.sheet_text.specs.Layout.{ended};
ghost use Rattle.trial_texts.specs.TrialTexts.{trial_database};

use crate::options::{Choice, make_options};
use crate::unify::{end_fault, status_of};
use call_answers::Ending;
use mm_base::{Bytes, List, Memory, Status};
use mm_database::{Database, DbFault, open_frames, read_frames};
use mm_frames::Frames;
use sheet_gen::{database, sheet};
use sheet_read::proof_tokens;
use sheet_unify::{Outcome, unify_sheet};
use std::alloc::Global;
use written_model::{DvMode, Options, ProofStyle, ReportLine, ReportVerdict};

const USUAL: Choice<'static> = Choice {
    style: ProofStyle::Compressed,
    dv: DvMode::Add,
    provable: None,
    logic: None,
    in_place: false,
};

// The tokens behind the first `)`.
fn behind_bracket<'s, 'a>(tokens: &'s [&'a [u8]]) -> &'s [&'a [u8]]
    ensures { tokens_shown result.now ≡ after_first is_bracket (tokens_shown tokens.now) }
{
    for (i, token) in tokens.iter().enumerate() {
        if b")".as_slice() == *token {
            return tokens.split_at(i + 1).1;
        }
    }
    &[]
}

// The letters in these tokens.
fn letters_of(alloc: Global, tokens: &[&[u8]]) -> Result<Vec<u8>, Memory>
    ensures { IfOk result (λ letters. letters.items ≡ flat_map letters_in (tokens_shown tokens.now)) }
{
    let mut letters = Vec::new(alloc);
    for token in tokens {
        if *token != b"$.".as_slice() {
            letters.extend_from_slice(token)?;
        }
    }
    Ok(letters)
}

// The number of the letters in the proof of a written text.
fn count_letters(alloc: Global, text: &[u8]) -> Result<usize, Memory>
    requires { length text.now ≤ most_sheet_bytes }
    ensures { IfOk result (λ count. count ≡ letter_count (proof_line text.now)) }
{
    match proof_tokens(alloc, text)? {
        None => Ok(0),
        Some(tokens) => {
            let letters = letters_of(alloc, behind_bracket(tokens.as_slice()))?;
            Ok(letters.len())
        }
    }
}

// The number of the steps that fit.
fn count_fitting(report: &[ReportLine]) -> usize
    ensures { result ≡ count_by (λ line. is_fits line.verdict) report.now }
{
    report
        .iter()
        .filter(|line| matches!(line.verdict, ReportVerdict::Fits))
        .count()
}

// The four lines.
fn report_text(
    alloc: Global,
    steps: usize,
    fits: usize,
    letters: usize,
    finished: bool,
) -> Result<Bytes, Memory>
    ensures { IfOk result (λ text. text ≡ flat_map ended (trial_report steps fits letters finished)) }
{
    let end = if finished { "finished" } else { "not finished" };
    let Ok(text) = format!(in alloc; "steps {steps}\nfits {fits}\nletters {letters}\n{end}\n")
    else {
        return Err(Memory);
    };
    Ok(List::from_vec(text.into_bytes()))
}

// The ending that tells an outcome.
fn end_outcome(alloc: Global, outcome: &Outcome) -> Result<Ending, Memory>
    requires { length outcome.now.text ≤ most_sheet_bytes }
    ensures told { IfOk result (TellsOutcome outcome.now) }
    ensures ending { IfOk result IsTextEnding }
{
    let letters = count_letters(alloc, outcome.text.as_slice())?;
    let report = outcome.report.as_slice();
    let out = report_text(
        alloc,
        report.len(),
        count_fitting(report),
        letters,
        outcome.finished,
    )?;
    Ok(Ending {
        out,
        log: List::from_vec(Vec::new(alloc)),
        status: status_of(outcome.finished),
    })
}

// Tries a worksheet of so many blocks over the opened database.
fn try_over(alloc: Global, db: &Database, options: &Options, blocks: u32) -> Result<Ending, Memory>
    requires options { options.now ≡ trial_options }
    requires opened { IsOpened trial_options.kinds trial_database db.now }
    ensures answer { IfOk result (IsTried blocks) }
    ensures ending { IfOk result IsTextEnding }
{
    let text = sheet(alloc, blocks)?;
    match unify_sheet(alloc, db, text.as_slice(), options) {
        Ok(outcome) => end_outcome(alloc, &outcome),
        Err(fault) => end_fault(alloc, Status::Sheet, fault),
    }
}

// Opens the database from its statements, and tries a worksheet over it.
fn try_frames(
    alloc: Global,
    text: &[u8],
    frames: Frames,
    options: &Options,
    blocks: u32,
) -> Result<Ending, Memory>
    requires text { text.now ≡ trial_database }
    requires options { options.now ≡ trial_options }
    requires contents { frames ≡ contents_of text.now }
    requires no_fault { database_fault text.now ≡ None }
    ensures answer { IfOk result (IsTried blocks) }
    ensures ending { IfOk result IsTextEnding }
{
    match open_frames(alloc, text, frames, &options.kinds) {
        Ok(db) => try_over(alloc, &db, options, blocks),
        Err(_) => Err(Memory),
    }
}

// The one fault of the database's text, which has no other.
fn want_of(fault: DbFault) -> Memory
    requires no_other { IsDbFault fault None }
    requires told { IsTold fault }
{
    match fault {
        DbFault::Memory => Memory,
        _ => unreachable!(),
    }
}

// Reads the database, which has no fault, and tries a worksheet over it.
fn try_text(alloc: Global, text: &[u8], options: &Options, blocks: u32) -> Result<Ending, Memory>
    requires text { text.now ≡ trial_database }
    requires options { options.now ≡ trial_options }
    ensures answer { IfOk result (IsTried blocks) }
    ensures ending { IfOk result IsTextEnding }
{
    match read_frames(alloc, text) {
        Ok(frames) => try_frames(alloc, text, frames, options, blocks),
        Err(fault) => Err(want_of(fault)),
    }
}

// Tries a worksheet with these options.
fn try_with(alloc: Global, options: &Options, blocks: u32) -> Result<Ending, Memory>
    requires { options.now ≡ trial_options }
    ensures answer { IfOk result (IsTried blocks) }
    ensures ending { IfOk result IsTextEnding }
{
    match database(alloc) {
        Ok(text) => try_text(alloc, text.as_slice(), options, blocks),
        Err(_) => Err(Memory),
    }
}

/// The ending for a trial with so many blocks.
pub fn end_trial(alloc: Global, blocks: u32) -> Result<Ending, Memory>
    ensures answer { IfOk result (IsTried blocks) }
    ensures ending { IfOk result IsTextEnding }
{
    match make_options(alloc, USUAL) {
        Ok(options) => try_with(alloc, &options, blocks),
        Err(_) => Err(Memory),
    }
}
