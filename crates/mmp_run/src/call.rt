//! A whole call.

ghost use Rattle.std.specs.Prelude.{◌≡◌, ◌≢◌, ◌⊎◌, ℕ, List, Option, Some, false, map, option_map, string_bytes, IfOk, IfSome, IsNone, IsSome, IsSomeAnd};
ghost use Rattle.std.specs.Option.{option_copied};
ghost use Rattle.call_answers.specs.CallAnswers.{ReadsNothing, no_files};
ghost use Rattle.call_answers.specs.CommandLine.{command_of};
ghost use Rattle.call_answers.specs.Given.{told, target, in_place_of, IsSettled, IsGiven, NoReadFault, SaysReadFault, IsCutShort, is_written};
ghost use Rattle.mm_base.specs.Outside.{Files, NoneFell, Rose};
ghost use Rattle.mmp_run.specs.Answers.{MayEnd, MayEndFor};
ghost use Rattle.mmp_run.specs.OpenedBoth.{HasTexts, IsOpenedBoth};
ghost use Rattle.mmp_run.specs.Shown.{shown, options_shown, unify_command, verify_command, export_command, install_command, select_command, auto_command};

use crate::auto::end_auto;
use crate::both::{OpenedBoth, open_both};
use crate::command::{Command, read_words};
use crate::deliver::deliver;
use crate::endings::refuse;
use crate::export::end_proof;
use crate::install::end_put_in;
use crate::opening::{Opened, open};
use crate::options::{Choice, make_options};
use crate::select::end_step;
use crate::trial::end_trial;
use crate::unify::end_sheet;
use crate::verify::end_theorem;
use call_answers::Ending;
use mm_base::{Memory, Sink, Status, Store};
use std::alloc::Global;
use written_model::Options;

// Unifies the worksheet of two files that were opened.
fn unify_both(alloc: Global, opened: OpenedBoth, options: &Options) -> Result<Ending, Memory>
    requires { HasTexts opened }
    ensures { (told : Option Files) (before now : List ℕ → ℕ) (choice : Choice) (database sheet : List ℕ) → options_shown choice ≡ options.now
        → IsOpenedBoth told before now database sheet opened → IfOk result (MayEnd (unify_command choice database sheet) told before now) }
{
    match opened {
        OpenedBoth::Both(text, frames, sheet) => {
            end_sheet(alloc, text.as_slice(), frames, &sheet, options)
        }
        OpenedBoth::Refused(end) => Ok(end),
    }
}

// Puts the theorem of the worksheet of two files that were opened into the text of the database.
fn install_both(alloc: Global, opened: OpenedBoth, options: &Options) -> Result<Ending, Memory>
    requires { HasTexts opened }
    ensures { (told : Option Files) (before now : List ℕ → ℕ) (choice : Choice) (database sheet : List ℕ) → options_shown choice ≡ options.now
        → IsOpenedBoth told before now database sheet opened → IfOk result (MayEnd (install_command choice database sheet) told before now) }
{
    match opened {
        OpenedBoth::Both(text, frames, sheet) => {
            end_put_in(alloc, text.as_slice(), frames, &sheet, options)
        }
        OpenedBoth::Refused(end) => Ok(end),
    }
}

// Tells which assertions fit a step of the worksheet of two files that were opened.
fn select_both(
    alloc: Global,
    opened: OpenedBoth,
    options: &Options,
    step: &str,
) -> Result<Ending, Memory>
    requires { HasTexts opened }
    ensures { (told : Option Files) (before now : List ℕ → ℕ) (choice : Choice) (database sheet : List ℕ) → options_shown choice ≡ options.now
        → IsOpenedBoth told before now database sheet opened → IfOk result (MayEnd (select_command choice database sheet step.now) told before now) }
{
    match opened {
        OpenedBoth::Both(text, frames, sheet) => {
            end_step(alloc, text.as_slice(), frames, &sheet, options, step)
        }
        OpenedBoth::Refused(end) => Ok(end),
    }
}

// Unifies the worksheet of two files that were opened with its steps filled.
fn auto_both(alloc: Global, opened: OpenedBoth, options: &Options) -> Result<Ending, Memory>
    requires { HasTexts opened }
    ensures { (told : Option Files) (before now : List ℕ → ℕ) (choice : Choice) (database sheet : List ℕ) → options_shown choice ≡ options.now
        → IsOpenedBoth told before now database sheet opened → IfOk result (MayEnd (auto_command choice database sheet) told before now) }
{
    match opened {
        OpenedBoth::Both(text, frames, sheet) => {
            end_auto(alloc, text.as_slice(), frames, &sheet, options)
        }
        OpenedBoth::Refused(end) => Ok(end),
    }
}

// Unifies the worksheet of a file over the database of another, with what the options ask for.
fn end_unify<S: Store>(
    alloc: Global,
    store: &mut S,
    choice: Choice<'_>,
    database: &str,
    sheet: &str,
) -> Result<Ending, Memory>
    ensures answer { IfOk result (MayEnd (unify_command choice.entry database.now sheet.now) (S.told store.old) (S.read_faults store.old) (S.read_faults store.new)) }
    ensures same_files { S.told store.new ≡ S.told store.old }
    ensures replace_faults { NoneFell (S.replace_faults store.old) (S.replace_faults store.new) }
{
    let options = make_options(alloc, choice)?;
    match open_both(alloc, store, database, sheet) {
        Ok(opened) => unify_both(alloc, opened, &options),
        Err(_) => Err(Memory),
    }
}

// Puts the theorem of the worksheet of a file into the database of another.
fn end_install<S: Store>(
    alloc: Global,
    store: &mut S,
    choice: Choice<'_>,
    database: &str,
    sheet: &str,
) -> Result<Ending, Memory>
    ensures answer { IfOk result (MayEnd (install_command choice.entry database.now sheet.now) (S.told store.old) (S.read_faults store.old) (S.read_faults store.new)) }
    ensures same_files { S.told store.new ≡ S.told store.old }
    ensures replace_faults { NoneFell (S.replace_faults store.old) (S.replace_faults store.new) }
{
    let options = make_options(alloc, choice)?;
    match open_both(alloc, store, database, sheet) {
        Ok(opened) => install_both(alloc, opened, &options),
        Err(_) => Err(Memory),
    }
}

// Tells which assertions of the database of a file fit a step of the worksheet of another.
fn end_select<S: Store>(
    alloc: Global,
    store: &mut S,
    choice: Choice<'_>,
    database: &str,
    sheet: &str,
    step: &str,
) -> Result<Ending, Memory>
    ensures answer { IfOk result (MayEnd (select_command choice.entry database.now sheet.now step.now) (S.told store.old) (S.read_faults store.old) (S.read_faults store.new)) }
    ensures same_files { S.told store.new ≡ S.told store.old }
    ensures replace_faults { NoneFell (S.replace_faults store.old) (S.replace_faults store.new) }
{
    let options = make_options(alloc, choice)?;
    match open_both(alloc, store, database, sheet) {
        Ok(opened) => select_both(alloc, opened, &options, step),
        Err(_) => Err(Memory),
    }
}

// Unifies the worksheet of a file over the database of another with its steps filled.
fn end_filled<S: Store>(
    alloc: Global,
    store: &mut S,
    choice: Choice<'_>,
    database: &str,
    sheet: &str,
) -> Result<Ending, Memory>
    ensures answer { IfOk result (MayEnd (auto_command choice.entry database.now sheet.now) (S.told store.old) (S.read_faults store.old) (S.read_faults store.new)) }
    ensures same_files { S.told store.new ≡ S.told store.old }
    ensures replace_faults { NoneFell (S.replace_faults store.old) (S.replace_faults store.new) }
{
    let options = make_options(alloc, choice)?;
    match open_both(alloc, store, database, sheet) {
        Ok(opened) => auto_both(alloc, opened, &options),
        Err(_) => Err(Memory),
    }
}

// Checks the proof of a theorem of the database of a file.
fn end_verify<S: Store>(
    alloc: Global,
    store: &mut S,
    database: &str,
    theorem: &str,
) -> Result<Ending, Memory>
    ensures answer { IfOk result (MayEnd (verify_command database.now theorem.now) (S.told store.old) (S.read_faults store.old) (S.read_faults store.new)) }
    ensures same_files { S.told store.new ≡ S.told store.old }
    ensures replace_faults { NoneFell (S.replace_faults store.old) (S.replace_faults store.new) }
{
    match open(alloc, store, database)? {
        Opened::Database(text, frames) => end_theorem(alloc, text.as_slice(), &frames, theorem),
        Opened::Refused(end) => Ok(end),
    }
}

// Exports the proof of a theorem of the database of a file.
fn end_export<S: Store>(
    alloc: Global,
    store: &mut S,
    choice: Choice<'_>,
    database: &str,
    theorem: &str,
) -> Result<Ending, Memory>
    ensures answer { IfOk result (MayEnd (export_command choice.entry database.now theorem.now) (S.told store.old) (S.read_faults store.old) (S.read_faults store.new)) }
    ensures same_files { S.told store.new ≡ S.told store.old }
    ensures replace_faults { NoneFell (S.replace_faults store.old) (S.replace_faults store.new) }
{
    let options = make_options(alloc, choice)?;
    match open(alloc, store, database)? {
        Opened::Database(text, frames) => {
            end_proof(alloc, text.as_slice(), frames, &options, theorem)
        }
        Opened::Refused(end) => Ok(end),
    }
}

// Reads the files that a command names, and gives its ending.
fn end_command<S: Store>(
    alloc: Global,
    store: &mut S,
    command: Command<'_>,
) -> Result<Ending, Memory>
    ensures answer { IfOk result (MayEnd (shown command.entry) (S.told store.old) (S.read_faults store.old) (S.read_faults store.new)) }
    ensures not_called { ReadsNothing (Some (shown command.entry)) → store.new ≡ store.old }
    ensures same_files { S.told store.new ≡ S.told store.old }
    ensures replace_faults { NoneFell (S.replace_faults store.old) (S.replace_faults store.new) }
{
    match command {
        Command::Unify {
            choice,
            database,
            sheet,
        } => end_unify(alloc, store, choice, database, sheet),
        Command::Verify { database, theorem } => end_verify(alloc, store, database, theorem),
        Command::Trial(blocks) => end_trial(alloc, blocks),
        Command::Export {
            choice,
            database,
            theorem,
        } => end_export(alloc, store, choice, database, theorem),
        Command::Install {
            choice,
            database,
            sheet,
        } => end_install(alloc, store, choice, database, sheet),
        Command::Select {
            choice,
            database,
            sheet,
            step,
        } => end_select(alloc, store, choice, database, sheet, step),
        Command::Auto {
            choice,
            database,
            sheet,
        } => end_filled(alloc, store, choice, database, sheet),
    }
}

// The ending for a command, or the usage line where there is none. It writes nothing.
fn end_words<S: Store>(
    alloc: Global,
    store: &mut S,
    command: Option<Command<'_>>,
) -> Result<Ending, Memory>
    ensures answer { IfOk result (MayEndFor (option_map shown command.entry) (S.told store.old) (S.read_faults store.old) (S.read_faults store.new)) }
    ensures not_called { ReadsNothing (option_map shown command.entry) → store.new ≡ store.old }
    ensures same_files { S.told store.new ≡ S.told store.old }
    ensures replace_faults { NoneFell (S.replace_faults store.old) (S.replace_faults store.new) }
{
    match command {
        Some(command) => end_command(alloc, store, command),
        None => refuse(
            alloc,
            Status::Words,
            "usage: mmp unify [--proof=normal|compressed] [--in-place] [--dv=add|given] [--provable=T] [--logic=T] DB SHEET | mmp verify DB LABEL | mmp trial N | mmp export [options] DB LABEL | mmp install [options] DB SHEET | mmp select [options] DB SHEET STEP | mmp auto [options] DB SHEET",
        ),
    }
}

// Whether a call ends with a worksheet.
fn ends_written(status: Status) -> bool
    ensures { result ≡ is_written status }
{
    match status {
        Status::Finished => true,
        Status::Unfinished => true,
        _ => false,
    }
}

// The file whose bytes the text of an ending becomes, where a worksheet is written in its own place.
fn place_of<'a>(command: Option<Command<'a>>, status: Status) -> Option<&'a str>
    ensures { option_copied result ≡ target (option_map shown command.entry) status }
{
    match command {
        Some(Command::Unify { choice, sheet, .. }) => {
            if choice.in_place && ends_written(status) {
                Some(sheet)
            } else {
                None
            }
        }
        _ => None,
    }
}

/// All that the program does for the words behind its name: it reads the files that they name, and writes one text to
/// `out` and one to `log`, each made whole before anything is written. With `--in-place` the worksheet is put under its own
/// name, and nothing is written to `out`.
///
/// # Statuses
/// For `unify` and `auto` `Finished` and `Unfinished`: the worksheet is in `out`, or in its file, and the report in `log`. For
/// `verify` `Finished`: the proof is accepted, as one line in `out` says; `Proof`: there is no such theorem or its proof is
/// refused, by one line in `log`. For `trial` `Finished` and `Unfinished`: four lines are in `out`. For `export` `Finished`:
/// the worksheet is in `out`, and the report in `log`; `Proof`: as for `verify`, or the proof gives no finished worksheet, by
/// one line in `log`. For `install` `Finished`: the text of the database with the theorem in it is in `out`, and the report in
/// `log`; `Unfinished`: the report is in `log`, and nothing in `out`. For `select` `Finished`: the labels that fit are in
/// `out`, one on each line. `Database` and `Sheet`: the file is refused, by one line in `log`; `Sheet` is also that of an
/// `install` whose theorem is one of the database, or whose text would be too large, of a `select` whose step is not there or
/// is open, and of an `auto` whose filled worksheet is refused. `Words`: the words fit no command, and `log` has the usage
/// line. `Read`: a file could not be read, and `log` names it. `Write`: a sink failed, or the store where the worksheet was to
/// be put, and two texts are cut short; over told files, and for `trial` and words that fit no command over every store, they
/// are those of one of the other statuses. Nothing is in `log` unless the first text is whole. `Memory`: memory ran out, and
/// nothing was written.
pub fn run<S: Store, O: Sink, L: Sink>(
    alloc: Global,
    words: &[String],
    store: &mut S,
    out: &mut O,
    log: &mut L,
) -> Status
    // Over told files each status but Read, Write and Memory is that of the answer to the words, which is given whole.
    ensures due { IsSettled result → IfSome (S.told store.old) (λ files. IsGiven (map string_bytes words.now) files result
        (told (S.told store.old) (O.told out.old) (L.told log.old)) (told (S.told store.new) (O.told out.new) (L.told log.new))) }

    // Where no file is read, the same over every store, which is not called.
    ensures without_files { ReadsNothing (command_of (map string_bytes words.now)) → IsSettled result → IsGiven (map string_bytes words.now) no_files result
        (told (S.told store.old) (O.told out.old) (L.told log.old)) (told (S.told store.new) (O.told out.new) (L.told log.new)) }
    ensures not_called { ReadsNothing (command_of (map string_bytes words.now)) → store.new ≡ store.old }

    // Where nothing failed, the answer is given, or memory is wanting. It follows from the clauses on the single statuses,
    // and says their sum.
    ensures complete { IfSome (command_of (map string_bytes words.now)) (λ command. IfSome (S.told store.old) (λ files.
        NoReadFault command (S.read_faults store.old) (S.read_faults store.new)
        → IfSome (in_place_of (Some command)) (λ name. ¬ Rose (S.replace_faults store.old name) (S.replace_faults store.new name))
        → ¬ Rose (O.faults out.old) (O.faults out.new)
        → ¬ Rose (L.faults log.old) (L.faults log.new)
        → (result ≡ Status.Memory) ⊎ IsGiven (map string_bytes words.now) files result
        (told (S.told store.old) (O.told out.old) (L.told log.old)) (told (S.told store.new) (O.told out.new) (L.told log.new)))) }

    // The words, over every store.
    ensures words_only { result ≡ Status.Words → IsNone (command_of (map string_bytes words.now)) }
    ensures words_always { IsNone (command_of (map string_bytes words.now)) → (result ≡ Status.Words) ⊎ ((result ≡ Status.Memory) ⊎ (result ≡ Status.Write)) }

    // The failures, over every store.
    ensures read { result ≡ Status.Read → IsSomeAnd (command_of (map string_bytes words.now)) (λ command.
        SaysReadFault command (S.read_faults store.old) (S.read_faults store.new)
        (told (S.told store.old) (O.told out.old) (L.told log.old)) (told (S.told store.new) (O.told out.new) (L.told log.new))) }
    ensures write { result ≡ Status.Write → Rose (O.faults out.old) (O.faults out.new) ⊎ (Rose (L.faults log.old) (L.faults log.new)
        ⊎ IsSomeAnd (in_place_of (command_of (map string_bytes words.now))) (λ name. Rose (S.replace_faults store.old name) (S.replace_faults store.new name))) }
    ensures write_part { result ≡ Status.Write → IsCutShort (map string_bytes words.now) (S.read_faults store.old) (S.read_faults store.new)
        (told (S.told store.old) (O.told out.old) (L.told log.old)) (told (S.told store.new) (O.told out.new) (L.told log.new)) }
    ensures memory { result ≡ Status.Memory → (S.told store.new ≡ S.told store.old) × (out.new ≡ out.old) × (log.new ≡ log.old) }

    // The output and the files change only with a written text, the files only where it is a worksheet that is written in its own
    // place, and then not the output.
    ensures kept_output { is_written result ≡ false → result ≢ Status.Write → out.new ≡ out.old }
    ensures kept_files { is_written result ≡ false → result ≢ Status.Write → S.told store.new ≡ S.told store.old }
    ensures same_files { IsNone (in_place_of (command_of (map string_bytes words.now))) → S.told store.new ≡ S.told store.old }
    ensures in_place { IsSome (in_place_of (command_of (map string_bytes words.now))) → out.new ≡ out.old }
{
    let command = read_words(words);
    match end_words(alloc, store, command) {
        Ok(end) => deliver(&end, place_of(command, end.status), store, out, log),
        Err(_) => Status::Memory,
    }
}
