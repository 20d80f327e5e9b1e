//! The words of the command line.

ghost use Rattle.std.specs.Prelude.{◌≡◌, ◌≤◌, [], ◌∷◌, length, find, map, string_bytes};
ghost use Rattle.std.specs.List.{list_all, prefix_len};
ghost use Rattle.std.specs.Option.{option_map, option_and_then};
ghost use Rattle.call_answers.specs.CommandLine as line;
ghost use Rattle.call_answers.specs.CommandLine.{command_of, is_option, is_name, leading, behind};
ghost use Rattle.mm_model.specs.Names.{contains};
ghost use Rattle.mmp_run.specs.Shown.{names_in, names_shown, options_shown, shown, three_in, three_shown};

use crate::options::{Choice, choose};
use itoa::Buffer;
use mm_base::MOST_TRIAL_BLOCKS;

/// What the words ask for.
#[derive(Clone, Copy)]
pub enum Command<'a> {
    /// To unify a worksheet over a database.
    Unify {
        choice: Choice<'a>,
        database: &'a str,
        sheet: &'a str,
    },
    /// To check the proof of a theorem of a database.
    Verify {
        database: &'a str,
        theorem: &'a str,
    },
    /// To try the program by itself, with so many blocks.
    Trial(u32),
    /// To print an accepted proof of a database as a finished worksheet.
    Export {
        choice: Choice<'a>,
        database: &'a str,
        theorem: &'a str,
    },
    /// To print a database with the theorem of a worksheet in it.
    Install {
        choice: Choice<'a>,
        database: &'a str,
        sheet: &'a str,
    },
    /// To tell the assertions that fit a step of a worksheet.
    Select {
        choice: Choice<'a>,
        database: &'a str,
        sheet: &'a str,
        step: &'a str,
    },
    /// To unify a worksheet with its steps filled.
    Auto {
        choice: Choice<'a>,
        database: &'a str,
        sheet: &'a str,
    },
}

// A word that may name a file, a label or a step.
fn is_name_word(word: &str) -> bool
    ensures { result ≡ is_name word.now }
{
    !word.is_empty() && !is_option_word(word)
}

// A word that is an option.
fn is_option_word(word: &str) -> bool
    ensures { result ≡ is_option word.now }
{
    word.starts_with("--")
}

// The number of options at the front of the words.
fn count_options(words: &[String]) -> usize
    ensures count { result ≡ prefix_len is_option (map string_bytes words.now) }
    ensures within { result ≤ length words.now }
{
    for (i, word) in words.iter().enumerate() {
        if !is_option_word(word.as_str()) {
            return i;
        }
    }
    words.len()
}

// A number of blocks, in decimal.
fn read_blocks(word: &str) -> Option<u32>
    ensures { result ≡ line.trial_number word.now }
{
    for blocks in 1..MOST_TRIAL_BLOCKS + 1 {
        let mut buffer = Buffer::new();
        if buffer.format(blocks) == word {
            return Some(blocks);
        }
    }
    None
}

// The two names that a command takes.
fn two_names(words: &[String]) -> Option<(&str, &str)>
    ensures { option_map names_shown result ≡ names_in (map string_bytes words.now) }
{
    let [first, second] = words else {
        return None;
    };
    if !is_name_word(first.as_str()) || !is_name_word(second.as_str()) {
        return None;
    }
    Some((first.as_str(), second.as_str()))
}

// The three names that a command takes.
fn three_names(words: &[String]) -> Option<(&str, &str, &str)>
    ensures { option_map three_shown result ≡ three_in (map string_bytes words.now) }
{
    let [first, second, third] = words else {
        return None;
    };
    if !is_name_word(first.as_str())
        || !is_name_word(second.as_str())
        || !is_name_word(third.as_str())
    {
        return None;
    }
    Some((first.as_str(), second.as_str(), third.as_str()))
}

// What is to be unified, by the words behind the options.
fn read_files<'a>(choice: Choice<'a>, words: &'a [String]) -> Option<Command<'a>>
    ensures { option_map shown result ≡ line.unify_of choice.entry.in_place (map string_bytes words.entry.now) (options_shown choice.entry) }
{
    match two_names(words) {
        None => None,
        Some((database, sheet)) => Some(Command::Unify {
            choice,
            database,
            sheet,
        }),
    }
}

// The command `unify` with these words behind it.
fn read_unify(words: &[String]) -> Option<Command<'_>>
    ensures { let all = map string_bytes words.now in
        option_map shown result ≡ option_and_then (line.unify_of (contains (leading all) line.in_place) (behind all)) (line.unify_options (leading all)) }
{
    let (options, files) = words.split_at(count_options(words));
    match choose(true, options) {
        None => None,
        Some(choice) => read_files(choice, files),
    }
}

// The command `verify` with these words behind it.
fn read_verify(words: &[String]) -> Option<Command<'_>>
    ensures { option_map shown result ≡ line.verify_of (map string_bytes words.now) }
{
    match two_names(words) {
        None => None,
        Some((database, theorem)) => Some(Command::Verify { database, theorem }),
    }
}

// The command `trial` with these words behind it.
fn read_trial(words: &[String]) -> Option<Command<'_>>
    ensures { option_map shown result ≡ line.trial_of (map string_bytes words.now) }
{
    let [word] = words else {
        return None;
    };
    match read_blocks(word.as_str()) {
        None => None,
        Some(blocks) => Some(Command::Trial(blocks)),
    }
}

// The theorem that is to be exported, by the words behind the options.
fn read_theorem<'a>(choice: Choice<'a>, words: &'a [String]) -> Option<Command<'a>>
    ensures { option_map shown result ≡ line.export_of (map string_bytes words.entry.now) (options_shown choice.entry) }
{
    match two_names(words) {
        None => None,
        Some((database, theorem)) => Some(Command::Export {
            choice,
            database,
            theorem,
        }),
    }
}

// The command `export` with these words behind it.
fn read_export(words: &[String]) -> Option<Command<'_>>
    ensures { option_map shown result ≡ line.with_options line.export_of (map string_bytes words.now) }
{
    let (options, names) = words.split_at(count_options(words));
    match choose(false, options) {
        None => None,
        Some(choice) => read_theorem(choice, names),
    }
}

// The worksheet whose theorem is to be put in, by the words behind the options.
fn read_sheet<'a>(choice: Choice<'a>, words: &'a [String]) -> Option<Command<'a>>
    ensures { option_map shown result ≡ line.install_of (map string_bytes words.entry.now) (options_shown choice.entry) }
{
    match two_names(words) {
        None => None,
        Some((database, sheet)) => Some(Command::Install {
            choice,
            database,
            sheet,
        }),
    }
}

// The command `install` with these words behind it.
fn read_install(words: &[String]) -> Option<Command<'_>>
    ensures { option_map shown result ≡ line.with_options line.install_of (map string_bytes words.now) }
{
    let (options, names) = words.split_at(count_options(words));
    match choose(false, options) {
        None => None,
        Some(choice) => read_sheet(choice, names),
    }
}

// The step that is asked about, by the words behind the options.
fn read_step<'a>(choice: Choice<'a>, words: &'a [String]) -> Option<Command<'a>>
    ensures { option_map shown result ≡ line.select_of (map string_bytes words.entry.now) (options_shown choice.entry) }
{
    match three_names(words) {
        None => None,
        Some((database, sheet, step)) => Some(Command::Select {
            choice,
            database,
            sheet,
            step,
        }),
    }
}

// The command `select` with these words behind it.
fn read_select(words: &[String]) -> Option<Command<'_>>
    ensures { option_map shown result ≡ line.with_options line.select_of (map string_bytes words.now) }
{
    let (options, names) = words.split_at(count_options(words));
    match choose(false, options) {
        None => None,
        Some(choice) => read_step(choice, names),
    }
}

// What is to be filled, by the words behind the options.
fn read_filled<'a>(choice: Choice<'a>, words: &'a [String]) -> Option<Command<'a>>
    ensures { option_map shown result ≡ line.auto_of (map string_bytes words.entry.now) (options_shown choice.entry) }
{
    match two_names(words) {
        None => None,
        Some((database, sheet)) => Some(Command::Auto {
            choice,
            database,
            sheet,
        }),
    }
}

// The command `auto` with these words behind it.
fn read_auto(words: &[String]) -> Option<Command<'_>>
    ensures { option_map shown result ≡ line.with_options line.auto_of (map string_bytes words.now) }
{
    let (options, names) = words.split_at(count_options(words));
    match choose(false, options) {
        None => None,
        Some(choice) => read_filled(choice, names),
    }
}

// The command of that name with these words behind it.
fn read_by_name<'a>(word: &str, words: &'a [String]) -> Option<Command<'a>>
    ensures { option_map shown result ≡ line.of_word word.now (map string_bytes words.entry.now) }
{
    if word == "unify" {
        read_unify(words)
    } else if word == "verify" {
        read_verify(words)
    } else if word == "trial" {
        read_trial(words)
    } else if word == "export" {
        read_export(words)
    } else if word == "install" {
        read_install(words)
    } else if word == "select" {
        read_select(words)
    } else if word == "auto" {
        read_auto(words)
    } else {
        None
    }
}

/// The command, where the words fit one.
pub fn read_words(words: &[String]) -> Option<Command<'_>>
    ensures { option_map shown result ≡ command_of (map string_bytes words.now) }
{
    if words.is_empty() {
        return None;
    }
    let (_, behind) = words.split_at(1);
    read_by_name(words[0].as_str(), behind)
}
