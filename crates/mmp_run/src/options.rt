//! The options of the command line.

ghost use Rattle.std.specs.Prelude.{◌≡◌, ◌==◌, ◌<◌, ℕ, List, [], ◌∷◌, drop, find, map, not, option_map, string_bytes, IfOk, IfSome};
ghost use Rattle.std.specs.List.{prefix_len, list_all};
ghost use Rattle.std.specs.Option.{option_copied};
ghost use Rattle.std.specs.Str.{bytes_eq};
ghost use Rattle.call_answers.specs.CommandLine as line;
ghost use Rattle.call_answers.specs.CommandLine.{option_name, option_value, options_where};
ghost use Rattle.mm_model.specs.Names.{contains, has_twice};
ghost use Rattle.mmp_run.specs.Shown.{options_shown, value_in, chosen, known_by};

use mm_base::{Kinds, List, Memory};
use std::alloc::Global;
use written_model::{DvMode, Options, ProofStyle};

/// What the options ask for.
#[derive(Clone, Copy)]
pub struct Choice<'a> {
    pub style: ProofStyle,
    pub dv: DvMode,
    /// The typecode of assertions, where it is named.
    pub provable: Option<&'a [u8]>,
    /// The typecode of their trees, where it is named.
    pub logic: Option<&'a [u8]>,
    /// Whether the worksheet is written in its own place.
    pub in_place: bool,
}

// The number of bytes before the first `=`.
fn name_len(word: &[u8]) -> usize
    ensures { result ≡ prefix_len (λ b. not (b == 61)) word.now }
{
    word.iter().take_while(|b| **b != b'=').count()
}

// The part of an option before its first `=`.
fn name_of(word: &[u8]) -> &[u8]
    ensures { result.now ≡ option_name word.now }
{
    &word[..name_len(word)]
}

// The part behind it.
fn value_of(word: &[u8]) -> &[u8]
    ensures { result.now ≡ option_value word.now }
{
    let count = name_len(word);
    if count < word.len() {
        &word[count + 1..]
    } else {
        b""
    }
}

// The value of the first option with that name.
fn find_value<'a>(options: &'a [String], name: &[u8]) -> Option<&'a [u8]>
    ensures { option_copied result ≡ value_in name.now (map string_bytes options.now) }
{
    for option in options {
        if name_of(option.as_bytes()) == name {
            return Some(value_of(option.as_bytes()));
        }
    }
    None
}

// Whether an option is one of those that are listed whole.
fn is_listed(word: &[u8]) -> bool
    ensures { result ≡ contains line.listed_options word.now }
{
    word == b"--proof=normal".as_slice()
        || word == b"--proof=compressed".as_slice()
        || word == b"--dv=add".as_slice()
        || word == b"--dv=given".as_slice()
}

// Whether a name is that of an option whose value is a typecode.
fn names_typecode(name: &[u8]) -> bool
    ensures { result ≡ contains line.typecode_options name.now }
{
    name == b"--provable".as_slice() || name == b"--logic".as_slice()
}

fn is_known(word: &[u8]) -> bool
    ensures { result ≡ line.is_known word.now }
{
    is_listed(word) || (names_typecode(name_of(word)) && !value_of(word).is_empty())
}

// Whether an option is known to a command, which may take `--in-place`.
fn is_known_by(takes_in_place: bool, word: &[u8]) -> bool
    ensures { result ≡ known_by takes_in_place word.now }
{
    if takes_in_place {
        is_known(word) || word == b"--in-place".as_slice()
    } else {
        is_known(word)
    }
}

fn are_known(takes_in_place: bool, options: &[String]) -> bool
    ensures { result ≡ list_all (known_by takes_in_place) (map string_bytes options.now) }
{
    for option in options {
        if !is_known_by(takes_in_place, option.as_bytes()) {
            return false;
        }
    }
    true
}

// Whether an option has this name.
fn has_name(options: &[String], name: &[u8]) -> bool
    ensures { result ≡ contains (map option_name (map string_bytes options.now)) name.now }
{
    for option in options {
        if name == name_of(option.as_bytes()) {
            return true;
        }
    }
    false
}

// Whether two options have one name.
fn has_name_twice(options: &[String]) -> bool
    ensures { result ≡ has_twice (map option_name (map string_bytes options.now)) }
{
    for (i, option) in options.iter().enumerate() {
        if has_name(&options[i + 1..], name_of(option.as_bytes())) {
            return true;
        }
    }
    false
}

// Whether one of the options is this word.
fn has_option(options: &[String], word: &[u8]) -> bool
    ensures { result ≡ contains (map string_bytes options.now) word.now }
{
    for option in options {
        if word == option.as_bytes() {
            return true;
        }
    }
    false
}

// The style of proofs that the options ask for.
fn style_in(options: &[String]) -> ProofStyle
    ensures { result ≡ (line.options_in (map string_bytes options.now)).style }
{
    match find_value(options, b"--proof") {
        None => ProofStyle::Compressed,
        Some(value) => {
            if value == b"normal".as_slice() {
                ProofStyle::Normal
            } else {
                ProofStyle::Compressed
            }
        }
    }
}

// The pairs that they allow.
fn dv_in(options: &[String]) -> DvMode
    ensures { result ≡ (line.options_in (map string_bytes options.now)).dv }
{
    match find_value(options, b"--dv") {
        None => DvMode::Add,
        Some(value) => {
            if value == b"given".as_slice() {
                DvMode::Given
            } else {
                DvMode::Add
            }
        }
    }
}

// What the options ask for, each known and with a name of its own.
fn choice_of(options: &[String]) -> Choice<'_>
    ensures options { options_shown result ≡ line.options_in (map string_bytes options.now) }
    ensures in_place { result.in_place ≡ contains (map string_bytes options.now) line.in_place }
{
    Choice {
        style: style_in(options),
        dv: dv_in(options),
        provable: find_value(options, b"--provable"),
        logic: find_value(options, b"--logic"),
        in_place: has_option(options, b"--in-place"),
    }
}

// A typecode's name, or the one that stands for it where none is given.
fn named_or<'a>(name: Option<&'a [u8]>, usual: &'static [u8]) -> &'a [u8]
    ensures { result.now ≡ chosen (option_copied name.entry) usual.entry.now }
{
    match name {
        None => usual,
        Some(name) => name,
    }
}

// Whether the two typecodes have one name.
fn has_one_typecode(choice: Choice<'_>) -> bool
    ensures { result ≡ line.has_one_typecode (options_shown choice.entry) }
{
    named_or(choice.provable, b"|-") == named_or(choice.logic, b"wff")
}

/// What the options of a command ask for, which may take `--in-place`: each is known, no two have one name, and the two
/// typecodes differ.
pub fn choose(takes_in_place: bool, options: &[String]) -> Option<Choice<'_>>
    ensures options { option_map options_shown result ≡ options_where (known_by takes_in_place) (map string_bytes options.now) }
    ensures in_place { IfSome result (λ choice. choice.in_place ≡ contains (map string_bytes options.now) line.in_place) }
{
    if !are_known(takes_in_place, options) || has_name_twice(options) {
        return None;
    }
    let choice = choice_of(options);
    if has_one_typecode(choice) {
        return None;
    }
    Some(choice)
}

/// The options as the unifier takes them.
pub fn make_options(alloc: Global, choice: Choice<'_>) -> Result<Options, Memory>
    ensures { IfOk result (λ options. options ≡ options_shown choice.entry) }
{
    Ok(Options {
        style: choice.style,
        kinds: Kinds {
            provable: List::copy_of(alloc, named_or(choice.provable, b"|-"))?,
            logic: List::copy_of(alloc, named_or(choice.logic, b"wff"))?,
        },
        dv: choice.dv,
    })
}
