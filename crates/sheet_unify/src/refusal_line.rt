ghost use Rattle.std.specs.Prelude.{◌≡◌, ◌++◌, ◌∷◌, Some, option_map, decimal, IfOk, IsSome, OnOk};
ghost use Rattle.fault_lines.specs.FaultLines.{refusal_line};
ghost use Rattle.sheet_unify.specs.Answered.{refusal_of};
ghost use Rattle.sheet_unify.specs.Lines.{bind_words_of, error_text, formula_text, number_text, place_text, sheet_words_of, step_text};

use crate::faults::UnifyFault;
use crate::words::put_word;
use itoa::Buffer;
use mm_base::{Bytes, List, Memory};
use sheet_bind::BindCode;
use sheet_read::SheetCode;
use std::alloc::Global;

/// The code and the name of a fault of a text.
fn sheet_words(code: SheetCode) -> &'static [u8]
    ensures { result.now ≡ sheet_words_of code }
{
    match code {
        SheetCode::NoHeader => b"40 NoHeader",
        SheetCode::BadHeader => b"41 BadHeader",
        SheetCode::NoFooter => b"42 NoFooter",
        SheetCode::TextAfterFooter => b"43 TextAfterFooter",
        SheetCode::BadStep => b"44 BadStep",
        SheetCode::NameTwice => b"45 NameTwice",
        SheetCode::HypUnknown => b"46 HypUnknown",
        SheetCode::QedPlace => b"47 QedPlace",
        SheetCode::ProofUnended => b"48 ProofUnended",
        SheetCode::BadDistinct => b"49 BadDistinct",
    }
}

/// The code and the name of a fault against the database.
fn bind_words(code: BindCode) -> &'static [u8]
    ensures { result.now ≡ bind_words_of code }
{
    match code {
        BindCode::LocUnknown => b"60 LocUnknown",
        BindCode::TheoremTaken => b"61 TheoremTaken",
        BindCode::HypsDiffer => b"62 HypsDiffer",
        BindCode::HypLabelTaken => b"63 HypLabelTaken",
        BindCode::HypWithHyps => b"64 HypWithHyps",
        BindCode::NotProvable => b"65 NotProvable",
        BindCode::UnknownSymbol => b"66 UnknownSymbol",
        BindCode::NoTree => b"67 NoTree",
        BindCode::TwoTrees => b"68 TwoTrees",
        BindCode::Blank => b"69 Blank",
        BindCode::NotVariable => b"70 NotVariable",
        BindCode::FormulaLong => b"71 FormulaLong",
        BindCode::HypLabelTwice => b"72 HypLabelTwice",
        BindCode::TheoremName => b"73 TheoremName",
    }
}

/// The line on a worksheet's fault with these words.
fn line_with(alloc: Global, words: &[u8]) -> Result<Vec<u8>, Memory>
    ensures { IfOk result (λ line. line.items ≡ error_text words.now) }
{
    let mut line = Vec::from_slice(alloc, b"sheet error")?;
    put_word(&mut line, words)?;
    Ok(line)
}

/// Puts in a number.
fn put_number(line: &mut Vec<u8>, number: u64) -> Result<(), Memory>
    ensures { OnOk result (line.new.items ≡ line.old.items ++ 32 ∷ decimal number) }
{
    let mut buffer = Buffer::new();
    put_word(line, buffer.format(number).as_bytes())
}

fn line_at(alloc: Global, words: &[u8], place: u32) -> Result<Bytes, Memory>
    ensures { IfOk result (λ line. line ≡ place_text words.now place) }
{
    let mut line = line_with(alloc, words)?;
    put_word(&mut line, b"at line")?;
    put_number(&mut line, u64::from(place))?;
    Ok(List::from_vec(line))
}

fn line_of_number(alloc: Global, words: &[u8], number: u64) -> Result<Bytes, Memory>
    ensures { IfOk result (λ line. line ≡ number_text words.now number) }
{
    let mut line = line_with(alloc, words)?;
    put_number(&mut line, number)?;
    Ok(List::from_vec(line))
}

fn line_of_step(alloc: Global, words: &[u8], name: &[u8]) -> Result<Bytes, Memory>
    ensures { IfOk result (λ line. line ≡ step_text words.now name.now) }
{
    let mut line = line_with(alloc, words)?;
    put_word(&mut line, name)?;
    Ok(List::from_vec(line))
}

fn line_of_formula(alloc: Global, name: &[u8], tokens: u64) -> Result<Bytes, Memory>
    ensures { IfOk result (λ line. line ≡ formula_text name.now tokens) }
{
    let mut line = line_with(alloc, b"75 FormulaTooLong step")?;
    put_word(&mut line, name)?;
    put_word(&mut line, b"tokens")?;
    put_number(&mut line, tokens)?;
    Ok(List::from_vec(line))
}

/// The line that tells a fault other than want of memory, without a line feed.
pub fn fault_line(alloc: Global, fault: &UnifyFault) -> Result<Bytes, Memory>
    requires { IsSome (refusal_of fault.now) }
    ensures { IfOk result (λ line. option_map refusal_line (refusal_of fault.now) ≡ Some line) }
{
    match fault {
        UnifyFault::Sheet(code, line) => line_at(alloc, sheet_words(*code), *line),
        UnifyFault::TooBig => line_at(alloc, b"50 TooBig", 1),
        UnifyFault::Bind(code, line) => line_at(alloc, bind_words(*code), *line),
        UnifyFault::TooMuch(size) => line_of_number(alloc, b"74 TooMuch size", *size),
        UnifyFault::FormulaTooLong(name, tokens) => {
            line_of_formula(alloc, name.as_slice(), *tokens)
        }
        UnifyFault::TooLarge(bytes) => line_of_number(alloc, b"76 TooLarge bytes", *bytes),
        UnifyFault::TooMuchWritten(size) => {
            line_of_number(alloc, b"77 TooMuchWritten size", *size)
        }
        UnifyFault::WrittenTwoTrees(name) => {
            line_of_step(alloc, b"78 WrittenTwoTrees step", name.as_slice())
        }
        UnifyFault::ProofTooLong(labels) => {
            line_of_number(alloc, b"79 ProofTooLong labels", *labels)
        }
        UnifyFault::Memory => unreachable!(),
    }
}
