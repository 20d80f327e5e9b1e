ghost use Rattle.std.specs.Prelude.{◌≡◌, Option, Some, IfOk, IfSome, IsSome, option_map, string_bytes};
ghost use Rattle.mm_model.specs.Faults.{Fault, fault};
ghost use Rattle.mm_database.specs.Faults.{read_fault, token_fault, fault_of};
ghost use Rattle.fault_lines.specs.FaultLines.{database_faults, database_line};
ghost use Rattle.fault_lines.specs.NamedFaults.{told, IsNamed};

use fault_lines::{NamedFault, database_line};
use mm_base::{Bytes, List, Memory};
use mm_frames::ReadFault;
use mm_tokens::TokenFault;
use std::alloc::Global;

/// Why a text is no database: its first fault, the faults of tokens first.
#[derive(Clone, Copy, Debug, PartialEq, Eq)]
pub enum DbFault {
    /// The first fault of its tokens.
    Token(TokenFault),
    /// The first fault of its statements.
    Read(ReadFault),
    /// Memory ran out.
    Memory,
}

fn named(code: u8, name: &'static str, place: u32) -> NamedFault
    ensures fault { told result ≡ fault place code }
    ensures word { result.name.now ≡ name.now }
{
    NamedFault { code, name, place }
}

fn named_token(fault: TokenFault) -> Option<NamedFault>
    ensures fault { option_map told result ≡ token_fault fault }
    ensures named { IfSome result (IsNamed database_faults) }
{
    match fault {
        TokenFault::BadByte(byte) => Some(named(1, "BadByte", byte)),
        TokenFault::OpenComment(byte) => Some(named(2, "OpenComment", byte)),
        TokenFault::CommentInComment(byte) => Some(named(3, "CommentInComment", byte)),
        TokenFault::BadKeyword(byte) => Some(named(4, "BadKeyword", byte)),
        TokenFault::Memory => None,
    }
}

fn named_read(fault: ReadFault) -> Option<NamedFault>
    ensures fault { option_map told result ≡ read_fault fault }
    ensures named { IfSome result (IsNamed database_faults) }
{
    match fault {
        ReadFault::Include(byte) => Some(named(10, "Include", byte)),
        ReadFault::ConstInBlock(byte) => Some(named(11, "ConstInBlock", byte)),
        ReadFault::Redeclared(byte) => Some(named(12, "Redeclared", byte)),
        ReadFault::NotActive(byte) => Some(named(13, "NotActive", byte)),
        ReadFault::NoType(byte) => Some(named(14, "NoType", byte)),
        ReadFault::TwoTypes(byte) => Some(named(15, "TwoTypes", byte)),
        ReadFault::FirstNotConst(byte) => Some(named(16, "FirstNotConst", byte)),
        ReadFault::LabelTaken(byte) => Some(named(17, "LabelTaken", byte)),
        ReadFault::LabelMissing(byte) => Some(named(18, "LabelMissing", byte)),
        ReadFault::LabelExtra(byte) => Some(named(19, "LabelExtra", byte)),
        ReadFault::BadLabel(byte) => Some(named(20, "BadLabel", byte)),
        ReadFault::Unended(byte) => Some(named(21, "Unended", byte)),
        ReadFault::BlockOpen(byte) => Some(named(22, "BlockOpen", byte)),
        ReadFault::BlockUnopened(byte) => Some(named(23, "BlockUnopened", byte)),
        ReadFault::DistinctShort(byte) => Some(named(24, "DistinctShort", byte)),
        ReadFault::DistinctTwice(byte) => Some(named(25, "DistinctTwice", byte)),
        ReadFault::EmptyFormula(byte) => Some(named(26, "EmptyFormula", byte)),
        ReadFault::BadHypothesis(byte) => Some(named(27, "BadHypothesis", byte)),
        ReadFault::NoProof(byte) => Some(named(28, "NoProof", byte)),
        ReadFault::StrayToken(byte) => Some(named(29, "StrayToken", byte)),
        ReadFault::Memory => None,
    }
}

fn named_fault(fault: DbFault) -> Option<NamedFault>
    ensures fault { option_map told result ≡ fault_of fault }
    ensures named { IfSome result (IsNamed database_faults) }
{
    match fault {
        DbFault::Token(fault) => named_token(fault),
        DbFault::Read(fault) => named_read(fault),
        DbFault::Memory => None,
    }
}

/// The line that tells a fault with a code, without its end. Each fault but want of memory has one.
///
/// Fails where memory runs out.
pub fn db_fault_line(alloc: Global, fault: &DbFault) -> Result<Bytes, Memory>
    requires { IsSome (fault_of fault.now) }
    ensures { IfOk result (λ line. option_map database_line (fault_of fault.now) ≡ Some line) }
{
    match named_fault(*fault) {
        None => Err(Memory),
        Some(named) => {
            let line = database_line(alloc, named)?;
            Ok(List::from_vec(line.into_bytes()))
        }
    }
}
