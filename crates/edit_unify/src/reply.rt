ghost use Rattle.std.specs.Prelude.{◌≡◌, ℕ, List as ListOf, Some, IfOk, IsSome, IsSomeAnd};
ghost use Rattle.std.specs.Str.Lossy.{utf8_lossy};
ghost use Rattle.edit_model.specs.declared.request.Action.TheVariants as action;
ghost use Rattle.edit_model.specs.Sessions as session;
ghost use Rattle.edit_model.specs.Sessions.{IsReply};
ghost use Rattle.edit_replies.specs.Lines.{line_of};
ghost use Rattle.edit_unify.specs.Lines.{IsLineOf};
ghost use Rattle.fault_lines.specs.FaultLines.{refusal_line};
ghost use Rattle.mm_base.specs.declared.kinds.Kinds.{Kinds};
ghost use Rattle.mm_database.specs.Books.{database_of};
ghost use Rattle.mm_database.specs.Opened.{IsOpened};
ghost use Rattle.sheet_unify.specs.Answered.{refusal_of};
ghost use Rattle.sheet_unify.specs.Made.{HasText};
ghost use Rattle.written_model.specs.Report as report;

use edit_replies::{error_reply, unify_reply};
use mm_base::{Bytes, Memory};
use mm_database::Database;
use sheet_unify::{Options, Outcome, UnifyFault, fault_line, report_lines, unify_sheet};
use std::alloc::Global;

// The reply to a sheet with this fault, other than want of memory.
fn fault_reply(alloc: Global, name: &[u8], fault: &UnifyFault) -> Result<Bytes, Memory>
    requires { IsSome (refusal_of fault.now) }
    ensures { IfOk result (λ line. IsSomeAnd (refusal_of fault.now) (λ r. line ≡ line_of (session.error_reply (utf8_lossy name.now) (refusal_line r)))) }
{
    let line = fault_line(alloc, fault)?;
    error_reply(alloc, name, line.as_slice())
}

// The reply to a sheet of which this came.
fn outcome_reply(
    alloc: Global,
    db: &Database,
    name: &[u8],
    outcome: &Outcome,
) -> Result<Bytes, Memory>
    ensures { (kinds : Kinds) (database : ListOf ℕ) → IsOpened kinds database db.now
        → IfOk result (λ line. line ≡ line_of (session.unify_reply (utf8_lossy name.now) outcome.now.finished
        (report.report_lines (database_of kinds database db.now.rows db.now.parsed) outcome.now.report outcome.now.finished) outcome.now.text)) }
{
    let report = report_lines(alloc, db, &outcome.report, outcome.finished)?;
    let text = outcome.text.as_slice();
    unify_reply(alloc, name, outcome.finished, report.as_slice(), text)
}

/// The reply to the request to unify the open sheet with this name and this text, over the database that was opened with the
/// kinds of the options.
pub fn reply_to_unify(
    alloc: Global,
    db: &Database,
    options: &Options,
    name: &[u8],
    text: &[u8],
) -> Result<Bytes, Memory>
    requires opened { HasText options.now.kinds db.now }
    ensures { (database : ListOf ℕ) → IsOpened options.now.kinds database db.now
        → IfOk result (IsLineOf (IsReply (database_of options.now.kinds database db.now.rows db.now.parsed) options.now (utf8_lossy name.now) (Some text.now) action.Unify)) }
{
    match unify_sheet(alloc, db, text, options) {
        Ok(outcome) => outcome_reply(alloc, db, name, &outcome),
        Err(UnifyFault::Memory) => Err(Memory),
        Err(fault) => fault_reply(alloc, name, &fault),
    }
}
