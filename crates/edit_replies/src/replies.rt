//! The replies. Each is a line, and tells as text what is given to it as bytes.

ghost use Rattle.std.specs.Prelude.{◌≡◌, [], IfOk};
ghost use Rattle.std.specs.Str.Lossy.{utf8_lossy};
ghost use Rattle.edit_model.specs.Sessions as session;
ghost use Rattle.edit_replies.specs.Lines.{line_of};
ghost use Rattle.serde_json.specs.Data.{null};

use crate::line::{text_value, text_values, value_line};
use crate::values::{error_value, no_request_value, ok_value, suggest_value, unify_value};
use mm_base::{Bytes, Memory};
use serde_json::Value;
use std::alloc::Global;

/// The reply to a line that is no request.
pub fn no_request_reply(alloc: Global) -> Result<Bytes, Memory>
    ensures { IfOk result (λ line. line ≡ line_of session.not_a_request) }
{
    let value = no_request_value(alloc)?;
    value_line(alloc, &value)
}

/// The reply to a request on a sheet that is refused.
pub fn error_reply(alloc: Global, name: &[u8], why: &[u8]) -> Result<Bytes, Memory>
    ensures { IfOk result (λ line. line ≡ line_of (session.error_reply (utf8_lossy name.now) why.now)) }
{
    let name = text_value(alloc, name)?;
    let why = text_value(alloc, why)?;
    let value = error_value(alloc, name, why)?;
    value_line(alloc, &value)
}

/// The reply to a request that changed a sheet.
pub fn ok_reply(alloc: Global, name: &[u8]) -> Result<Bytes, Memory>
    ensures { IfOk result (λ line. line ≡ line_of (session.ok_reply (utf8_lossy name.now))) }
{
    let name = text_value(alloc, name)?;
    let value = ok_value(alloc, name)?;
    value_line(alloc, &value)
}

/// The reply that has a written worksheet and the lines of its report.
pub fn unify_reply(
    alloc: Global,
    name: &[u8],
    finished: bool,
    report: &[Bytes],
    text: &[u8],
) -> Result<Bytes, Memory>
    ensures { IfOk result (λ line. line ≡ line_of (session.unify_reply (utf8_lossy name.now) finished report.now text.now)) }
{
    let name = text_value(alloc, name)?;
    let report = text_values(alloc, report)?;
    let text = text_value(alloc, text)?;
    let value = unify_value(alloc, name, finished, report, text)?;
    value_line(alloc, &value)
}

/// The reply that names the steps that an assertion takes, and its label.
pub fn suggest_reply(
    alloc: Global,
    name: &[u8],
    places: &[Bytes],
    label: &[u8],
) -> Result<Bytes, Memory>
    ensures { IfOk result (λ line. line ≡ line_of (session.suggest_reply (utf8_lossy name.now) places.now (session.text_of label.now))) }
{
    let name = text_value(alloc, name)?;
    let places = text_values(alloc, places)?;
    let label = text_value(alloc, label)?;
    let value = suggest_value(alloc, name, places, label)?;
    value_line(alloc, &value)
}

/// The reply that nothing is suggested.
pub fn no_suggestion_reply(alloc: Global, name: &[u8]) -> Result<Bytes, Memory>
    ensures { IfOk result (λ line. line ≡ line_of (session.suggest_reply (utf8_lossy name.now) [] null)) }
{
    let name = text_value(alloc, name)?;
    let value = suggest_value(alloc, name, Vec::new(alloc), Value::Null)?;
    value_line(alloc, &value)
}
