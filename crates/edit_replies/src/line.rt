//! The line that a value of JSON is written as, and the texts of bytes in it.

ghost use Rattle.std.specs.Prelude.{◌≡◌, ◌++◌, ◌∷◌, [], map, false, string_bytes, IfOk};
ghost use Rattle.edit_model.specs.Sessions as session;
ghost use Rattle.serde_json.specs.View.{view, items_view};
ghost use Rattle.serde_json.specs.Written.{compact_text, has_float};
ghost use Rattle.sheet_text.specs.Layout.{ended};

use mm_base::{Bytes, List, Memory};
use serde_json::Value;
use std::alloc::Global;

/// The value on a line of its own. It has no number with a fraction.
pub fn value_line(alloc: Global, value: &Value) -> Result<Bytes, Memory>
    requires { has_float (view value.now) ≡ false }
    ensures { IfOk result (λ line. line ≡ ended (compact_text (view value.now))) }
{
    let mut line = value.to_string(alloc)?.into_bytes();
    line.push(b'\n')?;
    Ok(List::from_vec(line))
}

/// The bytes as a text of JSON.
pub fn text_value(alloc: Global, bytes: &[u8]) -> Result<Value, Memory>
    ensures { IfOk result (λ value. view value ≡ session.text_of bytes.now) }
{
    Ok(Value::String(String::from_utf8_lossy(alloc, bytes)?))
}

/// Each of several bytes as a text of JSON, in order.
pub fn text_values(alloc: Global, all: &[Bytes]) -> Result<Vec<Value>, Memory>
    ensures { IfOk result (λ values. map view values.items ≡ map session.text_of all.now) }
{
    let mut values = Vec::new(alloc);
    for bytes in all {
        values.push(text_value(alloc, bytes.as_slice())?)?;
    }
    Ok(values)
}
