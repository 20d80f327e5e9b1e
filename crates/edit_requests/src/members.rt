//! The members of a value of JSON.

ghost use Rattle.std.specs.Prelude.{◌≡◌, map, option_map, string_bytes, IfOk, IfSome};
ghost use Rattle.std.specs.BTreeMap.{keys};
ghost use Rattle.std.specs.Cmp.Lexicographic.{pointwise};
ghost use Rattle.std.specs.Str.{bytes_eq, IsUtf8};
ghost use Rattle.edit_model.specs.Requests as requests;
ghost use Rattle.edit_model.specs.Requests.{keys_of};
ghost use Rattle.serde_json.specs.View.{view};

use mm_base::{Bytes, List, Memory};
use serde_json::{Map, Value};
use std::alloc::Global;

// Whether these are the keys of the object, in order.
fn are_keys(object: &Map<String, Value>, names: &[&str]) -> bool
    ensures { result ≡ pointwise bytes_eq (map (λ name. name.now) names.now) (map string_bytes (keys object.now)) }
{
    let mut rest = names;
    for key in object.keys() {
        let [name, more @ ..] = rest else {
            return false;
        };
        if key.as_str() != *name {
            return false;
        }
        rest = more;
    }
    rest.is_empty()
}

/// Whether the value has these keys, in order, and no other.
pub fn has_keys(value: &Value, names: &[&str]) -> bool
    ensures { result ≡ pointwise bytes_eq (map (λ name. name.now) names.now) (keys_of (view value.now)) }
{
    match value.as_object() {
        Some(object) => are_keys(object, names),
        None => names.is_empty(),
    }
}

/// The text at a key, where there is one.
pub fn text_at<'a>(value: &'a Value, key: &str) -> Option<&'a str>
    ensures { option_map (λ text. text.now) result ≡ requests.text_at key.now (view value.now) }
{
    value.get(key).and_then(Value::as_str)
}

/// A copy of the text at a key, where there is one.
pub fn copied_text(alloc: Global, value: &Value, key: &str) -> Result<Option<Bytes>, Memory>
    ensures text { IfOk result (λ text. text ≡ requests.text_at key.now (view value.now)) }
    ensures utf8 { IfOk result (λ text. IfSome text IsUtf8) }
{
    match text_at(value, key) {
        Some(text) => Ok(Some(List::copy_of(alloc, text.as_bytes())?)),
        None => Ok(None),
    }
}

/// The whole number at a key, where there is one.
pub fn number_at(value: &Value, key: &str) -> Option<u64>
    ensures { result ≡ requests.number_at key.now (view value.now) }
{
    value.get(key).and_then(Value::as_u64)
}
