//! The values that replies are written from.

ghost use Rattle.std.specs.Prelude.{◌≡◌, codes, true, IfOk};
ghost use Rattle.edit_model.specs.Sessions.{not_a_request};
ghost use Rattle.serde_json.specs.Data.{string, boolean, array, object, member, no_members};
ghost use Rattle.serde_json.specs.View.{view, items_view};

use serde_json::{Value, json};
use std::alloc::{AllocError, Global};

pub fn no_request_value(alloc: Global) -> Result<Value, AllocError>
    ensures { IfOk result (λ v. view v ≡ not_a_request) }
{
    json!(in alloc; {"error": "not a request"})
}

pub fn error_value(alloc: Global, name: Value, why: Value) -> Result<Value, AllocError>
    ensures { IfOk result (λ v. view v ≡ object (member (codes "error") (view why) (member (codes "name") (view name) no_members))) }
{
    json!(in alloc; {"error": why, "name": name})
}

pub fn ok_value(alloc: Global, name: Value) -> Result<Value, AllocError>
    ensures { IfOk result (λ v. view v ≡ object (member (codes "name") (view name) (member (codes "ok") (boolean true) no_members))) }
{
    json!(in alloc; {"name": name, "ok": true})
}

pub fn unify_value(
    alloc: Global,
    name: Value,
    finished: bool,
    report: Vec<Value>,
    text: Value,
) -> Result<Value, AllocError>
    ensures { IfOk result (λ v. view v ≡ object (member (codes "finished") (boolean finished) (member (codes "name") (view name)
        (member (codes "report") (array (items_view report.items)) (member (codes "text") (view text) no_members))))) }
{
    json!(in alloc; {"finished": finished, "name": name, "report": report, "text": text})
}

pub fn suggest_value(
    alloc: Global,
    name: Value,
    places: Vec<Value>,
    label: Value,
) -> Result<Value, AllocError>
    ensures { IfOk result (λ v. view v ≡ object (member (codes "name") (view name)
        (member (codes "places") (array (items_view places.items)) (member (codes "reference") (view label) no_members)))) }
{
    json!(in alloc; {"name": name, "places": places, "reference": label})
}
