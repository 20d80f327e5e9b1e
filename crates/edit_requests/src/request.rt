//! The request that a line of JSON is.

ghost use Rattle.std.specs.Prelude.{◌≡◌, IfOk, IfSome};
ghost use Rattle.edit_model.specs.Requests as requests;
ghost use Rattle.edit_model.specs.Requests.{of_sheet, request_in};
ghost use Rattle.edit_requests.specs.Names.{HasTextName};
ghost use Rattle.edit_requests.specs.Operations.{operation_of};
ghost use Rattle.serde_json.specs.View.{view};

use crate::members::{copied_text, has_keys, number_at, text_at};
use crate::operation::{Operation, operation_keys, operation_named};
use edit_model::{Action, Request};
use mm_base::Memory;
use serde_json::{Category, Value};
use std::alloc::Global;

// What an edit asks for.
fn edit_of(alloc: Global, value: &Value) -> Result<Option<Action>, Memory>
    ensures { IfOk result (λ action. action ≡ requests.edit_of (view value.now)) }
{
    let Some(from) = number_at(value, "from") else {
        return Ok(None);
    };
    let Some(to) = number_at(value, "to") else {
        return Ok(None);
    };
    match copied_text(alloc, value, "text")? {
        Some(text) => Ok(Some(Action::Edit { from, to, text })),
        None => Ok(None),
    }
}

// The request for an action on the sheet that the value names.
fn ask(alloc: Global, value: &Value, action: Option<Action>) -> Result<Option<Request>, Memory>
    ensures request { IfOk result (λ request. request ≡ of_sheet (λ d. action) (view value.now)) }
    ensures utf8 { IfOk result (λ request. IfSome request HasTextName) }
{
    let Some(action) = action else {
        return Ok(None);
    };
    match copied_text(alloc, value, "name")? {
        Some(name) => Ok(Some(Request::Ask { name, action })),
        None => Ok(None),
    }
}

// The request for an operation, from the values of its keys.
fn request_for(
    alloc: Global,
    value: &Value,
    operation: Operation,
) -> Result<Option<Request>, Memory>
    ensures request { IfOk result (λ request. request ≡ (operation_of operation).reads (view value.now)) }
    ensures utf8 { IfOk result (λ request. IfSome request HasTextName) }
{
    match operation {
        Operation::Open => {
            let text = copied_text(alloc, value, "text")?;
            ask(alloc, value, text.map(Action::Open))
        }
        Operation::Edit => {
            let action = edit_of(alloc, value)?;
            ask(alloc, value, action)
        }
        Operation::Close => ask(alloc, value, Some(Action::Close)),
        Operation::Unify => ask(alloc, value, Some(Action::Unify)),
        Operation::Suggest => {
            let step = copied_text(alloc, value, "step")?;
            ask(alloc, value, step.map(Action::Suggest))
        }
        Operation::Quit => Ok(Some(Request::Quit)),
    }
}

// The request that a value is. None exactly where it is none.
fn request_of(alloc: Global, value: &Value) -> Result<Option<Request>, Memory>
    ensures request { IfOk result (λ request. request ≡ requests.request_of (view value.now)) }
    ensures utf8 { IfOk result (λ request. IfSome request HasTextName) }
{
    let Some(name) = text_at(value, "op") else {
        return Ok(None);
    };
    let Some(operation) = operation_named(name) else {
        return Ok(None);
    };
    if !has_keys(value, operation_keys(operation)) {
        return Ok(None);
    }
    request_for(alloc, value, operation)
}

/// The request that a line is. None exactly where it is none. The name of a sheet is text.
pub fn read_request(alloc: Global, line: &[u8]) -> Result<Option<Request>, Memory>
    ensures request { IfOk result (λ request. request ≡ request_in line.now) }
    ensures utf8 { IfOk result (λ request. IfSome request HasTextName) }
{
    match Value::from_slice(alloc, line) {
        Ok(value) => request_of(alloc, &value),
        Err(e) => match e.classify() {
            Category::Memory => Err(Memory),
            _ => Ok(None),
        },
    }
}
