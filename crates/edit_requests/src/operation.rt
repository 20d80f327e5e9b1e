//! The operations that a request may ask for.

ghost use Rattle.std.specs.Prelude.{◌≡◌, map, option_map};
ghost use Rattle.edit_model.specs.Requests as requests;
ghost use Rattle.edit_requests.specs.Operations.{operation_of};

/// What a request asks for.
#[derive(Clone, Copy)]
pub enum Operation {
    Open,
    Edit,
    Close,
    Unify,
    Suggest,
    Quit,
}

/// The operation of a name.
pub fn operation_named(name: &str) -> Option<Operation>
    ensures { option_map operation_of result ≡ requests.operation_named name.now }
{
    if name == "open" {
        Some(Operation::Open)
    } else if name == "edit" {
        Some(Operation::Edit)
    } else if name == "close" {
        Some(Operation::Close)
    } else if name == "unify" {
        Some(Operation::Unify)
    } else if name == "suggest" {
        Some(Operation::Suggest)
    } else if name == "quit" {
        Some(Operation::Quit)
    } else {
        None
    }
}

static OPEN: [&str; 3] = ["name", "op", "text"];

static EDIT: [&str; 5] = ["from", "name", "op", "text", "to"];

static PLAIN: [&str; 2] = ["name", "op"];

static SUGGEST: [&str; 3] = ["name", "op", "step"];

static QUIT: [&str; 1] = ["op"];

/// The keys of its requests, in order.
pub fn operation_keys(operation: Operation) -> &'static [&'static str]
    ensures { map (λ key. key.now) result.now ≡ (operation_of operation).keys }
{
    match operation {
        Operation::Open => &OPEN,
        Operation::Edit => &EDIT,
        Operation::Close | Operation::Unify => &PLAIN,
        Operation::Suggest => &SUGGEST,
        Operation::Quit => &QUIT,
    }
}
