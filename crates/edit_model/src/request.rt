use mm_base::{Bytes, Name};

/// What is asked of a sheet.
#[derive(Debug, Drop)]
pub enum Action {
    /// To open it with this text.
    Open(Bytes),
    /// To put a text in place of the bytes from `from` up to `to`.
    Edit { from: u64, to: u64, text: Bytes },
    /// To close it.
    Close,
    /// To unify it.
    Unify,
    /// To find what the step of this name can rest on.
    Suggest(Name),
}

/// What a line of a session asks for.
#[derive(Debug, Drop)]
pub enum Request {
    /// To end the session.
    Quit,
    /// To do something with the sheet of this name.
    Ask { name: Name, action: Action },
}
