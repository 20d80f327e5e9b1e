use mm_base::{Bytes, Status};

/// What a call has to give.
#[derive(Drop)]
pub struct Ending {
    /// The text for the output.
    pub out: Bytes,
    /// The text for the log.
    pub log: Bytes,
    /// The status that it ends with.
    pub status: Status,
}
