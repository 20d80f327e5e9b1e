/// The status that the program ends with, as its number, from 0.
#[derive(Clone, Copy, Debug, PartialEq, Eq)]
pub enum Status {
    /// The worksheet is finished, and was written with its proof, or was tried and not written; or a proof was accepted.
    Finished,
    /// The worksheet is not finished. It was written, or was tried and not written.
    Unfinished,
    /// The database has a fault.
    Database,
    /// The worksheet has a fault.
    Sheet,
    /// The words of the command line fit no command.
    Words,
    /// A file could not be read.
    Read,
    /// A text could not be written whole.
    Write,
    /// Memory ran out.
    Memory,
    /// A proof was refused.
    Proof,
}
