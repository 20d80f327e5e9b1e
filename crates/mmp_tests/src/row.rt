use mm_base::Status;

/// No options.
pub const USUAL: &[&str] = &[];

/// A normal proof.
pub const NORMAL: &[&str] = &["--proof=normal"];

/// Only given pairs are allowed.
pub const GIVEN: &[&str] = &["--dv=given"];

/// Other names of the two typecodes.
pub const NAMED: &[&str] = &["--provable=T", "--logic=form"];

/// A worksheet over a database, and what comes of it.
#[derive(Clone, Copy)]
pub struct Row {
    /// The parts of the database.
    pub database: &'static [&'static str],
    /// What the header says of the theorem and its place.
    pub header: &'static str,
    /// The lines between header and footer.
    pub lines: &'static str,
    pub options: &'static [&'static str],
    pub status: Status,
    /// The comments and steps that are written, where they are not those that were given.
    pub written: Option<&'static str>,
    /// What is written behind them: the proof, and the pairs of distinct variables.
    pub tail: &'static str,
    /// The lines of the report, or that of the fault.
    pub log: &'static str,
}
