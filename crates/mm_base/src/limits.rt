//! The sizes past which an input or an output is refused, and up to which a step's places are tried in all orders.

/// The bytes of a database.
pub const MOST_DATABASE_BYTES: u64 = 1 << 28;

/// The bytes of a worksheet, as it is read and as it is written.
pub const MOST_SHEET_BYTES: u64 = 1 << 24;

/// The tokens of a formula, its typecode among them.
pub const MOST_FORMULA_TOKENS: u64 = 4_096;

/// The work size of a worksheet: the nodes of the trees that unifying it needs.
pub const MOST_WORK_SIZE: u64 = 1 << 24;

/// The labels of a normal proof.
pub const MOST_PROOF_LABELS: u64 = 1 << 20;

/// The number of a work variable.
pub const MOST_WORK_VARIABLE: u32 = u32::MAX;

/// The places of a step that are tried in all orders.
pub const MOST_ORDERED_PLACES: usize = 6;

/// The blocks of a trial.
pub const MOST_TRIAL_BLOCKS: u32 = 1_000;
