//! How long a text may be.

/// The most bytes that a CSV text may have.
pub const CSV_LIMIT: u64 = 134_217_728;
