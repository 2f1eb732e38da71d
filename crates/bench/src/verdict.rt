//! What the bench says of its table.

/// The verdict on a table: the first task that may be late is named by its number.
pub type Verdict = response::Verdict<u32>;
