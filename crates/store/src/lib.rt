//! Loading a table from its text.
//!
//! `load` reads the caller's bytes line by line and builds the table aside, with the same checks as
//! the bench's calls; only when the whole text is right do bench and work sheet change. A refusal
//! carries its number, the line, that line's byte place and the layer that refused.
#![tactic(auto)]

/// Why a text is refused: the crate `faults`.
pub use faults as fault;

pub mod load;
