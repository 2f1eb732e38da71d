//! Writing the lines of a table's text into the caller's bytes.
//!
//! A line is its keyword, a space and decimal digits for each of its numbers, and the line feed:
//! the spelling that crate `text` reads.
#![tactic(auto)]

pub mod lengths;
pub mod writes;
