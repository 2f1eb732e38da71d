//! Lists of calls on a bench, as text: a line for each call, its name and its numbers, with one space
//! between two words. The line of a load is followed by its text and a line feed. Empty lines, and those
//! that begin with `#`, are passed over.
#![tactic(auto)]

pub mod call;
pub mod list;
mod names;
mod words;
