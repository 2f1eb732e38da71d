//! Reading the lines of a table's text in the caller's bytes; no word is copied.
//!
//! A last line without its line feed has no form. Bytes may have any value.
#![tactic(auto)]

pub mod reader;

/// The forms of a line: a module of the crate `forms`.
pub use forms::form;
