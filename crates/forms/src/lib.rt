//! The forms of a line of a table's text: its first word, its numbers and its one spelling.
//!
//! A word is the part of the text between two separators: one space, or the line feed that ends
//! each line. A number has 1 to 6 decimal digits and no needless zero in front. A line of text has
//! one of five forms, told by its first word:
//!
//! - `sporadic N C T D`: a sporadic task with its number, cost, period and deadline;
//! - `angular N`: an angular task with its number;
//! - `mode C D`: a mode with its cost and deadline;
//! - `link A B P`: a link from a mode to a mode with its gap;
//! - `end K Z`: the trailer with the number of tasks and the place of the last task's first line.
#![tactic(auto)]

pub mod form;
pub mod keyword;
pub mod number;
pub mod separator;
