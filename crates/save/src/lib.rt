//! Saving a bench's table as text: what `store::load::load` reads.
//!
//! The tasks come in the order of their places. A sporadic task is one line; an angular one is its
//! first line, its modes in order, and its links by from and by to. The trailer counts the tasks
//! and has the byte place where the last one's first line begins.
#![tactic(auto)]

mod lines;
mod measure;
pub mod save;
mod write;
