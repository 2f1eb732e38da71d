//! The two makes of task, each an exact line of one place, under one name.
//!
//! A `Sporadic` task has one mode with a cost, a period and a deadline. An `Angular` task has a
//! `ModeGraph` of 1 to 16 modes, and gaps after which one mode may follow another; its most work
//! in a window is the greatest work of a walk that fits the window. Each stands in a crate of its
//! own; a crate that wants all of them names this one.
#![tactic(auto)]

pub use angular;
pub use sporadic;

pub mod graph;
