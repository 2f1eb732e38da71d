//! Worked examples of the response-time test, and a line of somebody's own.
//!
//! `examples` states what the definitions that the contracts name give on tables small enough to be
//! worked by hand. `guarded` is a make of task beside the sporadic and the angular one, with a
//! `most` of its own: the laws of a line are all that the judge asks of it. `beside` judges such a
//! task on top of a table.
#![tactic(auto)]

pub mod beside;
pub mod examples;
pub mod guarded;
