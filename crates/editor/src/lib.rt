//! A task table in the making.
//!
//! An `Editor` has a table and at most one draft of an angular task. Its calls are those of the bench
//! without tickets and verdicts, so that a bench and a loader share them: each refuses by rising
//! number and then changes nothing. Memory is asked for when an editor is made and when a draft is
//! opened, and by no other call.
#![tactic(auto)]

pub mod editor;
