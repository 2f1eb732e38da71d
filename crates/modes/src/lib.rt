//! The graph of modes of a task: up to 16 modes, each with a cost and a deadline, and for each two of
//! them, in order, the least gap after which the second may follow the first, if it may.
//!
//! The graph is filled call by call, and each call refuses what the graph may not hold.
#![tactic(auto)]

pub mod graph;
