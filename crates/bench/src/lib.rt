//! The bench: a task table that is built, edited and judged call by call.
//!
//! A `Bench` keeps a table, at most one draft of an angular task, the verdict and the bounds, and at
//! most one run over the table. Every call refuses by rising number and then changes nothing; an
//! accepted edit puts the verdict back to none and all bounds to 0. A `Draft` and a `Run` are the
//! tickets of the open draft and the open run: they are spent by `close` or `abandon`, and by `stop`,
//! exactly once, and the build refuses one that is left lying.
#![tactic(auto)]

pub mod bench;
pub mod ticket;
pub mod verdict;
