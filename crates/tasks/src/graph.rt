//! The graph of modes of a task, and the longest gap.
pub use line::limits::GAP;
pub use modes::graph::{Mode, ModeGraph, check_link, check_mode};
