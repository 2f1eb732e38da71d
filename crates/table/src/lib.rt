//! The task table: tasks of both makes by priority, mixed in any order.
//!
//! A `Table` has up to 16 tasks, each with a number of its own choosing, at places from 0. It is an
//! exact line: every value of the type keeps the limits and laws. Its room is reserved when it is
//! made, so nothing later asks for memory.
#![tactic(auto)]

pub mod make;
pub mod make_line;
pub mod table;
