//! The table, and what always holds of it.
ghost use Rattle.std.specs.Prelude.{◌≡◌, ◌≤◌, true, map, vec_len, vec_capacity};
ghost use Rattle.table.specs.Items.{apart, angulars};
ghost use Rattle.table.specs.Tasks.{item_of};

use crate::make::Task;

pub mod calls;
pub mod changes;
pub mod questions;

/// Up to 16 tasks, the highest priority first, at most 8 of them angular; no two have one number.
#[derive(Drop)]
pub struct Table {
    tasks: Vec<Task>,
    ghost few: { vec_len tasks ≤ 16 },
    ghost room: { 16 ≤ vec_capacity tasks },
    ghost distinct: { apart (map item_of tasks.items) ≡ true },
    ghost crank: { angulars (map item_of tasks.items) ≤ 8 },
}
