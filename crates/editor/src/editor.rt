//! The editor, and what always holds of it.
ghost use Rattle.std.specs.Prelude.{◌≡◌, true};
ghost use Rattle.table.specs.Tables.{items};
ghost use Rattle.editor.specs.Drafts.{held};

use modes::graph::ModeGraph;
use std::alloc::Global;
use table::table::Table;

pub mod changes;
pub mod drafts;
pub mod tables;

/// The angular task that a draft is filling: its graph, and the room for its row.
#[derive(Drop)]
pub struct Sketch {
    number: u32,
    place: usize,
    graph: ModeGraph,
    row: Vec<u32>,
}

/// A task table and the draft that is open, if any.
#[derive(Drop)]
pub struct Editor {
    heap: Global,
    table: Table,
    draft: Option<Sketch>,
    ghost drafted: { held draft (items table) ≡ true },
}
