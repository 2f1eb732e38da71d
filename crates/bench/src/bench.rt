//! The bench.
use crate::verdict::Verdict;
use editor::editor::Editor;
use response::CELLS;
use run::Play;

pub mod changes;
pub mod drafts;
pub mod edits;
pub mod judging;
pub mod reading;
pub mod running;
pub mod showing;

/// A task table with its draft, its bounds, the verdict if it has been judged since it last changed, the
/// open run, if any, and the number that its tickets bear.
#[derive(Drop)]
pub struct Bench {
    id: u32,
    editor: Editor,
    verdict: Option<Verdict>,
    // One list of cells, as the judge asks to be lent.
    bounds: [u32; CELLS],
    run: Option<Play>,
}
