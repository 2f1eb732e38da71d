//! The table that a text builds, line by line, with the same checks as the bench's calls.
#![tactic(auto)]

ghost use Rattle.std.specs.Prelude.{◌≡◌, true};
ghost use Rattle.editor.specs.Desks.{desk};
ghost use Rattle.loader.specs.Ends.{appends};

use editor::editor::Editor;

pub mod steps;

// The work sheet is lent to each call, any that is long enough, and its length asked for there: a loader that held it
// would have to say in each contract that it is still the caller's.

/// The tasks read so far, and the byte place where the last task's first line begins.
#[derive(Drop)]
pub struct Loader {
    editor: Editor,
    last: usize,
    ghost ordered: { appends (desk editor) ≡ true },
}
