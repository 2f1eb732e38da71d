//! How many bytes a table's text takes.
ghost use Rattle.std.specs.Prelude.{◌≡◌, ◌<◌, ◌≤◌, length, slice_index_or};
ghost use Rattle.table.specs.Items.{blank};
ghost use Rattle.table.specs.Tables.{items};
ghost use Rattle.save.specs.Texts.{item_forms, forms_of, spelled, last_place, trailer_of};

use crate::lines::{SLOTS, line_at};
use forms::form::Form;
use table::table::Table;
use writer::lengths::form_len;

/// What the lines of a table's tasks take: how many bytes, and where the last task's first line
/// begins among them.
#[derive(Clone, Copy)]
pub(crate) struct Extent {
    pub len: usize,
    pub last: usize,
}

/// How many bytes the lines of the task at a place take.
fn task_len(table: &Table, place: usize) -> usize
    requires { place < length (items table.now) }
    ensures is { result ≡ length (spelled (item_forms (slice_index_or (items table.now) place blank))) }
    ensures short { result ≤ 14469 }
{
    // Of the lines that `write_task` writes: this counts where that writes, and both ask `line_at`.
    (0..SLOTS)
        .filter_map(|slot| line_at(table, place, slot))
        .map(|form| form_len(form))
        .sum()
}

/// What the lines of the tasks take.
pub(crate) fn measure(table: &Table) -> Extent
    ensures len { result.len ≡ length (spelled (forms_of (items table.now))) }
    ensures last { result.last ≡ last_place (items table.now) }
{
    // A loop and no `fold`: its sum stays within a bound that rises from task to task, so a turn would be a function with a
    // contract of its own.
    let mut len = 0;
    let mut last = 0;
    for place in 0..table.len() {
        last = len;
        len += task_len(table, place);
    }
    Extent { len, last }
}

// Casts: a count is at most 16 and a place below 65,536, and `try_from` would need an answer for what never comes.

/// The trailer of a table whose last task's first line begins at a place.
pub(crate) fn trailer(table: &Table, last: usize) -> Form
    requires { last ≡ last_place (items table.now) }
    ensures { result ≡ trailer_of (items table.now) }
{
    Form::End {
        count: table.len() as u32,
        place: last as u32,
    }
}
