//! Writing the lines of a table's tasks.
ghost use Rattle.std.specs.Prelude.{◌+◌, ◌<◌, ◌≤◌, length, slice_index_or};
ghost use Rattle.forms.specs.Format.{spell};
ghost use Rattle.table.specs.Items.{blank};
ghost use Rattle.table.specs.Tables.{items};
ghost use Rattle.writer.specs.Output.{Wrote};
ghost use Rattle.save.specs.Texts.{item_forms, forms_of, spelled};

use crate::lines::{SLOTS, line_at};
use forms::form::Form;
use table::table::Table;
use writer::writes::write_form;

// The output is lent, and the place goes beside it, as in `writer`. By slot and by place in loops: tried as a `fold`,
// whose closure writes into the output, what the output holds after it was not proved.

/// Writes a line, for which there is room, from `at` on, and answers the place after it.
pub(crate) fn write_line(out: &mut [u8], at: usize, form: Form) -> usize
    requires { at + length (spell form) ≤ length out.old }
    ensures { Wrote out.old at (spell form) out.new result }
{
    match write_form(out, at, form) {
        Some(end) => end,
        None => unreachable!(),
    }
}

/// Writes the lines of the task at a place from `at` on, and answers the place after them.
fn write_task(table: &Table, place: usize, out: &mut [u8], at: usize) -> usize
    requires there { place < length (items table.now) }
    requires room { at + length (spelled (item_forms (slice_index_or (items table.now) place blank))) ≤ length out.old }
    ensures { Wrote out.old at (spelled (item_forms (slice_index_or (items table.now) place blank))) out.new result }
{
    let mut end = at;
    for slot in 0..SLOTS {
        if let Some(form) = line_at(table, place, slot) {
            end = write_line(out, end, form);
        }
    }
    end
}

/// Writes the lines of the tasks from the front on, and answers the place after them.
pub(crate) fn write_tasks(table: &Table, out: &mut [u8]) -> usize
    requires { length (spelled (forms_of (items table.now))) ≤ length out.old }
    ensures { Wrote out.old 0 (spelled (forms_of (items table.now))) out.new result }
{
    let mut end = 0;
    for place in 0..table.len() {
        end = write_task(table, place, out, end);
    }
    end
}
