//! Saving a bench's table.
ghost use Rattle.std.specs.Prelude.{◌≡◌, ◌≤◌, length};
ghost use Rattle.bench.specs.State.{state};
ghost use Rattle.table.specs.Tables.{items};
ghost use Rattle.save.specs.Texts.{text_of};
ghost use Rattle.save.specs.Saves.{room_answer, SaveDone, ReadsBack, ReadsOnly, LoadsBack, SavedOnce};

use crate::measure::{measure, trailer};
use crate::write::{write_line, write_tasks};
use bench::bench::Bench;
use line::refusal::Refusal;
use table::table::Table;
use writer::lengths::form_len;

// Apart, as each lent length is compared where it is known: this one with the length of a text that was measured.

/// Refuses an output of `room` bytes where `len` bytes are to be written.
fn check_room(len: usize, room: usize) -> Result<(), Refusal>
    ensures { result ≡ room_answer len room }
{
    if room < len {
        return Err(Refusal::TooShort);
    }
    Ok(())
}

/// Writes the text of a table into `out`, and answers its length.
fn save_table(table: &Table, out: &mut [u8]) -> Result<usize, Refusal>
    ensures { SaveDone (items table.now) out.old out.new result }
{
    let extent = measure(table);
    let end = trailer(table, extent.last);
    check_room(extent.len + form_len(end), out.len())?;
    let at = write_tasks(table, out);
    Ok(write_line(out, at, end))
}

/// Writes the text of the bench's table into `out`, and answers its length; later bytes stay. An
/// output that is too short for the whole text is refused, and nothing is written.
pub fn save(bench: &Bench, out: &mut [u8]) -> Result<usize, Refusal>
    ensures done { SaveDone (state bench.now).desk.tasks out.old out.new result }
    ensures back { ReadsBack (state bench.now).desk.tasks }
    ensures only { ReadsOnly (state bench.now).desk.tasks }
    ensures loads { LoadsBack (state bench.now).desk.tasks }
    ensures once { SavedOnce (state bench.now).desk.tasks }
    ensures short { length (text_of (state bench.now).desk.tasks) ≤ 65535 }
{
    save_table(bench.table(), out)
}
