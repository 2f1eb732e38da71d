//! The lines of a task, slot by slot.
ghost use Rattle.std.specs.Prelude.{◌≡◌, ◌<◌, slice_index_or};
ghost use Rattle.line.specs.Meaning.{task_at};
ghost use Rattle.table.specs.Items.{blank, is_angular, number_at, line_of};
ghost use Rattle.table.specs.Tables.{items};
ghost use Rattle.save.specs.Slots.{first_in, mode_in, link_in, slot_of};

use forms::form::Form;
use line::Line;
use line::limits::MODES;
use table::table::Table;

// Slots, and not an iterator of lines: one loop goes over all lines of a task in the order of the text, and a link's
// slot has the number that its gap has in a plan.

/// A task has a slot for its first line, one for each of 16 modes, and one for each pair of modes.
pub(crate) const SLOTS: usize = 273;

// A table and a place in it, and no struct of the two: the table is asked without a place too, by `measure` and for the
// trailer.

/// The first line of the task at a place.
fn first_line(table: &Table, place: usize) -> Form
    ensures { result ≡ first_in (number_at (items table.now) place) (is_angular (slice_index_or (items table.now) place blank).make) (task_at (line_of (items table.now)) place) }
{
    let number = table.number_at(place);
    if table.is_angular_at(place) {
        return Form::Angular { number };
    }
    // There is always a gap: the mode of a sporadic task follows itself after its period.
    Form::Sporadic {
        number,
        cost: table.cost(place, 0),
        period: table.gap(place, 0, 0).unwrap_or(0),
        deadline: table.deadline(place, 0),
    }
}

/// The line of a mode of the task at a place, if there is that mode.
fn mode_line(table: &Table, place: usize, mode: usize) -> Option<Form>
    ensures { result ≡ mode_in (task_at (line_of (items table.now)) place) mode }
{
    (mode < table.modes(place)).then(|| Form::Mode {
        cost: table.cost(place, mode),
        deadline: table.deadline(place, mode),
    })
}

// Casts: modes are below 16, and `try_from` would need an answer for what never comes.

/// The line of a pair of modes of the task at a place, if they are linked.
fn link_line(table: &Table, place: usize, pair: usize) -> Option<Form>
    requires { pair < 256 }
    ensures { result ≡ link_in (task_at (line_of (items table.now)) place) pair }
{
    let (from, to) = (pair / MODES, pair % MODES);
    table.gap(place, from, to).map(|gap| Form::Link {
        from: from as u32,
        to: to as u32,
        gap,
    })
}

/// The line in a slot of the task at a place, if there is one.
pub(crate) fn line_at(table: &Table, place: usize, slot: usize) -> Option<Form>
    requires { slot < 273 }
    ensures { result ≡ slot_of (items table.now) place slot }
{
    if slot == 0 {
        return Some(first_line(table, place));
    }
    if !table.is_angular_at(place) {
        return None;
    }
    if slot > MODES {
        link_line(table, place, slot - 1 - MODES)
    } else {
        mode_line(table, place, slot - 1)
    }
}
