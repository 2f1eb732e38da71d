//! The limits that every line keeps, and the lengths of the memory that is lent.
ghost use Rattle.std.specs.Prelude.{◌≡◌};
ghost use Rattle.line.specs.Answers.{sheet_answer};

use crate::refusal::Refusal;

/// A line has at most this many tasks.
pub const PLACES: usize = 16;

/// A task has at most this many modes.
pub const MODES: usize = 16;

/// The longest window that `most` is asked for, and the largest cost and deadline.
pub const WINDOW: u32 = 1000;

/// The longest gap between two modes, and the longest period.
pub const GAP: u32 = 100_000;

/// The windows of a row, from 0 to `WINDOW`.
pub const WINDOWS: usize = 1001;

/// The cells of the work sheet: a row of windows for each mode.
pub const SHEET: usize = 16016;

/// The mode numbers that a walk's list has room for.
pub const LIST: usize = 1000;

// Not one function for all lent memory: it would take two lengths of one type, and here it shows which has to reach which.

/// Refuses a work sheet of too few cells.
pub fn check_sheet(cells: usize) -> Result<(), Refusal>
    ensures { result ≡ sheet_answer cells }
{
    if cells < SHEET {
        return Err(Refusal::TooShort);
    }
    Ok(())
}
