//! The cells that show the bounds.
ghost use Rattle.std.specs.Prelude.{◌≡◌, ◌+◌, ◌*◌, ◌<◌, ◌≤◌, length, slice_set};
ghost use Rattle.response.specs.Rows.{cleared_to};

use crate::CELLS;
use line::limits::MODES;

// The cells are one list, in which docs/MODEL.md fixes cell place × 16 + mode. They are the caller's, any that are long
// enough, and their length is asked for: a struct that held them would have to say that they are still the caller's.

/// Sets the cells that show bounds to 0.
pub fn clear(cells: &mut [u32])
    requires { 256 ≤ length cells.old }
    ensures { cells.new ≡ cleared_to 256 cells.old }
{
    cells[..CELLS].fill(0);
}

/// Shows a mode's bound in its cell.
pub fn show(cells: &mut [u32], place: usize, mode: usize, window: u32)
    requires { place * 16 + mode < length cells.old }
    ensures { cells.new ≡ slice_set cells.old (place * 16 + mode) window }
{
    cells[place * MODES + mode] = window;
}
