//! The places of a line, judged one after another against the row of sums.
ghost use Rattle.std.specs.Prelude.{◌≡◌, ℕ, ◌+◌, ◌*◌, ◌<◌, ◌≤◌, length, slice_index};
ghost use Rattle.response.specs.Verdicts.{over_in, verdict_of};
ghost use Rattle.response.specs.Rows.{Shows, reached, reached_cell};

use crate::Verdict;
use crate::cells::show;
use crate::rows::Row;
use line::Line;

// The cells are lent, as in `cells`. The laws of the line are asked for where a line comes in, and a row has them.

/// Finds the bounds of a place's modes, and shows them, up to the first mode that has none, which
/// is the answer.
fn judge_place<L: Line>(row: &Row<L>, cells: &mut [u32]) -> Option<usize>
    requires inside { row.now.place < 16 }
    requires room { 256 ≤ length cells.old }
    ensures over { result ≡ over_in (L.meaning row.now.line.now) row.now.place }
    ensures shows { Shows (L.meaning row.now.line.now) (row.now.place * 16) (row.now.place * 16 + reached (L.meaning row.now.line.now) row.now.place) cells.old cells.new }
{
    let modes = row.line.modes(row.place);
    // A loop and no `find`: it also shows each bound.
    for mode in 0..modes {
        match row.bound(mode) {
            Some(window) => show(cells, row.place, mode, window),
            None => return Some(mode),
        }
    }
    None
}

/// The verdict on a line; the modes before it show their bounds, in cells that were 0.
pub fn judge_places<L: Line>(line: &L, cells: &mut [u32]) -> Verdict<usize>
    requires lawful { L.lawful line.now }
    requires room { 256 ≤ length cells.old }
    requires zeros { (n : ℕ) → n < 256 → slice_index cells.old n ≡ 0 }
    ensures verdict { result ≡ verdict_of (L.meaning line.now) }
    ensures shows { Shows (L.meaning line.now) 0 (reached_cell (L.meaning line.now)) cells.old cells.new }
{
    let mut row = Row::first(line);
    let count = line.count();
    for place in 0..count {
        row = row.reach(place);
        if let Some(mode) = judge_place(&row, cells) {
            return Verdict::Over { task: place, mode };
        }
    }
    Verdict::Fits
}
