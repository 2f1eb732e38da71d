//! The work sheet: for each mode and window, the greatest work of a walk that begins there.
ghost use Rattle.std.specs.Prelude.{◌≡◌, ◌<◌, ◌≤◌, length};
ghost use Rattle.modes.specs.Graphs.{plan};
ghost use Rattle.modes.specs.Plans.{graph_of, gap_at};
ghost use Rattle.angular.specs.Greatest.{Greatest};
ghost use Rattle.angular.specs.Best.{left, offer, next};
ghost use Rattle.angular.specs.Sheets.{cell_at, ColumnTo, Filled, FilledTo, Kept};

use line::limits::WINDOWS;
use modes::graph::ModeGraph;

// A window is a plain number with its bound in each contract: it is taken off from and counted with at every step.
// The cells are one list, in which docs/MODEL.md fixes cell m × 1,001 + w; they are the caller's, any that are long enough.

/// A work sheet, with the graph whose modes its cells are of.
#[derive(Clone, Copy)]
pub(crate) struct Sheet<'a> {
    /// The graph of modes.
    pub(crate) graph: &'a ModeGraph,
    /// The cells: a row of windows for each mode.
    pub(crate) cells: &'a [u32],
    ghost room: { 16016 ≤ length cells.now },
}

impl<'a> Sheet<'a> {
    /// The cell of a mode and a window.
    pub(crate) fn cell(&self, m: usize, w: usize) -> u32
        requires mode { m < 16 }
        requires window { w ≤ 1000 }
        ensures { result ≡ cell_at self.now.cells.now m w }
    {
        self.cells[m * WINDOWS + w]
    }

    /// What is left of `w` after `m` if `b` is next: nothing if `b` may not follow, or not in time.
    pub(crate) fn left(&self, m: usize, w: usize, b: usize) -> Option<usize>
        ensures { result ≡ left (gap_at (plan self.now.graph.now) m b) w }
    {
        // A cast, since a `usize` is not made from a `u32` by `from`.
        let gap = self.graph.gap(m, b)? as usize;
        w.checked_sub(gap).filter(|left| *left > 0)
    }

    /// The work after `m` with `w` left if `b` is next.
    pub(crate) fn offered(&self, m: usize, w: usize, b: usize) -> u32
        requires { w ≤ 1000 }
        ensures { result ≡ offer (gap_at (plan self.now.graph.now) m b) w (cell_at self.now.cells.now b) }
    {
        // Tried with `map_or`: that its closure answers the cell of what is left was not proved.
        let Some(left) = self.left(m, w, b) else {
            return 0;
        };
        self.cell(b, left)
    }

    /// The greatest work after `m` with `w` left.
    fn follow(&self, m: usize, w: usize) -> u32
        requires from { m < length (plan self.now.graph.now).modes }
        requires window { w ≤ 1000 }
        ensures { result ≡ next (graph_of (plan self.now.graph.now)) (cell_at self.now.cells.now) m w }
    {
        // A fold from 0, which is what no mode offers, and not `max`: that takes the first offer before the loop, and the loop
        // then costs a third more where a walk is shown.
        (0..self.graph.len())
            .map(|b| self.offered(m, w, b))
            .fold(0, |most: u32, work| most.max(work))
    }

    /// The greatest work of a walk that begins in `m` and fits `w`, from the columns before.
    fn greatest(&self, m: usize, w: usize) -> u32
        requires from { m < length (plan self.now.graph.now).modes }
        requires window { w ≤ 1000 }
        requires before { FilledTo (graph_of (plan self.now.graph.now)) self.now.cells.now w }
        ensures { Greatest (graph_of (plan self.now.graph.now)) m w result }
    {
        if w == 0 {
            0
        } else {
            self.graph.cost(m) + self.follow(m, w)
        }
    }
}

/// Fills the cells of one window.
fn column(graph: &ModeGraph, cells: &mut [u32], w: usize)
    requires window { w ≤ 1000 }
    requires room { 16016 ≤ length cells.old }
    requires before { FilledTo (graph_of (plan graph.now)) cells.old w }
    ensures before { FilledTo (graph_of (plan graph.now)) cells.new w }
    ensures here { ColumnTo (graph_of (plan graph.now)) cells.new w (length (plan graph.now).modes) }
    ensures kept { Kept (length (plan graph.now).modes) cells.old cells.new }
{
    // By number, and not along the cells a row apart: each is worked out from the whole sheet before it is written.
    for m in 0..graph.len() {
        let sheet = Sheet { graph, cells };
        let work = sheet.greatest(m, w);
        cells[m * WINDOWS + w] = work;
    }
}

/// Fills the cells of the graph's modes, and leaves all others as they were.
pub(crate) fn fill(graph: &ModeGraph, cells: &mut [u32])
    requires { 16016 ≤ length cells.old }
    ensures filled { Filled (graph_of (plan graph.now)) cells.new }
    ensures kept { Kept (length (plan graph.now).modes) cells.old cells.new }
{
    for w in 0..WINDOWS {
        column(graph, cells, w);
    }
}
