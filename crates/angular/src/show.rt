//! What is read off a filled sheet: the most work in each window, and a walk that has it.
ghost use Rattle.std.specs.Prelude.{◌≡◌, ℕ, ◌<◌, ◌≤◌, length, MatchOption};
ghost use Rattle.line.specs.Shows.{Shown};
ghost use Rattle.modes.specs.Graphs.{plan};
ghost use Rattle.modes.specs.Plans.{graph_of, gap_at};
ghost use Rattle.angular.specs.Best.{offer, next};
ghost use Rattle.angular.specs.Tasks.{angular_task};
ghost use Rattle.angular.specs.Sheets.{cell_at, Exact, Filled, RowTo, Onward};

use crate::sheet::Sheet;
use modes::graph::ModeGraph;

/// A work sheet that is filled for its graph, which has a mode.
#[derive(Clone, Copy)]
pub(crate) struct FilledSheet<'a> {
    sheet: Sheet<'a>,
    ghost some: { 1 ≤ length (plan sheet.graph.now).modes },
    ghost exact: { Exact (graph_of (plan sheet.graph.now)) sheet.cells.now },
}

impl<'a> FilledSheet<'a> {
    /// A graph and the cells that are filled for it.
    pub(crate) fn new(graph: &'a ModeGraph, cells: &'a [u32]) -> FilledSheet<'a>
        requires some { 1 ≤ length (plan graph.now).modes }
        requires room { 16016 ≤ length cells.now }
        requires filled { Filled (graph_of (plan graph.now)) cells.now }
        ensures graph { result.sheet.graph.now ≡ graph.now }
        ensures cells { result.sheet.cells.now ≡ cells.now }
    {
        FilledSheet {
            sheet: Sheet { graph, cells },
        }
    }

    /// The first mode whose cell of a window is the greatest.
    // Of equal keys the last one is taken, so the modes are gone through from the last one down. There is always one: the
    // graph has a mode.
    fn start(&self, w: usize) -> usize
        requires { w ≤ 1000 }
        ensures mode { result < length (plan self.now.sheet.graph.now).modes }
        ensures top { (m : ℕ) → m < length (plan self.now.sheet.graph.now).modes → cell_at self.now.sheet.cells.now m w ≤ cell_at self.now.sheet.cells.now result w }
    {
        (0..self.sheet.graph.len())
            .rev()
            .max_by_key(|m| self.sheet.cell(*m, w))
            .unwrap_or(0)
    }

    /// Writes the most work in each window.
    pub(crate) fn write_row(&self, row: &mut [u32])
        requires { length row.old ≡ 1001 }
        ensures { RowTo (graph_of (plan self.now.sheet.graph.now)) row.new 1001 }
    {
        for (w, most) in row.iter_mut().enumerate() {
            *most = self.sheet.cell(self.start(w), w);
        }
    }

    /// The first mode that offers the most after `m` with `w` left.
    // Found as in `start`, in a graph that has a mode; one function of a key would have to say for each key where it may be
    // asked.
    fn pick(&self, m: usize, w: usize) -> usize
        requires { w ≤ 1000 }
        ensures mode { result < length (plan self.now.sheet.graph.now).modes }
        ensures top { (b : ℕ) → b < length (plan self.now.sheet.graph.now).modes → offer (gap_at (plan self.now.sheet.graph.now) m b) w (cell_at self.now.sheet.cells.now b) ≤ offer (gap_at (plan self.now.sheet.graph.now) m result) w (cell_at self.now.sheet.cells.now result) }
    {
        (0..self.sheet.graph.len())
            .rev()
            .max_by_key(|b| self.sheet.offered(m, w, *b))
            .unwrap_or(0)
    }

    /// The mode to go on to from `m` with `w` left, and what is left there, if more can be had.
    fn onward(&self, m: usize, w: usize) -> Option<(usize, usize)>
        requires from { m < length (plan self.now.sheet.graph.now).modes }
        requires window { w ≤ 1000 }
        ensures { MatchOption result (next (graph_of (plan self.now.sheet.graph.now)) (cell_at self.now.sheet.cells.now) m w ≡ 0) (λ p. Onward (graph_of (plan self.now.sheet.graph.now)) (cell_at self.now.sheet.cells.now) m w (next (graph_of (plan self.now.sheet.graph.now)) (cell_at self.now.sheet.cells.now) m w) p.0 p.1) }
    {
        let b = self.pick(m, w);
        let left = self.sheet.left(m, w, b)?;
        if self.sheet.cell(b, left) == 0 {
            return None;
        }
        Some((b, left))
    }

    /// Writes a walk of the most work that fits the window, and answers its length.
    pub(crate) fn write_walk(&self, window: usize, list: &mut [u8]) -> usize
        requires window { window ≤ 1000 }
        requires cells { 1000 ≤ length list.old }
        ensures { Shown (angular_task (plan self.now.sheet.graph.now)) window result list.old list.new }
    {
        // Tried with `then`: that its closure answers the first mode was not proved.
        let mut at = if window > 0 {
            Some((self.start(window), window))
        } else {
            None
        };
        for (n, cell) in list.iter_mut().enumerate() {
            let Some((m, w)) = at else {
                return n;
            };
            // A cast: a mode is below 16, and `try_from` would need an answer for what never comes.
            *cell = m as u8;
            at = self.onward(m, w);
        }
        list.len()
    }
}
