//! The angular task: a graph of modes, and the most work in each window, an exact line of one place.
//!
//! Its most work in a window is the greatest work of a walk through the graph that fits the window.
//! The work sheet is memory that the caller lends: for each mode and window it has the greatest work
//! of a walk from that mode, and one pass over links and windows fills it. From it an angular task
//! takes its row, one number a window, and the walk that it shows.
#![tactic(auto)]

ghost use Rattle.std.specs.Prelude.{◌≡◌, ℕ, ◌<◌, ◌≤◌, true, length, replicate, is_ok, Ok, vec_len, MatchResult, slice_index};
ghost use Rattle.line.specs.declared.refusal.Refusal.TheVariants.{NoMemory};
ghost use Rattle.line.specs.Changes.{change_answer};
ghost use Rattle.modes.specs.Plans.{graph_of, changed_plan, whole_answer};
ghost use Rattle.angular.specs.Greatest.{Most};
ghost use Rattle.angular.specs.Best.{most_of};
ghost use Rattle.line.specs.Meaning.{sole};
ghost use Rattle.angular.specs.Tasks.{angular_task};
ghost use Rattle.angular.specs.Sheets.{Filled, Kept, RowTo};
ghost use Rattle.modes.specs.Graphs.{plan};
ghost use Rattle.line.proofs.Facts.{sole_lawful};
ghost use Rattle.modes.proofs.Plans.{graph_laws};
ghost use Rattle.angular.specs.Laws.{plan_laws};

use crate::sheet::fill;
use crate::show::FilledSheet;
use line::joined::may_show;
use line::limits::{WINDOW, WINDOWS};
use line::ranged::Ranged;
use line::refusal::Refusal;
use line::{ExactLine, Line};
use modes::graph::ModeGraph;
use std::alloc::Global;

mod sheet;
mod show;

/// A graph of modes, and for each window from 0 to 1,000 the greatest work of a walk that fits it.
#[derive(Drop)]
pub struct Angular {
    graph: ModeGraph,
    row: Vec<u32>,
    ghost some: { 1 ≤ length (plan graph).modes },
    ghost whole: { is_ok (whole_answer (plan graph)) ≡ true },
    ghost wide: { vec_len row ≡ 1001 },
    ghost right: { RowTo (graph_of (plan graph)) row.items 1001 },
}

/// Room for a row of windows, all 0.
pub fn new_row(heap: Global) -> Result<Vec<u32>, Refusal>
    ensures { MatchResult result (λ v. (v.items ≡ replicate 1001 0) × (vec_len v ≡ 1001)) (λ e. e ≡ NoMemory) }
{
    Ok(Vec::from_slice(heap, &[0; WINDOWS])?)
}

// The work sheet is lent, any that is long enough, and its length asked for: a struct that held it would have to say in
// each contract that it is still the caller's. A window comes as a `u32`, which `as usize` widens for a place in a list.

impl Angular {
    /// The task of a graph, over the room for its row; the row is filled from the sheet.
    pub fn new(graph: ModeGraph, mut row: Vec<u32>, sheet: &mut [u32]) -> Angular
        requires whole { whole_answer (plan graph) ≡ Ok tt }
        requires wide { vec_len row ≡ 1001 }
        requires room { 16016 ≤ length sheet.old }
        ensures same { plan result.graph ≡ plan graph }
        ensures most { (w : ℕ) → w < 1001 → Most (graph_of (plan graph)) w (slice_index result.row.items w) }
        ensures filled { Filled (graph_of (plan graph)) sheet.new }
        ensures kept { Kept (length (plan graph).modes) sheet.old sheet.new }
    {
        fill(&graph, sheet);
        FilledSheet::new(&graph, sheet).write_row(&mut row);
        Angular { graph, row }
    }

    /// The task after a change that it may undergo; the sheet is filled for it.
    pub fn changed(self, change: Ranged, sheet: &mut [u32]) -> Angular
        requires may { change_answer (graph_of (plan self.graph)) change.change ≡ Ok tt }
        requires room { 16016 ≤ length sheet.old }
        ensures same { plan result.graph ≡ changed_plan change.change (plan self.graph) }
        ensures filled { Filled (graph_of (changed_plan change.change (plan self.graph))) sheet.new }
        ensures kept { Kept (length (changed_plan change.change (plan self.graph)).modes) sheet.old sheet.new }
    {
        let Angular { graph, row } = self;
        Angular::new(graph.changed(change), row, sheet)
    }

    /// The greatest work of a walk that fits the window.
    fn most_in(&self, window: u32) -> u32
        requires { window ≤ 1000 }
        ensures { result ≡ most_of (graph_of (plan self.now.graph)) window }
    {
        self.row[window as usize]
    }

    /// The graph of modes.
    pub fn graph(&self) -> &ModeGraph
        ensures { result.now ≡ self.now.graph }
    {
        &self.graph
    }
}

impl Line for Angular {
    ghost meaning = { λ a. sole (angular_task (plan a.graph)) };

    ghost lawful = { λ _. Unit {0} };

    ghost keeps = { λ a h. sole_lawful _ (plan_laws (plan a.graph) (graph_laws a.graph a.some)) };

    fn count(&self) -> usize {
        1
    }

    fn modes(&self, place: usize) -> usize {
        if place == 0 { self.graph.len() } else { 0 }
    }

    fn cost(&self, place: usize, mode: usize) -> u32 {
        if place == 0 { self.graph.cost(mode) } else { 0 }
    }

    fn deadline(&self, place: usize, mode: usize) -> u32 {
        if place != 0 {
            return 0;
        }
        self.graph.mode(mode).map_or(0, |m| m.deadline)
    }

    fn gap(&self, place: usize, from: usize, to: usize) -> Option<u32> {
        if place == 0 {
            self.graph.gap(from, to)
        } else {
            None
        }
    }

    fn most(&self, place: usize, window: u32) -> u32 {
        if place == 0 && window <= WINDOW {
            self.most_in(window)
        } else {
            0
        }
    }
}

impl ExactLine for Angular {
    ghost leaves = { λ a _ was is. Filled (graph_of (plan a.graph)) is × Kept (length (plan a.graph).modes) was is };

    fn show(
        &self,
        place: usize,
        window: u32,
        sheet: &mut [u32],
        list: &mut [u8],
    ) -> Result<usize, Refusal> {
        may_show(1, place, window, sheet.len(), list.len())?;
        fill(&self.graph, sheet);
        Ok(FilledSheet::new(&self.graph, sheet).write_walk(window as usize, list))
    }
}
