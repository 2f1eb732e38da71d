//! What may be asked of a graph of modes, and how it is filled.
ghost use Rattle.std.specs.Prelude.{◌≡◌, ◌<◌, ◌≤◌, true, length, replicate, take, is_some, is_ok, is_err, None, Ok, Decides, MatchResult};
ghost use Rattle.std.specs.List.{list_any};
ghost use Rattle.line.specs.declared.refusal.Refusal.TheVariants.{NoMemory};
ghost use Rattle.line.specs.Changes.{change_answer};
ghost use Rattle.modes.specs.Plans.{graph_of, empty_plan, mode_at, gap_at, add_answer, after_add, link_answer, after_link, with_cost, with_link, changed_plan, right_gap, all_lead_out, whole_answer, Whole};
ghost use Rattle.modes.specs.Graphs.{plan};

use super::{Mode, ModeGraph, check_link, check_mode};
use line::change::Change;
use line::limits::MODES;
use line::ranged::Ranged;
use line::refusal::Refusal;
use std::alloc::Global;

/// A table of gaps that links no modes: a row for each mode.
fn no_gaps(heap: Global) -> Result<Vec<[Option<u32>; MODES]>, Refusal>
    ensures { MatchResult result (λ v. v.items ≡ replicate 16 (replicate 16 None)) (λ e. e ≡ NoMemory) }
{
    Ok(Vec::from_slice(heap, &[[None; MODES]; MODES])?)
}

/// Whether a row has a gap.
fn has_gap(row: &[Option<u32>; MODES]) -> bool
    ensures { result ≡ list_any is_some row.now }
{
    row.iter().any(|gap| gap.is_some())
}

impl ModeGraph {
    /// A graph with no mode. Nothing else here asks for memory.
    pub fn new(heap: Global) -> Result<ModeGraph, Refusal>
        ensures { MatchResult result (λ g. plan g ≡ empty_plan) (λ e. e ≡ NoMemory) }
    {
        let modes = Vec::with_capacity(heap, MODES)?;
        let gaps = no_gaps(heap)?;
        Ok(ModeGraph { modes, gaps })
    }

    /// How many modes there are.
    pub fn len(&self) -> usize
        ensures { result ≡ length (plan self.now).modes }
    {
        self.modes.len()
    }

    /// The mode of a number, if there is one.
    pub fn mode(&self, m: usize) -> Option<Mode>
        ensures { result ≡ mode_at (plan self.now) m }
    {
        self.modes.get(m).copied()
    }

    /// The gap between two modes, if both are there and they are linked.
    pub fn gap(&self, from: usize, to: usize) -> Option<u32>
        ensures { result ≡ gap_at (plan self.now) from to }
    {
        if from < self.modes.len() && to < self.modes.len() {
            self.gaps[from][to]
        } else {
            None
        }
    }

    /// The cost of a mode, and 0 where there is none.
    pub fn cost(&self, m: usize) -> u32
        ensures { result ≡ (graph_of (plan self.now)).cost m }
    {
        // 0 and not an Option, as a line answers past the modes of a task.
        self.mode(m).map_or(0, |mode| mode.cost)
    }

    /// Adds a mode after the last one.
    pub fn add(&mut self, cost: u32, deadline: u32) -> Result<(), Refusal>
        ensures answer { result ≡ add_answer (plan self.old) cost deadline }
        ensures after { plan self.new ≡ after_add (plan self.old) cost deadline }
        ensures same { is_err result ≡ true → self.new ≡ self.old }
    {
        self.may_add(cost, deadline)?;
        self.modes.push_reserved(Mode::new(cost, deadline));
        Ok(())
    }

    fn may_add(&self, cost: u32, deadline: u32) -> Result<(), Refusal>
        ensures { result ≡ add_answer (plan self.now) cost deadline }
    {
        check_mode(cost, deadline)?;
        if self.modes.len() >= MODES {
            return Err(Refusal::NoRoom);
        }
        Ok(())
    }

    /// Links two modes by a gap.
    pub fn link(&mut self, from: usize, to: usize, gap: u32) -> Result<(), Refusal>
        ensures answer { result ≡ link_answer (plan self.old) from to gap }
        ensures after { plan self.new ≡ after_link (plan self.old) from to gap }
        ensures same { is_err result ≡ true → self.new ≡ self.old }
    {
        self.may_link(from, to, gap)?;
        self.set_gap(from, to, Some(gap));
        Ok(())
    }

    /// Writes the gap between two modes, or that there is none.
    fn set_gap(&mut self, from: usize, to: usize, gap: Option<u32>)
        requires near { from < 16 }
        requires last { to < 16 }
        requires right { right_gap (plan self.old).modes from to gap ≡ true }
        ensures { plan self.new ≡ with_link (plan self.old) from to gap }
    {
        self.gaps[from][to] = gap;
    }

    /// Writes the cost of a mode.
    fn set_cost(&mut self, mode: usize, cost: u32)
        requires there { mode < length (plan self.old).modes }
        requires some { 1 ≤ cost }
        requires less { cost ≤ (graph_of (plan self.old)).cost mode }
        ensures { plan self.new ≡ with_cost (plan self.old) mode cost }
    {
        self.modes[mode].cost = cost;
    }

    /// Makes a change that the graph may undergo.
    fn change(&mut self, change: Ranged)
        requires { change_answer (graph_of (plan self.old)) change.change ≡ Ok tt }
        ensures { plan self.new ≡ changed_plan change.change (plan self.old) }
    {
        match change.change() {
            Change::Lower { mode, cost } => self.set_cost(mode, cost),
            Change::Widen { from, to, gap } => self.set_gap(from, to, Some(gap)),
            Change::Cut { from, to } => self.set_gap(from, to, None),
        }
    }

    /// The graph after a change that it may undergo; one that was whole is whole.
    pub fn changed(mut self, change: Ranged) -> ModeGraph
        requires { change_answer (graph_of (plan self)) change.change ≡ Ok tt }
        ensures plan { plan result ≡ changed_plan change.change (plan self) }
        ensures whole { is_ok (whole_answer (plan self)) ≡ true → whole_answer (plan result) ≡ Ok tt }
    {
        self.change(change);
        self
    }

    fn may_link(&self, from: usize, to: usize, gap: u32) -> Result<(), Refusal>
        ensures { result ≡ link_answer (plan self.now) from to gap }
    {
        check_link(from, to, gap)?;
        if from >= self.modes.len() || to >= self.modes.len() {
            return Err(Refusal::NotThere);
        }
        if self.gap(from, to).is_some() {
            return Err(Refusal::Linked);
        }
        if gap < self.modes[from].deadline {
            return Err(Refusal::GapBelowDeadline);
        }
        Ok(())
    }

    /// The rows of the gaps out of each mode.
    fn rows(&self) -> &[[Option<u32>; MODES]]
        ensures { result.now ≡ take (length (plan self.now).modes) self.now.gaps.items }
    {
        &self.gaps[..self.modes.len()]
    }

    /// Whether each mode has a link out.
    fn all_lead_out(&self) -> bool
        ensures { result ≡ all_lead_out (graph_of (plan self.now)) (length (plan self.now).modes) }
    {
        self.rows().iter().all(|row| has_gap(row))
    }

    /// Whether there is a mode and each has a link out.
    pub fn check_whole(&self) -> Result<(), Refusal>
        ensures answer { result ≡ whole_answer (plan self.now) }
        ensures whole { Decides (is_ok result) (Whole (graph_of (plan self.now))) }
    {
        if self.modes.is_empty() || !self.all_lead_out() {
            return Err(Refusal::NoLinkOut);
        }
        Ok(())
    }
}
