//! The sporadic task: one mode that follows itself after a period, an exact line of one place.
#![tactic(auto)]

ghost use Rattle.std.specs.Prelude.{◌≡◌, ◌≤◌, ◌++◌, length, drop, replicate, Ok};
ghost use Rattle.line.specs.Changes.{change_answer};
ghost use Rattle.line.specs.Answers.{MadeBy};
ghost use Rattle.sporadic.specs.Tasks.{releases, sporadic_task, sporadic_answer, changed_cost, changed_period};
ghost use Rattle.line.specs.Meaning.{sole};
ghost use Rattle.line.proofs.Facts.{sole_lawful};
ghost use Rattle.sporadic.specs.Sporadics.{numbers_laws};

use line::change::Change;
use line::joined::may_show;
use line::limits::{GAP, WINDOW};
use line::ranged::Ranged;
use line::refusal::Refusal;
use line::{ExactLine, Line};

/// A task of one mode: each job runs at most `cost` ticks, is due `deadline` ticks after its
/// release, and comes at least `period` ticks after the one before.
#[derive(Clone, Copy)]
pub struct Sporadic {
    cost: u32,
    period: u32,
    deadline: u32,
    ghost some: { 1 ≤ cost },
    ghost fits: { cost ≤ deadline },
    ghost near: { deadline ≤ 1000 },
    ghost first: { deadline ≤ period },
    ghost often: { period ≤ 100000 },
}

// The three numbers come unchecked, each with refusals of its own; `Sporadic` is the struct that has them checked.

/// Whether the numbers are those of a sporadic task.
pub fn check_sporadic(cost: u32, period: u32, deadline: u32) -> Result<(), Refusal>
    ensures { result ≡ sporadic_answer cost period deadline }
{
    if cost == 0
        || cost > WINDOW
        || period == 0
        || period > GAP
        || deadline == 0
        || deadline > WINDOW
    {
        return Err(Refusal::OutOfRange);
    }
    if cost > deadline {
        return Err(Refusal::CostAboveDeadline);
    }
    if deadline > period {
        return Err(Refusal::DeadlineAbovePeriod);
    }
    Ok(())
}

impl Sporadic {
    /// A task of these numbers, or why there is none.
    pub fn new(cost: u32, period: u32, deadline: u32) -> Result<Sporadic, Refusal>
        ensures { MadeBy (sporadic_answer cost period deadline) (λ s. (s.cost ≡ cost) × (s.period ≡ period) × (s.deadline ≡ deadline)) result }
    {
        check_sporadic(cost, period, deadline)?;
        Ok(Sporadic {
            cost,
            period,
            deadline,
        })
    }

    /// The most ticks that one job runs.
    pub fn cost(&self) -> u32
        ensures { result ≡ self.now.cost }
    {
        self.cost
    }

    /// The least gap between two releases.
    pub fn period(&self) -> u32
        ensures { result ≡ self.now.period }
    {
        self.period
    }

    /// The deadline, in ticks from release.
    pub fn deadline(&self) -> u32
        ensures { result ≡ self.now.deadline }
    {
        self.deadline
    }

    /// The task after a change that it may undergo. Its only link is never struck out.
    pub fn changed(self, change: Ranged) -> Sporadic
        requires { change_answer (sporadic_task self.cost self.period self.deadline).graph change.change ≡ Ok tt }
        ensures cost { result.cost ≡ changed_cost change.change self.cost }
        ensures period { result.period ≡ changed_period change.change self.period }
        ensures deadline { result.deadline ≡ self.deadline }
    {
        let (cost, period) = match change.change() {
            Change::Lower { cost, .. } => (cost, self.period),
            Change::Widen { gap, .. } => (self.cost, gap),
            Change::Cut { .. } => (self.cost, self.period),
        };
        Sporadic {
            cost,
            period,
            deadline: self.deadline,
        }
    }

    // A window is a plain number with its bound: it is divided here and nothing more.

    /// How many releases, one period apart, a window can hold.
    fn releases(&self, window: u32) -> u32
        requires { window ≤ 1000 }
        ensures { result ≡ releases window self.now.period }
    {
        window.div_ceil(self.period)
    }
}

/// Writes as many jobs of mode 0 at the front of the list.
fn write_jobs(list: &mut [u8], jobs: usize)
    requires { jobs ≤ length list.old }
    ensures { list.new ≡ replicate jobs 0 ++ drop jobs list.old }
{
    list[..jobs].fill(0);
}

impl Line for Sporadic {
    ghost meaning = { λ s. sole (sporadic_task s.cost s.period s.deadline) };

    ghost lawful = { λ _. Unit {0} };

    ghost keeps = { λ s h. sole_lawful _ (numbers_laws s.cost s.period s.deadline s.some s.fits s.near s.first s.often) };

    fn count(&self) -> usize {
        1
    }

    fn modes(&self, place: usize) -> usize {
        if place == 0 { 1 } else { 0 }
    }

    // Cost and deadline share one test: a question before them could only hand out the task itself, or none, to be taken
    // apart at once.
    fn cost(&self, place: usize, mode: usize) -> u32 {
        if place == 0 && mode == 0 {
            self.cost
        } else {
            0
        }
    }

    fn deadline(&self, place: usize, mode: usize) -> u32 {
        if place == 0 && mode == 0 {
            self.deadline
        } else {
            0
        }
    }

    fn gap(&self, place: usize, from: usize, to: usize) -> Option<u32> {
        if place == 0 && from == 0 && to == 0 {
            Some(self.period)
        } else {
            None
        }
    }

    fn most(&self, place: usize, window: u32) -> u32 {
        if place == 0 && window <= WINDOW {
            self.cost * self.releases(window)
        } else {
            0
        }
    }
}

impl ExactLine for Sporadic {
    ghost leaves = { λ _ _ was is. is ≡ was };

    fn show(
        &self,
        place: usize,
        window: u32,
        sheet: &mut [u32],
        list: &mut [u8],
    ) -> Result<usize, Refusal> {
        may_show(1, place, window, sheet.len(), list.len())?;
        // A cast, since a `usize` is not made from a `u32` by `from`.
        let jobs = self.releases(window) as usize;
        write_jobs(list, jobs);
        Ok(jobs)
    }
}
