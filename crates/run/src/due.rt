//! The jobs of a run against the clock: which place is served, what is due, and when.
ghost use Rattle.std.specs.Prelude.{◌≡◌};
ghost use Rattle.run.specs.Course.{left_of};
ghost use Rattle.run.specs.Ticks.{served, due_at, late_in, first_late};
ghost use Rattle.run.specs.Calls.{passed, ready};
ghost use Rattle.run.specs.Steps.{busy, unfinished, undue, undue_all};

use crate::{Job, Late};
use line::Line;

/// The work that is left of a place's job.
fn left_of(slot: Option<Job>) -> u32
    ensures { result ≡ left_of slot }
{
    slot.map_or(0, |job| job.left)
}

/// The highest place with work left, if any: it is served.
pub fn busy(jobs: &[Option<Job>]) -> Option<usize>
    ensures { result ≡ busy jobs.now }
{
    jobs.iter().position(|slot| left_of(*slot) > 0)
}

/// A place's job after so many units more of its work.
pub fn served(slot: Option<Job>, units: u32) -> Option<Job>
    ensures { result ≡ served units slot }
{
    slot.map(|job| Job {
        left: job.left.saturating_sub(units),
        ..job
    })
}

/// At most `limit` ticks, in which the job that is served does not finish.
pub fn unfinished(slot: Option<Job>, limit: u32) -> u32
    ensures { result ≡ unfinished slot limit }
{
    let left = left_of(slot);
    if left > 0 { limit.min(left - 1) } else { limit }
}

/// Whether the gap from a release has passed at a clock, if there is one.
fn passed(gap: Option<u32>, release: u32, clock: u32) -> bool
    ensures { result ≡ passed gap release clock }
{
    gap.is_some_and(|gap| u64::from(release) + u64::from(gap) <= u64::from(clock))
}

/// A line at a clock.
#[derive_where(Clone, Copy)]
pub struct Moment<'a, L> {
    /// The line whose jobs they are.
    pub line: &'a L,
    /// The clock.
    pub clock: u32,
}

impl<'a, L: Line> Moment<'a, L> {
    /// The clock at which a job of a place is due.
    fn due_at(&self, place: usize, job: Job) -> u64
        ensures { result ≡ due_at (L.meaning self.now.line.now) place job }
    {
        u64::from(job.release) + u64::from(self.line.deadline(place, job.mode))
    }

    /// Whether a job in a mode may be released at a place, after the last one there.
    pub fn ready(&self, place: usize, mode: usize, last: Option<Job>) -> bool
        ensures { result ≡ ready (L.meaning self.now.line.now) place mode self.now.clock last }
    {
        // Tried with `is_none_or`, in three forms: that its closure answers the question was not proved.
        let Some(job) = last else {
            return true;
        };
        passed(
            self.line.gap(place, job.mode, mode),
            job.release,
            self.clock,
        )
    }

    /// The lateness of a place's job.
    fn late_in(&self, place: usize, slot: Option<Job>) -> Option<Late<usize>>
        ensures { result ≡ late_in (L.meaning self.now.line.now) self.now.clock place slot }
    {
        let job = slot?;
        if job.left > 0 && self.due_at(place, job) == u64::from(self.clock) {
            return Some(Late {
                task: place,
                mode: job.mode,
            });
        }
        None
    }

    /// The highest place that is late, with the mode of its job.
    pub fn first_late(&self, jobs: &[Option<Job>]) -> Option<Late<usize>>
        ensures { result ≡ first_late (L.meaning self.now.line.now) self.now.clock 0 jobs.now }
    {
        jobs.iter()
            .enumerate()
            .find_map(|(place, slot)| self.late_in(place, *slot))
    }

    /// At most `limit` ticks, in which a place's job does not become due with work left.
    fn undue(&self, place: usize, slot: Option<Job>, limit: u32) -> u32
        ensures { result ≡ undue (L.meaning self.now.line.now) self.now.clock place slot limit }
    {
        let Some(job) = slot else {
            return limit;
        };
        let due = self.due_at(place, job);
        let clock = u64::from(self.clock);
        if job.left == 0 || due <= clock {
            return limit;
        }
        u32::try_from(due - clock - 1).map_or(limit, |rest| rest.min(limit))
    }

    /// At most `limit` ticks, in which no job becomes due with work left.
    pub fn undue_all(&self, jobs: &[Option<Job>], limit: u32) -> u32
        ensures { result ≡ undue_all (L.meaning self.now.line.now) self.now.clock 0 jobs.now limit }
    {
        jobs.iter().enumerate().fold(limit, |rest, (place, slot)| self.undue(place, *slot, rest))
    }
}
