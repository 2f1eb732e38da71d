//! The ticks of a run. While one job runs on, or none, and nothing else happens, many ticks go in
//! one step.
ghost use Rattle.std.specs.Prelude.{◌≡◌, ◌+◌, ◌-◌, ◌<◌, ◌≤◌, None};
ghost use Rattle.run.specs.Course.{course};
ghost use Rattle.run.specs.Ticks.{idle_above, ticked, after_ticks};
ghost use Rattle.run.specs.Steps.{calm, given_at, raised_at, ran_on, worked_at, Strides};

use crate::Play;
use crate::due::{busy, served, unfinished};
use line::Line;
use line::limits::{MODES, PLACES};

/// A job with so much work left finishes with its next unit.
const LAST_UNIT: u32 = 1;

impl Play {
    /// Ticks until the clock shows `end`, or a job is late; where it shows `end` or more already, nothing is done.
    pub fn run_to<L: Line>(&mut self, line: &L, end: u32)
        ensures later { (course self.old).clock ≤ (course self.new).clock }
        ensures state { course self.new ≡ after_ticks (L.meaning line.now) (end - (course self.old).clock) (course self.old) }
    {
        while self.clock < end && self.late.is_none() {
            self.stride(line, end - self.clock);
        }
    }

    /// One to `limit` ticks in one step.
    fn stride<L: Line>(&mut self, line: &L, limit: u32)
        requires on { (course self.old).late ≡ None }
        requires some { 1 ≤ limit }
        requires fits { (course self.old).clock + limit < 4294967296 }
        ensures { Strides (L.meaning line.now) limit (course self.old) (course self.new) }
    {
        let calm = self.calm(line, limit);
        if calm == 0 {
            self.tick(line);
        } else {
            self.run_on(calm);
        }
    }

    /// At most `limit` ticks in which one job runs on, or none, and nothing else happens.
    fn calm<L: Line>(&self, line: &L, limit: u32) -> u32
        ensures { result ≡ calm (L.meaning line.now) (course self.now) limit }
    {
        let slot = busy(&self.jobs).and_then(|place| self.jobs[place]);
        self.at(line).undue_all(&self.jobs, unfinished(slot, limit))
    }

    /// Many ticks at once, in which one job runs on, or none.
    fn run_on(&mut self, ticks: u32)
        requires { (course self.old).clock + ticks < 4294967296 }
        ensures { course self.new ≡ ran_on ticks (course self.old) }
    {
        self.clock += ticks;
        if let Some(place) = busy(&self.jobs) {
            self.give(place, ticks);
        }
    }

    /// One tick.
    fn tick<L: Line>(&mut self, line: &L)
        requires { (course self.old).clock + 1 < 4294967296 }
        ensures { course self.new ≡ ticked (L.meaning line.now) (course self.old) }
    {
        self.clock += 1;
        self.serve();
        self.late = self.at(line).first_late(&self.jobs);
    }

    /// Serves the highest place with work left, if any, in the tick that ends at the clock.
    fn serve(&mut self)
        ensures { course self.new ≡ worked_at (idle_above (course self.old).jobs) (course self.old) }
    {
        if let Some(place) = busy(&self.jobs) {
            self.work_at(place);
        }
    }

    // A place is a plain number, with its bound where a job's slot or a row of times is written.

    /// Gives the job of a place its unit of the tick that ends at the clock, and notes the time of a
    /// job that has finished with it.
    fn work_at(&mut self, place: usize)
        requires { place < 16 }
        ensures { course self.new ≡ worked_at place (course self.old) }
    {
        let slot = self.jobs[place];
        self.give(place, 1);
        if let Some(job) = slot {
            if job.left == LAST_UNIT {
                self.note(place, job.mode, self.clock.saturating_sub(job.release));
            }
        }
    }

    /// Takes units off the work that is left at a place.
    fn give(&mut self, place: usize, units: u32)
        requires { place < 16 }
        ensures { course self.new ≡ given_at place units (course self.old) }
    {
        self.jobs[place] = served(self.jobs[place], units);
    }

    /// Notes the time that a job took; the longest is kept.
    fn note(&mut self, place: usize, mode: usize, took: u32)
        requires { place < 16 }
        ensures { course self.new ≡ raised_at place mode took (course self.old) }
    {
        if mode < MODES {
            self.worst[place][mode] = self.worst[place][mode].max(took);
        }
    }
}
