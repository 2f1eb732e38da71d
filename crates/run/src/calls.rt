//! The calls on a run.
ghost use Rattle.std.specs.Prelude.{◌≡◌};
ghost use Rattle.run.specs.Course.{course, fresh};
ghost use Rattle.run.specs.Calls.{release_answer, after_release, may_advance, advance_answer, after_advance, worst_answer};
ghost use Rattle.run.specs.Rules.{TickByRules, RunsByRules};

use crate::due::Moment;
use crate::numbers::{check_job, check_ticks};
use crate::{Advance, CLOCK, Job, Play};
use line::Line;
use line::limits::{MODES, PLACES};
use line::refusal::Refusal;

impl Play {
    /// A run at clock 0 with no job.
    pub fn new() -> Play
        ensures state { course result ≡ fresh }
        ensures tick { TickByRules }
        ensures runs { RunsByRules }
    {
        Play {
            clock: 0,
            jobs: [None; PLACES],
            worst: [[0; MODES]; PLACES],
            late: None,
        }
    }

    /// The clock: how many ticks have passed.
    pub fn clock(&self) -> u32
        ensures { result ≡ (course self.now).clock }
    {
        self.clock
    }

    /// Releases a job of a cost in a mode at a place, at the present clock.
    pub fn release<L: Line>(
        &mut self,
        line: &L,
        place: usize,
        mode: usize,
        cost: u32,
    ) -> Result<(), Refusal>
        ensures answer { result ≡ release_answer (L.meaning line.now) (course self.old) place mode cost }
        ensures after { course self.new ≡ after_release (L.meaning line.now) (course self.old) place mode cost }
    {
        self.may_release(line, place, mode, cost)?;
        self.jobs[place] = Some(Job {
            mode,
            release: self.clock,
            left: cost,
        });
        Ok(())
    }

    /// Advances by a number of ticks, or up to the one in which a job is late.
    pub fn advance<L: Line>(&mut self, line: &L, ticks: u32) -> Result<Advance<usize>, Refusal>
        ensures answer { result ≡ advance_answer (L.meaning line.now) (course self.old) ticks }
        ensures after { course self.new ≡ after_advance (L.meaning line.now) (course self.old) ticks }
    {
        self.may_advance(ticks)?;
        let from = self.clock;
        self.run_to(line, from + ticks);
        Ok(Advance {
            ticks: self.clock - from,
            late: self.late,
        })
    }

    /// The longest time that a job of a place and mode took; 0 before one has finished.
    // 0 and not an Option: docs/RUN.md says so, and no job takes 0 ticks.
    pub fn worst<L: Line>(&self, line: &L, place: usize, mode: usize) -> Result<u32, Refusal>
        ensures { result ≡ worst_answer (L.meaning line.now) (course self.now) place mode }
    {
        if place >= PLACES || mode >= MODES {
            return Err(Refusal::OutOfRange);
        }
        if mode >= line.modes(place) {
            return Err(Refusal::NotThere);
        }
        Ok(self.worst[place][mode])
    }

    /// Ends the run, a late one too, and answers its clock.
    pub fn stop(self) -> u32
        ensures { result ≡ (course self).clock }
    {
        Play::clock(&self)
    }

    /// A line at the present clock.
    pub(crate) fn at<'a, L: Line>(&self, line: &'a L) -> Moment<'a, L>
        ensures line { result.line.now ≡ line.now }
        ensures clock { result.clock ≡ (course self.now).clock }
    {
        Moment {
            line,
            clock: self.clock,
        }
    }

    /// Whether a job may be released.
    fn may_release<L: Line>(
        &self,
        line: &L,
        place: usize,
        mode: usize,
        cost: u32,
    ) -> Result<(), Refusal>
        ensures { result ≡ release_answer (L.meaning line.now) (course self.now) place mode cost }
    {
        if place >= PLACES {
            return Err(Refusal::OutOfRange);
        }
        check_job(mode, cost)?;
        if mode >= line.modes(place) {
            return Err(Refusal::NotThere);
        }
        if cost > line.cost(place, mode) {
            return Err(Refusal::CostAboveMode);
        }
        if !self.at(line).ready(place, mode, self.jobs[place]) {
            return Err(Refusal::NotYet);
        }
        if self.late.is_some() {
            return Err(Refusal::EndedLate);
        }
        Ok(())
    }

    /// Whether the run may advance.
    fn may_advance(&self, ticks: u32) -> Result<(), Refusal>
        ensures { result ≡ may_advance (course self.now) ticks }
    {
        check_ticks(ticks)?;
        if self.late.is_some() {
            return Err(Refusal::EndedLate);
        }
        if u64::from(self.clock) + u64::from(ticks) > u64::from(CLOCK) {
            return Err(Refusal::PastClock);
        }
        Ok(())
    }
}
