//! The calls of a run.
use super::Player;
use crate::answer::Answer;
use bench::ticket::Run;
use calls::call::Running;
use line::refusal::Refusal;

// As drafts are held and ended, but by calls that answer differently: abandon answers nothing, and stop the clock.

impl Player {
    /// Ends the run in hand, if there is one.
    pub(super) fn stop(&mut self) -> Answer {
        match self.run.take() {
            Some(run) => Answer::Number(self.bench.stop(run)),
            None => Answer::NoRun,
        }
    }

    /// Takes a run in hand, and ends another that was there.
    fn hold_run(&mut self, run: Run) {
        if let Some(other) = self.run.replace(run) {
            self.bench.stop(other);
        }
    }

    /// Begins a run. One that is in hand, a stranger's, is ended where another is handed out.
    fn begin(&mut self) -> Result<(), Refusal> {
        let run = self.bench.begin()?;
        self.hold_run(run);
        Ok(())
    }

    /// A call that begins a run, or one on the run in hand.
    pub(super) fn running(&mut self, call: Running) -> Answer {
        match (call, &self.run) {
            (Running::Begin, _) => self.begin().into(),
            (Running::Stop, _) => self.stop(),
            (_, None) => Answer::NoRun,
            (Running::Release { number, mode, cost }, Some(run)) => self
                .bench
                .release(run, number, mode as usize, cost)
                .into(),
            (Running::Advance { ticks }, Some(run)) => self
                .bench
                .advance(run, ticks)
                .map_or_else(Answer::Refused, Answer::Advanced),
            (Running::Worst { number, mode }, Some(run)) => self
                .bench
                .worst(run, number, mode as usize)
                .map_or_else(Answer::Refused, Answer::Number),
        }
    }
}
