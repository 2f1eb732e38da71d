//! The run over the table, by its ticket.
ghost use Rattle.std.specs.Prelude.{◌≡◌};
ghost use Rattle.table.specs.Tables.{items};
ghost use Rattle.bench.specs.State.{state};
ghost use Rattle.bench.specs.Runs.{BeginDone, played_answer, release_numbers, release_answer, after_release, told, advance_answer, after_advance, worst_answer, stop_answer, after_stop};

use super::Bench;
use super::reading::check_mode_of;
use crate::ticket::{Run, Ticket};
use line::refusal::Refusal;
use run::numbers::{check_job, check_ticks};
use run::{Advance, Late, Play};
use table::make::check_task;
use table::table::Table;

/// Refuses numbers of a release out of range.
fn check_release(number: u32, mode: usize, cost: u32) -> Result<(), Refusal>
    ensures { result ≡ release_numbers number mode cost }
{
    check_task(number, 0)?;
    check_job(mode, cost)
}

/// What an advance over places did, with the late task by its number.
fn named(table: &Table, done: Advance<usize>) -> Advance<u32>
    ensures { result ≡ told (items table.now) done }
{
    Advance {
        ticks: done.ticks,
        late: done.late.map(|late| Late {
            task: table.number_at(late.task),
            mode: late.mode,
        }),
    }
}

impl Bench {
    /// Begins a run at clock 0 with no job, and hands out its ticket.
    pub fn begin(&mut self) -> Result<Run, Refusal>
        ensures { BeginDone (state self.old) result (state self.new) }
    {
        self.check_no_run()?;
        self.editor.check_idle()?;
        self.run = Some(Play::new());
        Ok(Ticket::of(self.id))
    }

    /// Refuses a stranger's ticket: it bears another number, or no run is open.
    fn check_run(&self, run: &Run) -> Result<(), Refusal>
        ensures { result ≡ played_answer (state self.now) run.now.bench }
    {
        if run.bench() != self.id || self.run.is_none() {
            return Err(Refusal::NoTicket);
        }
        Ok(())
    }

    /// Releases a job of a task in a mode and of a cost, at the present clock.
    pub fn release(&mut self, run: &Run, number: u32, mode: usize, cost: u32) -> Result<(), Refusal>
        ensures answer { result ≡ release_answer (state self.old) run.now.bench number mode cost }
        ensures after { state self.new ≡ after_release (state self.old) run.now.bench number mode cost }
    {
        check_release(number, mode, cost)?;
        self.check_run(run)?;
        let table = self.editor.table();
        let place = table.place_of(number).ok_or(Refusal::NotThere)?;
        match &mut self.run {
            Some(play) => play.release(table, place, mode, cost),
            None => Err(Refusal::NoTicket),
        }
    }

    /// Advances the run by a number of ticks, or up to the one in which a job is late.
    pub fn advance(&mut self, run: &Run, ticks: u32) -> Result<Advance<u32>, Refusal>
        ensures answer { result ≡ advance_answer (state self.old) run.now.bench ticks }
        ensures after { state self.new ≡ after_advance (state self.old) run.now.bench ticks }
    {
        check_ticks(ticks)?;
        self.check_run(run)?;
        let table = self.editor.table();
        match &mut self.run {
            Some(play) => Ok(named(table, play.advance(table, ticks)?)),
            None => Err(Refusal::NoTicket),
        }
    }

    /// The longest time that a finished job of a task and mode took in the run; 0 before one has finished.
    pub fn worst(&self, run: &Run, number: u32, mode: usize) -> Result<u32, Refusal>
        ensures { result ≡ worst_answer (state self.now) run.now.bench number mode }
    {
        check_mode_of(number, mode)?;
        self.check_run(run)?;
        let table = self.editor.table();
        let place = table.place_of(number).ok_or(Refusal::NotThere)?;
        match &self.run {
            Some(play) => play.worst(table, place, mode),
            None => Err(Refusal::NoTicket),
        }
    }

    /// Ends the run, and answers its clock; a stranger's ticket is only ended, and then 0 is answered.
    pub fn stop(&mut self, run: Run) -> u32
        ensures answer { result ≡ stop_answer (state self.old) run.bench }
        ensures after { state self.new ≡ after_stop (state self.old) run.bench }
    {
        let bench = run.bench();
        run.spend();
        if bench != self.id {
            return 0;
        }
        self.run.take().map_or(0, |play| play.stop())
    }
}
