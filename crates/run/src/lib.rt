//! A run over any line: jobs are released, and ticks are given by fixed priority.
//!
//! A run starts at clock 0 with no job. In each tick the highest place with work left gets one
//! unit, and then the clock moves by one. A job whose work reaches 0 has finished; the run keeps
//! the longest time for each place and mode. Only then the highest place with work left whose
//! release plus deadline equals the clock is late, and the run has ended.
#![tactic(auto)]

ghost use Rattle.line.specs.Rows.{AllRows};

use line::limits::{MODES, PLACES};

mod calls;
mod due;
pub mod numbers;
mod ticks;

/// The clock goes no further than this.
pub const CLOCK: u32 = 1000000;

/// An advance is by at most this many ticks.
pub const ADVANCE: u32 = 1000;

/// The last job released at a place; it stays, with no work left, when it has finished.
#[derive(Clone, Copy, PartialEq, Eq, Debug)]
pub struct Job {
    mode: usize,
    release: u32,
    left: u32,
}

/// The task and mode of a job that was late; the task is named by a `Task`: its place, or a number of its own.
#[derive(Clone, Copy, PartialEq, Eq, Debug)]
pub struct Late<Task> {
    /// The task.
    pub task: Task,
    /// The mode of its job.
    pub mode: usize,
}

/// What an advance did.
#[derive(Clone, Copy, PartialEq, Eq, Debug)]
pub struct Advance<Task> {
    /// The ticks done: all that were asked for, or up to the late one.
    pub ticks: u32,
    /// The late job, with which the run has ended.
    pub late: Option<Late<Task>>,
}

/// A run: the clock, the last job of each place, the longest times, and the late job, if any.
#[derive(Drop)]
pub struct Play {
    clock: u32,
    jobs: [Option<Job>; PLACES],
    // Beside the jobs and not in them: a place's job is replaced, and its longest times stay.
    worst: [[u32; MODES]; PLACES],
    late: Option<Late<usize>>,
    ghost rows: { AllRows worst },
}
