//! The response-time test of a line of tasks by fixed priority.
//!
//! The bound of a mode is the least window, from 1 tick to its deadline, that holds the mode's cost
//! and the most work that the places above can ask for in it. A line fits when every mode has a
//! bound. `most` need not rise with the window, so the windows are tried one by one.
//!
//! Where a line fits, no run over it is ever late: over every list of releases and advances from a
//! new run, refused ones too, no advance reports a late job, and no job that finishes has taken
//! longer than the bound of its mode. A line that asks for no more than another has no greater
//! bounds, and fits if that one does.
#![tactic(auto)]

ghost use Rattle.std.specs.Prelude.{◌≡◌, length, IfOk, OnOk, Some};
ghost use Rattle.response.specs.Verdicts.{judge_answer, judged_cells};
ghost use Rattle.response.specs.Judgements.{Judged};
ghost use Rattle.response.specs.Easing.{EasesBelow};
ghost use Rattle.response.specs.Safety.{NeverLate};
ghost use Rattle.response.specs.Words.{verdict_words};

use line::Line;
use line::refusal::Refusal;
use std::fmt;

mod cells;
mod places;
mod rows;
mod search;

/// The cells that the judge shows bounds in: one for each place and mode.
pub const CELLS: usize = 256;

// A verdict and not an Option: that nothing is over is what the test is for, and has a name of its own.

/// What the test says of tasks, each named by a `Task`: its place, or a number of its own.
#[derive(Clone, Copy, PartialEq, Eq, Debug)]
pub enum Verdict<Task> {
    /// Every mode has a bound.
    Fits,
    /// The first task, by place, and its first mode that have no bound.
    Over {
        /// The task.
        task: Task,
        /// The mode of that task.
        mode: usize,
    },
}

/// The words of a verdict on tasks that are named by their numbers.
impl fmt::Display for Verdict<u32> {
    ghost output = { λ v. Some (verdict_words v) };

    fn fmt<W: fmt::Write>(&self, f: &mut fmt::Formatter<W>) -> fmt::Result {
        match self {
            Verdict::Fits => f.write_str("fits"),
            Verdict::Over { task, mode } => write!(f, "over {task} {mode}"),
        }
    }
}

// The laws are asked of any line that comes in from outside; inside, the row of a place has them.

/// Judges a line, and shows the bound of each mode that comes before the verdict falls.
///
/// Of the first 256 cells, cell place × 16 + mode gets the mode's bound, and every other one 0;
/// later cells stay. Fewer cells are refused, and then nothing changes.
pub fn judge<L: Line>(line: &L, cells: &mut [u32]) -> Result<Verdict<usize>, Refusal>
    requires { L.lawful line.now }
    ensures answer { result ≡ judge_answer (L.meaning line.now) (length cells.old) }
    ensures cells { cells.new ≡ judged_cells (L.meaning line.now) cells.old }
    ensures safe { IfOk result (λ v. v ≡ Verdict.Fits → NeverLate (L.meaning line.now)) }
    ensures eases { OnOk result (EasesBelow (L.meaning line.now)) }
    ensures judged { IfOk result (λ v. Judged (L.meaning line.now) v cells.new) }
{
    // Compared here, as each lent length where it is known (`line::limits`).
    if cells.len() < CELLS {
        return Err(Refusal::TooShort);
    }
    cells::clear(cells);
    Ok(places::judge_places(line, cells))
}
