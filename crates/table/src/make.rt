//! A task of the table: its number and its make.
ghost use Rattle.std.specs.Prelude.{◌≡◌, ◌==◌};
ghost use Rattle.table.specs.Numbers.{task_numbers};

use angular::Angular;
use line::limits::PLACES;
use line::refusal::Refusal;
use sporadic::Sporadic;

/// The largest number of a task; the least is 1.
pub const NUMBERS: u32 = 999;

/// Which of the two makes a task is of, without the task.
#[derive(Clone, Copy, PartialEq, Eq, Debug)]
pub enum Kind {
    Sporadic,
    Angular,
}

/// A task of either make.
#[derive(Drop)]
pub enum Make {
    Sporadic(Sporadic),
    Angular(Angular),
}

/// A task of the table.
#[derive(Drop)]
pub struct Task {
    pub number: u32,
    pub make: Make,
}

impl Task {
    /// Whether the task has that number.
    pub(crate) fn bears(&self, number: u32) -> bool
        ensures { result ≡ (self.now.number == number) }
    {
        self.number == number
    }
}

/// Whether a task's number and place are in their ranges: 1 to 999, and 0 to 15.
pub fn check_task(number: u32, place: usize) -> Result<(), Refusal>
    ensures { result ≡ task_numbers number place }
{
    if number == 0 || number > NUMBERS || place >= PLACES {
        return Err(Refusal::OutOfRange);
    }
    Ok(())
}
