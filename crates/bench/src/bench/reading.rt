//! Reading what stands on a bench.
ghost use Rattle.std.specs.Prelude.{◌≡◌};
ghost use Rattle.table.specs.Tables.{items};
ghost use Rattle.bench.specs.State.{state, bound_answer, mode_in_range};

use super::Bench;
use crate::verdict::Verdict;
use line::Line;
use line::limits::MODES;
use line::refusal::Refusal;
use table::make::check_task;
use table::table::Table;

/// Refuses a task's number or a mode out of range: 1 to 999, and 0 to 15.
pub(crate) fn check_mode_of(number: u32, mode: usize) -> Result<(), Refusal>
    ensures { result ≡ mode_in_range number mode }
{
    check_task(number, 0)?;
    if mode >= MODES {
        return Err(Refusal::OutOfRange);
    }
    Ok(())
}

impl Bench {
    /// The table, lent as an exact line.
    pub fn table(&self) -> &Table
        ensures { items result.now ≡ (state self.now).desk.tasks }
    {
        self.editor.table()
    }

    /// The verdict that stands, if the table has been judged since it last changed.
    pub fn verdict(&self) -> Option<Verdict>
        ensures { result ≡ (state self.now).verdict }
    {
        self.verdict
    }

    /// The bound that is shown of a mode, and 0 where none is.
    // 0 and not an Option: docs/CALLS.md says so of every call that shows a bound or a time.
    pub fn bound(&self, number: u32, mode: usize) -> Result<u32, Refusal>
        ensures { result ≡ bound_answer (state self.now) number mode }
    {
        check_mode_of(number, mode)?;
        let table = self.editor.table();
        match table.place_of(number) {
            Some(place) if mode < table.modes(place) => Ok(self.bounds[place * MODES + mode]),
            _ => Err(Refusal::NotThere),
        }
    }
}
