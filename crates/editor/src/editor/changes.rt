//! Taking a task out of the table, and changing one where it stands.
ghost use Rattle.std.specs.Prelude.{◌≡◌};
ghost use Rattle.editor.specs.Desks.{desk, find_answer, take_answer, after_take, ChangingDone};

use super::Editor;
use line::change::Change;
use line::limits::check_sheet;
use line::refusal::Refusal;
use table::make::check_task;

impl Editor {
    /// Where the task of a number stands: no draft is open, and the task is there.
    fn find(&self, number: u32) -> Result<usize, Refusal>
        ensures { result ≡ find_answer (desk self.now) number }
    {
        self.check_idle()?;
        self.table.place_of(number).ok_or(Refusal::NotThere)
    }

    /// Takes a task out of the table; lower tasks move up.
    pub fn take(&mut self, number: u32) -> Result<(), Refusal>
        ensures answer { result ≡ take_answer (desk self.old) number }
        ensures after { desk self.new ≡ after_take (desk self.old) number }
    {
        check_task(number, 0)?;
        self.check_idle()?;
        self.table.take(number)
    }

    /// Changes a task; where it is angular, the work sheet is filled for it.
    pub fn change(&mut self, number: u32, change: Change, sheet: &mut [u32]) -> Result<(), Refusal>
        ensures { ChangingDone (desk self.old) number change sheet.old result (desk self.new) sheet.new }
    {
        check_task(number, 0)?;
        // Checked here for the order of the refusals; `table` takes any change, and checks it for its own callers.
        change.check()?;
        check_sheet(sheet.len())?;
        let place = self.find(number)?;
        self.table.change(place, change, sheet)
    }
}
