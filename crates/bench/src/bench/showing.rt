//! Showing a walk of a task.
ghost use Rattle.bench.specs.Shows.{ShowDone};
ghost use Rattle.bench.specs.State.{state};

use super::Bench;
use line::ExactLine;
use line::joined::may_show;
use line::refusal::Refusal;
use table::make::check_task;

impl Bench {
    /// Writes a walk of a task that fits the window and has the most work from the list's first
    /// cell on, and answers its length; later cells stay.
    pub fn show(
        &self,
        number: u32,
        window: u32,
        sheet: &mut [u32],
        list: &mut [u8],
    ) -> Result<usize, Refusal>
        ensures { ShowDone (state self.now) number window sheet.old sheet.new list.old list.new result }
    {
        check_task(number, 0)?;
        let table = self.editor.table();
        match table.place_of(number) {
            Some(place) => table.show(place, window, sheet, list),
            None => {
                may_show(0, 0, window, sheet.len(), list.len())?;
                Err(Refusal::NotThere)
            }
        }
    }
}
