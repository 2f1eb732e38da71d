//! Taking a task out of a table, and changing one where it stands.
ghost use Rattle.std.specs.Prelude.{◌≡◌, ◌<◌, ◌≤◌, length, get_or, Ok, slice_index_or};
ghost use Rattle.std.specs.List.{remove};
ghost use Rattle.line.specs.Changes.{change_answer};
ghost use Rattle.line.specs.Meaning.{task_at};
ghost use Rattle.table.specs.Items.{blank, line_of, place_of, there_answer, without, changed_make, changed_at, Leaves, ChangeDone};
ghost use Rattle.table.specs.Tables.{items};
ghost use Rattle.table.specs.Tasks.{item_of};

use super::Table;
use crate::make::Task;
use line::change::{Change, may_change};
use line::limits::check_sheet;
use line::ranged::Ranged;
use line::refusal::Refusal;

// The work sheet is lent and its length asked for: a struct that held it would have to say that it is still the caller's.

impl Table {
    /// Takes the task out that stands at a place.
    fn remove_at(&mut self, place: usize) -> Task
        requires { place < length (items self.old) }
        ensures task { item_of result ≡ slice_index_or (items self.old) place blank }
        ensures others { items self.new ≡ remove (items self.old) place }
    {
        self.tasks.remove(place)
    }

    /// Takes the task of a number out; lower tasks move up.
    pub fn take(&mut self, number: u32) -> Result<(), Refusal>
        ensures answer { result ≡ there_answer (place_of number (items self.old)) }
        ensures after { items self.new ≡ without (items self.old) (place_of number (items self.old)) }
    {
        let place = self.place_of(number).ok_or(Refusal::NotThere)?;
        let _ = self.remove_at(place);
        Ok(())
    }

    /// Changes the task at a place, which may undergo it. The task is taken out and put back: a
    /// changed task is made anew from the old one, so that sheet and row are filled in one place.
    fn change_at(&mut self, place: usize, change: Ranged, sheet: &mut [u32])
        requires room { 16016 ≤ length sheet.old }
        requires may { change_answer (task_at (line_of (items self.old)) place).graph change.change ≡ Ok tt }
        ensures items { items self.new ≡ changed_at (items self.old) place change.change }
        ensures leaves { Leaves (changed_make change.change (get_or (items self.old) place blank).make) sheet.old sheet.new }
    {
        let Task { number, make } = self.tasks.remove(place);
        let make = make.changed(change, sheet);
        let _ = self.tasks.insert(place, Task { number, make });
    }

    /// Changes the task at a place; where it is angular, the sheet is filled for it.
    pub fn change(&mut self, place: usize, change: Change, sheet: &mut [u32]) -> Result<(), Refusal>
        ensures { ChangeDone (items self.old) place change sheet.old result (items self.new) sheet.new }
    {
        let ranged = Ranged::new(change)?;
        check_sheet(sheet.len())?;
        may_change(self, place, change)?;
        self.change_at(place, ranged, sheet);
        Ok(())
    }
}
