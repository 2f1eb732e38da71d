//! The table as an exact line.
ghost use Rattle.table.specs.Items.{line_of};
ghost use Rattle.table.specs.Tables.{items, table_leaves};
ghost use Rattle.table.specs.Laws.{table_lawful};

use super::Table;
use line::joined::may_show;
use line::refusal::Refusal;
use line::{ExactLine, Line};

impl Line for Table {
    ghost meaning = { λ t. line_of (items t) };

    ghost lawful = { λ _. Unit {0} };

    ghost keeps = { λ x h. table_lawful x };

    fn count(&self) -> usize {
        self.len()
    }

    fn modes(&self, place: usize) -> usize {
        self.task_at(place).map_or(0, |t| t.make.modes(0))
    }

    fn cost(&self, place: usize, mode: usize) -> u32 {
        self.task_at(place).map_or(0, |t| t.make.cost(0, mode))
    }

    fn deadline(&self, place: usize, mode: usize) -> u32 {
        self.task_at(place).map_or(0, |t| t.make.deadline(0, mode))
    }

    fn gap(&self, place: usize, from: usize, to: usize) -> Option<u32> {
        self.task_at(place).and_then(|t| t.make.gap(0, from, to))
    }

    fn most(&self, place: usize, window: u32) -> u32 {
        self.task_at(place).map_or(0, |t| t.make.most(0, window))
    }
}

impl ExactLine for Table {
    ghost leaves = { λ t. table_leaves (items t) };

    fn show(
        &self,
        place: usize,
        window: u32,
        sheet: &mut [u32],
        list: &mut [u8],
    ) -> Result<usize, Refusal> {
        may_show(self.len(), place, window, sheet.len(), list.len())?;
        match self.task_at(place) {
            Some(t) => t.make.show(0, window, sheet, list),
            None => Err(Refusal::NotThere),
        }
    }
}
