//! A task of either make as an exact line of one place.
ghost use Rattle.std.specs.Prelude.{◌≡◌, ◌≤◌, length, Ok};
ghost use Rattle.line.specs.Changes.{change_answer};
ghost use Rattle.table.specs.Items.{task_of, kind_of, is_angular, changed_make, Leaves};
ghost use Rattle.table.specs.Tasks.{make_of};
ghost use Rattle.line.specs.Meaning.{sole};
ghost use Rattle.table.specs.Laws.{make_lawful};

use crate::make::{Kind, Make};
use line::ranged::Ranged;
use line::refusal::Refusal;
use line::{ExactLine, Line};

// The work sheet is lent and its length asked for: a struct that held it would have to say that it is still the caller's.

impl Make {
    /// Which kind of task it is.
    pub fn kind(&self) -> Kind
        ensures { result ≡ kind_of (make_of self.now) }
    {
        match self {
            Make::Sporadic(_) => Kind::Sporadic,
            Make::Angular(_) => Kind::Angular,
        }
    }

    // By a pattern of its own, and not by a `Kind` that is made to be compared.

    /// Whether the task is angular.
    pub fn is_angular(&self) -> bool
        ensures { result ≡ is_angular (make_of self.now) }
    {
        matches!(self, Make::Angular(_))
    }

    /// The task after a change that it may undergo; where it is angular, the sheet is filled for it.
    pub fn changed(self, change: Ranged, sheet: &mut [u32]) -> Make
        requires may { change_answer (task_of (make_of self)).graph change.change ≡ Ok tt }
        requires room { 16016 ≤ length sheet.old }
        ensures make { make_of result ≡ changed_make change.change (make_of self) }
        ensures leaves { Leaves (changed_make change.change (make_of self)) sheet.old sheet.new }
    {
        match self {
            Make::Sporadic(task) => Make::Sporadic(task.changed(change)),
            Make::Angular(task) => Make::Angular(task.changed(change, sheet)),
        }
    }
}

// A match in each question: each asks a make for something else, and a make could be handed out only as a `dyn`.

impl Line for Make {
    ghost meaning = { λ m. sole (task_of (make_of m)) };

    ghost lawful = { λ _. Unit {0} };

    ghost keeps = { λ x h. make_lawful x };

    fn count(&self) -> usize {
        1
    }

    fn modes(&self, place: usize) -> usize {
        match self {
            Make::Sporadic(s) => s.modes(place),
            Make::Angular(a) => a.modes(place),
        }
    }

    fn cost(&self, place: usize, mode: usize) -> u32 {
        match self {
            Make::Sporadic(s) => <sporadic::Sporadic as Line>::cost(s, place, mode),
            Make::Angular(a) => a.cost(place, mode),
        }
    }

    fn deadline(&self, place: usize, mode: usize) -> u32 {
        match self {
            Make::Sporadic(s) => <sporadic::Sporadic as Line>::deadline(s, place, mode),
            Make::Angular(a) => a.deadline(place, mode),
        }
    }

    fn gap(&self, place: usize, from: usize, to: usize) -> Option<u32> {
        match self {
            Make::Sporadic(s) => s.gap(place, from, to),
            Make::Angular(a) => a.gap(place, from, to),
        }
    }

    fn most(&self, place: usize, window: u32) -> u32 {
        match self {
            Make::Sporadic(s) => s.most(place, window),
            Make::Angular(a) => a.most(place, window),
        }
    }
}

impl ExactLine for Make {
    ghost leaves = { λ m _. Leaves (make_of m) };

    fn show(
        &self,
        place: usize,
        window: u32,
        sheet: &mut [u32],
        list: &mut [u8],
    ) -> Result<usize, Refusal> {
        match self {
            Make::Sporadic(s) => s.show(place, window, sheet, list),
            Make::Angular(a) => a.show(place, window, sheet, list),
        }
    }
}
