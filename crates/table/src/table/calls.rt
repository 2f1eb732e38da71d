//! Making a table, finding a task in it, and putting one in.
ghost use Rattle.std.specs.Prelude.{◌≡◌, ◌<◌, ◌≤◌, [], length, get_or, IfSome, MatchOption, MatchResult, slice_index_or};
ghost use Rattle.line.specs.Meaning.{task_at, nowhere};
ghost use Rattle.line.specs.declared.refusal.Refusal.TheVariants.{NoMemory};
ghost use Rattle.table.specs.Items.{blank, task_of, line_of, place_of, number_at, is_angular, is_angular_kind, angulars, room_for, enter_answer, enters, InsertDone};
ghost use Rattle.table.specs.Tables.{items};
ghost use Rattle.table.specs.Tasks.{item_of};

use super::Table;
use crate::make::{Kind, Task, check_task};
use line::limits::PLACES;
use line::refusal::Refusal;
use std::alloc::Global;

/// A table has at most this many angular tasks.
pub const ANGULARS: usize = 8;

impl Table {
    /// A table with no task, and room for 16.
    pub fn new(heap: Global) -> Result<Table, Refusal>
        ensures { MatchResult result (λ t. items t ≡ []) (λ e. e ≡ NoMemory) }
    {
        Ok(Table {
            tasks: Vec::with_capacity(heap, PLACES)?,
        })
    }

    /// Where the task of a number stands, if it is in the table.
    pub fn place_of(&self, number: u32) -> Option<usize>
        ensures place { result ≡ place_of number (items self.now) }
        ensures within { IfSome result (λ k. (k < 16) × (k < length (items self.now))) }
    {
        self.tasks.iter().position(|t| t.bears(number))
    }

    /// The task at a place, if there is one.
    pub(super) fn task_at(&self, place: usize) -> Option<&Task>
        ensures item { MatchOption result (length (items self.now) ≤ place) (λ t. (place < length (items self.now)) × (item_of t.now ≡ slice_index_or (items self.now) place blank)) }
        ensures task { MatchOption result (task_at (line_of (items self.now)) place ≡ nowhere) (λ t. task_at (line_of (items self.now)) place ≡ task_of (item_of t.now).make) }
    {
        self.tasks.get(place)
    }

    /// The number of the task at a place, and 0 where there is none.
    pub fn number_at(&self, place: usize) -> u32
        ensures { result ≡ number_at (items self.now) place }
    {
        // 0 and not an Option: numbers begin at 1, and past its places a line answers 0 to what it is asked.
        self.task_at(place).map_or(0, |t| t.number)
    }

    /// Whether the task at a place is angular; where there is none, it is not.
    pub fn is_angular_at(&self, place: usize) -> bool
        ensures { result ≡ is_angular (get_or (items self.now) place blank).make }
    {
        self.task_at(place).is_some_and(|t| t.make.is_angular())
    }

    /// How many angular tasks there are.
    pub fn angulars(&self) -> usize
        ensures { result ≡ angulars (items self.now) }
    {
        self.tasks.iter().filter(|t| t.make.is_angular()).count()
    }

    /// How many tasks there are.
    pub fn len(&self) -> usize
        ensures { result ≡ length (items self.now) }
    {
        self.tasks.len()
    }

    /// Whether there is room for one more task of a kind.
    pub fn has_room(&self, kind: Kind) -> bool
        ensures { result ≡ room_for (items self.now) (is_angular_kind kind) }
    {
        if kind == Kind::Angular && self.angulars() >= ANGULARS {
            return false;
        }
        self.len() < PLACES
    }

    /// Refuses a task that may not enter: there is no room for its kind, or its number is taken.
    pub fn may_enter(&self, number: u32, kind: Kind) -> Result<(), Refusal>
        ensures { result ≡ enter_answer (items self.now) number (is_angular_kind kind) }
    {
        if !self.has_room(kind) {
            return Err(Refusal::NoRoom);
        }
        if self.place_of(number).is_some() {
            return Err(Refusal::NumberTaken);
        }
        Ok(())
    }

    /// Whether a task may enter.
    fn takes(&self, task: &Task) -> bool
        ensures { result ≡ enters (items self.now) (item_of task.now) }
    {
        check_task(task.number, 0).is_ok() && self.may_enter(task.number, task.make.kind()).is_ok()
    }

    /// Puts a task in at a place, or at the end where the place is past it; lower tasks move down.
    /// A task that may not enter is handed back.
    pub fn insert(&mut self, place: usize, task: Task) -> Result<(), Task>
        ensures { InsertDone (items self.old) place (item_of task) (items self.new) item_of result }
    {
        if !self.takes(&task) {
            return Err(task);
        }
        let at = place.min(self.tasks.len());
        self.tasks.insert(at, task).map_err(|refused| refused.value)
    }
}
