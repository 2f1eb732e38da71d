//! Making an editor, and changes of its table.
ghost use Rattle.std.specs.Prelude.{◌≡◌, MatchResult};
ghost use Rattle.line.specs.declared.refusal.Refusal.TheVariants.{NoMemory};
ghost use Rattle.table.specs.Tables.{items};
ghost use Rattle.line.specs.Answers.{MadeBy};
ghost use Rattle.editor.specs.Desks.{desk, clear, idle, put_answer, after_put, install_answer, after_install};

use super::Editor;
use line::Line;
use line::refusal::Refusal;
use sporadic::Sporadic;
use std::alloc::Global;
use table::make::{Kind, Make, Task, check_task};
use table::table::Table;

impl Editor {
    /// An editor with no task and no draft.
    pub fn new(heap: Global) -> Result<Editor, Refusal>
        ensures { MatchResult result (λ e. desk e ≡ clear) (λ e. e ≡ NoMemory) }
    {
        Ok(Editor {
            heap,
            table: Table::new(heap)?,
            draft: None,
        })
    }

    /// The table.
    pub fn table(&self) -> &Table
        ensures { result.now ≡ self.now.table }
    {
        &self.table
    }

    /// Where the editor gets its memory.
    pub fn heap(&self) -> Global
        ensures { result ≡ self.now.heap }
    {
        self.heap
    }

    /// The table, and nothing else.
    pub fn into_table(self) -> Table
        ensures { result ≡ self.table }
    {
        self.table
    }

    /// Refuses where a draft is open.
    pub fn check_idle(&self) -> Result<(), Refusal>
        ensures { result ≡ idle (desk self.now) }
    {
        if self.draft.is_some() {
            return Err(Refusal::DraftOpen);
        }
        Ok(())
    }

    // The numbers come unchecked, as the calls hand them on; `Sporadic` is the struct that has them checked.
    fn may_put(
        &self,
        number: u32,
        place: usize,
        cost: u32,
        period: u32,
        deadline: u32,
    ) -> Result<Sporadic, Refusal>
        ensures { MadeBy (put_answer (desk self.now) number place cost period deadline) (λ s. (s.cost ≡ cost) × (s.period ≡ period) × (s.deadline ≡ deadline)) result }
    {
        check_task(number, place)?;
        let task = Sporadic::new(cost, period, deadline)?;
        self.check_idle()?;
        self.table.may_enter(number, Kind::Sporadic)?;
        Ok(task)
    }

    /// Puts a sporadic task in at a place, or at the end where the place is past it; lower tasks
    /// move down.
    pub fn put(
        &mut self,
        number: u32,
        place: usize,
        cost: u32,
        period: u32,
        deadline: u32,
    ) -> Result<(), Refusal>
        ensures answer { result ≡ put_answer (desk self.old) number place cost period deadline }
        ensures after { desk self.new ≡ after_put (desk self.old) number place cost period deadline }
    {
        let task = self.may_put(number, place, cost, period, deadline)?;
        let _ = self.table.insert(
            place,
            Task {
                number,
                make: Make::Sporadic(task),
            },
        );
        Ok(())
    }

    /// Refuses where a draft is open or there is a task: a whole table may not be put in.
    pub fn may_install(&self) -> Result<(), Refusal>
        ensures { result ≡ install_answer (desk self.now) }
    {
        self.check_idle()?;
        if self.table.count() > 0 {
            return Err(Refusal::HasTasks);
        }
        Ok(())
    }

    /// Puts a whole table in.
    pub fn install(&mut self, table: Table) -> Result<(), Refusal>
        ensures answer { result ≡ install_answer (desk self.old) }
        ensures after { desk self.new ≡ after_install (desk self.old) (items table) }
    {
        self.may_install()?;
        self.table = table;
        Ok(())
    }
}
