//! Making a bench, and the edits of its table.
ghost use Rattle.std.specs.Prelude.{◌≡◌, MatchResult};
ghost use Rattle.line.specs.declared.refusal.Refusal.TheVariants.{NoMemory};
ghost use Rattle.table.specs.Tables.{items};
ghost use Rattle.bench.specs.State.{state, fresh, edited, no_run, put_answer, after_put, install_answer, after_install};

use super::Bench;
use editor::editor::Editor;
use line::refusal::Refusal;
use response::CELLS;
use sporadic::check_sporadic;
use std::alloc::Global;
use table::make::check_task;
use table::table::Table;

impl Bench {
    /// A bench of that number, with no task, no draft, no verdict and no run.
    pub fn new(id: u32, heap: Global) -> Result<Bench, Refusal>
        ensures { MatchResult result (λ b. state b ≡ fresh id) (λ e. e ≡ NoMemory) }
    {
        let editor = Editor::new(heap)?;
        Ok(Bench {
            id,
            editor,
            verdict: None,
            bounds: [0; CELLS],
            run: None,
        })
    }

    /// Where the bench gets its memory.
    pub fn heap(&self) -> Global
        ensures { result ≡ self.now.editor.heap }
    {
        self.editor.heap()
    }

    /// Puts the verdict back to none and all bounds to 0, as every accepted edit does.
    // Each edit calls it in a line of its own: a function around them would take each as a closure to save two lines.
    pub(crate) fn forget_verdict(&mut self)
        ensures { state self.new ≡ edited (state self.old) (state self.old).desk }
    {
        self.verdict = None;
        self.bounds = [0; CELLS];
    }

    /// Refuses where a run is open.
    pub(crate) fn check_no_run(&self) -> Result<(), Refusal>
        ensures { result ≡ no_run (state self.now) }
    {
        if self.run.is_some() {
            return Err(Refusal::RunOpen);
        }
        Ok(())
    }

    // The numbers are refused first and an open run before a draft, so the editor's checks are called here up to there.

    /// Puts a sporadic task in at a place, or at the end where the place is past it; lower tasks
    /// move down.
    pub fn put(
        &mut self,
        number: u32,
        place: usize,
        cost: u32,
        period: u32,
        deadline: u32,
    ) -> Result<(), Refusal>
        ensures answer { result ≡ put_answer (state self.old) number place cost period deadline }
        ensures after { state self.new ≡ after_put (state self.old) number place cost period deadline }
    {
        check_task(number, place)?;
        check_sporadic(cost, period, deadline)?;
        self.check_no_run()?;
        self.editor.put(number, place, cost, period, deadline)?;
        self.forget_verdict();
        Ok(())
    }

    /// Refuses where a whole table may not be put in: a run or a draft is open, or there is a task.
    pub fn may_install(&self) -> Result<(), Refusal>
        ensures { result ≡ install_answer (state self.now) }
    {
        self.check_no_run()?;
        self.editor.may_install()
    }

    /// Puts a whole table in.
    pub fn install(&mut self, table: Table) -> Result<(), Refusal>
        ensures answer { result ≡ install_answer (state self.old) }
        ensures after { state self.new ≡ after_install (state self.old) (items table) }
    {
        self.check_no_run()?;
        self.editor.install(table)?;
        self.forget_verdict();
        Ok(())
    }
}
