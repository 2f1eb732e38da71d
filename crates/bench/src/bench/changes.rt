//! The edits after which the table asks for less.
ghost use Rattle.std.specs.Prelude.{◌≡◌, OnOk};
ghost use Rattle.bench.specs.Easing.{Eases};
ghost use Rattle.bench.specs.State.{state, take_answer, after_take, ChangeDone};

use super::Bench;
use line::change::Change;
use line::limits::check_sheet;
use line::refusal::Refusal;
use table::make::check_task;

// The calls stand as they are named, and each names the law, for its caller to read there.

impl Bench {
    /// Takes a task out of the table; lower tasks move up.
    pub fn take(&mut self, number: u32) -> Result<(), Refusal>
        ensures answer { result ≡ take_answer (state self.old) number }
        ensures after { state self.new ≡ after_take (state self.old) number }
        ensures eases { OnOk result (Eases (state self.new).desk.tasks (state self.old).desk.tasks) }
    {
        check_task(number, 0)?;
        self.check_no_run()?;
        self.editor.take(number)?;
        self.forget_verdict();
        Ok(())
    }

    /// Changes a task; where it is angular, the work sheet is filled for it.
    fn change(&mut self, number: u32, change: Change, sheet: &mut [u32]) -> Result<(), Refusal>
        ensures done { ChangeDone (state self.old) number change sheet.old result (state self.new) sheet.new }
        ensures eases { OnOk result (Eases (state self.new).desk.tasks (state self.old).desk.tasks) }
    {
        check_task(number, 0)?;
        change.check()?;
        check_sheet(sheet.len())?;
        self.check_no_run()?;
        self.editor.change(number, change, sheet)?;
        self.forget_verdict();
        Ok(())
    }

    /// Gives a mode of a task a smaller cost.
    pub fn lower(
        &mut self,
        number: u32,
        mode: usize,
        cost: u32,
        sheet: &mut [u32],
    ) -> Result<(), Refusal>
        ensures done { ChangeDone (state self.old) number (Change.Lower mode cost) sheet.old result (state self.new) sheet.new }
        ensures eases { OnOk result (Eases (state self.new).desk.tasks (state self.old).desk.tasks) }
    {
        self.change(number, Change::Lower { mode, cost }, sheet)
    }

    /// Gives a link of a task a larger gap.
    pub fn widen(
        &mut self,
        number: u32,
        from: usize,
        to: usize,
        gap: u32,
        sheet: &mut [u32],
    ) -> Result<(), Refusal>
        ensures done { ChangeDone (state self.old) number (Change.Widen from to gap) sheet.old result (state self.new) sheet.new }
        ensures eases { OnOk result (Eases (state self.new).desk.tasks (state self.old).desk.tasks) }
    {
        self.change(number, Change::Widen { from, to, gap }, sheet)
    }

    /// Strikes a link of a task out.
    pub fn cut(
        &mut self,
        number: u32,
        from: usize,
        to: usize,
        sheet: &mut [u32],
    ) -> Result<(), Refusal>
        ensures done { ChangeDone (state self.old) number (Change.Cut from to) sheet.old result (state self.new) sheet.new }
        ensures eases { OnOk result (Eases (state self.new).desk.tasks (state self.old).desk.tasks) }
    {
        self.change(number, Change::Cut { from, to }, sheet)
    }
}
