//! What each line of a text does.
ghost use Rattle.std.specs.Prelude.{◌≡◌, ◌≤◌, length, Ok, MatchResult, OnOk};
ghost use Rattle.line.specs.declared.refusal.Refusal.TheVariants.{NoMemory};
ghost use Rattle.table.specs.Tables.{items};
ghost use Rattle.text.specs.Readers.{at};
ghost use Rattle.faults.specs.Faults.{in_task, in_table};
ghost use Rattle.loader.specs.Progress.{beginning, and_go, checked, closing, putting, opening, under_angular, moding, linking, ending, stepping, is_end};
ghost use Rattle.loader.specs.Loaders.{progress, Stepped, Opens, Carries, Onward, Kept, NextDone};

use crate::Loader;
use editor::editor::Editor;
use faults::{LineFault, TableFault, TaskFault};
use forms::form::Form;
use line::Line;
use line::refusal::Refusal;
use std::alloc::Global;
use table::table::Table;
use text::reader::Reader;

/// Every task goes to the end: there is no place past this one.
const END: usize = 15;

// `Kept` says of a line that neither fills a sheet nor could, and `Carries` of one that may close a task, what it leaves:
// results, each of its own kind of line, which no struct could hold. Numbers of a line are widened by `as` where the
// editor takes a mode and where the trailer is compared, since a `usize` is not made from a `u32` by `from`.

impl Loader {
    /// Nothing has been read.
    pub fn new(heap: Global) -> Result<Loader, TableFault>
        ensures { MatchResult result (λ l. progress l ≡ beginning) (λ e. e.0 ≡ NoMemory) }
    {
        let editor = Editor::new(heap)?;
        Ok(Loader { editor, last: 0 })
    }

    /// The table that was read.
    pub fn into_table(self) -> Table
        ensures { items result ≡ (progress self).desk.tasks }
    {
        self.editor.into_table()
    }

    /// Closes the angular task above, if there is one.
    fn close(&mut self, sheet: &mut [u32]) -> Result<(), TaskFault>
        requires { 16016 ≤ length sheet.old }
        ensures step { Stepped (closing (progress self.old)) (λ e. in_task e.0) result (progress self.new) }
        ensures sheet { Carries (progress self.old) sheet.old result (progress self.new) sheet.new }
    {
        if self.editor.is_open() {
            self.editor.close(sheet)?;
        }
        Ok(())
    }

    /// The line of a sporadic task.
    fn put(
        &mut self,
        place: usize,
        number: u32,
        cost: u32,
        period: u32,
        deadline: u32,
    ) -> Result<(), TableFault>
        ensures step { Stepped (putting place number cost period deadline (progress self.old)) (λ e. in_table e.0) result (progress self.new) }
        ensures sheet { Kept (progress self.old) result (progress self.new) }
    {
        self.editor.put(number, END, cost, period, deadline)?;
        self.last = place;
        Ok(())
    }

    /// The first line of an angular task.
    fn open(&mut self, place: usize, number: u32) -> Result<(), TableFault>
        ensures step { Opens (opening place number (progress self.old)) (λ e. in_table e.0) result (progress self.new) }
        ensures sheet { Kept (progress self.old) result (progress self.new) }
    {
        self.editor.open(number, END)?;
        self.last = place;
        Ok(())
    }

    /// Refuses a line that stands only under an angular line.
    fn check_open(&self) -> Result<(), LineFault>
        ensures { result ≡ under_angular (progress self.now) }
    {
        if !self.editor.is_open() {
            return Err(LineFault::text(Refusal::NoForm));
        }
        Ok(())
    }

    fn mode(&mut self, cost: u32, deadline: u32) -> Result<(), TaskFault>
        ensures step { Stepped (moding cost deadline (progress self.old)) (λ e. in_task e.0) result (progress self.new) }
        ensures sheet { Kept (progress self.old) result (progress self.new) }
    {
        self.editor.mode(cost, deadline)?;
        Ok(())
    }

    fn link(&mut self, from: u32, to: u32, gap: u32) -> Result<(), TaskFault>
        ensures step { Stepped (linking from to gap (progress self.old)) (λ e. in_task e.0) result (progress self.new) }
        ensures sheet { Kept (progress self.old) result (progress self.new) }
    {
        self.editor.link(from as usize, to as usize, gap)?;
        Ok(())
    }

    /// The trailer counts the tasks, and has the place where the last one's first line begins.
    fn end(&self, count: u32, place: u32) -> Result<(), LineFault>
        ensures { result ≡ ending count place (progress self.now) }
    {
        if count as usize != self.editor.table().count() || place as usize != self.last {
            return Err(LineFault::text(Refusal::Trailer));
        }
        Ok(())
    }

    // Each closes the task above first: a function around them would take each as a closure to save a line.

    /// A line that begins a sporadic task.
    fn sporadic(
        &mut self,
        at: usize,
        number: u32,
        cost: u32,
        period: u32,
        deadline: u32,
        sheet: &mut [u32],
    ) -> Result<(), LineFault>
        requires { 16016 ≤ length sheet.old }
        ensures step { Stepped (and_go (closing (progress self.old)) (putting at number cost period deadline)) (λ e. e) result (progress self.new) }
        ensures sheet { Carries (progress self.old) sheet.old result (progress self.new) sheet.new }
    {
        self.close(sheet)?;
        self.put(at, number, cost, period, deadline)?;
        Ok(())
    }

    /// A line that begins an angular task.
    fn angular(&mut self, at: usize, number: u32, sheet: &mut [u32]) -> Result<(), LineFault>
        requires { 16016 ≤ length sheet.old }
        ensures step { Opens (and_go (closing (progress self.old)) (opening at number)) (λ e. e) result (progress self.new) }
        ensures sheet { Carries (progress self.old) sheet.old result (progress self.new) sheet.new }
    {
        self.close(sheet)?;
        self.open(at, number)?;
        Ok(())
    }

    /// The trailer.
    fn trailer(&mut self, count: u32, place: u32, sheet: &mut [u32]) -> Result<(), LineFault>
        requires { 16016 ≤ length sheet.old }
        ensures step { Stepped (and_go (closing (progress self.old)) (λ q. checked (ending count place q) (Ok q))) (λ e. e) result (progress self.new) }
        ensures sheet { Carries (progress self.old) sheet.old result (progress self.new) sheet.new }
    {
        self.close(sheet)?;
        self.end(count, place)?;
        Ok(())
    }

    /// What the line that begins at a place does.
    pub fn step(&mut self, at: usize, form: Form, sheet: &mut [u32]) -> Result<(), LineFault>
        requires { 16016 ≤ length sheet.old }
        ensures step { Opens (stepping at form (progress self.old)) (λ e. e) result (progress self.new) }
        ensures sheet { Carries (progress self.old) sheet.old result (progress self.new) sheet.new }
    {
        match form {
            Form::Sporadic {
                number,
                cost,
                period,
                deadline,
            } => { self.sporadic(at, number, cost, period, deadline, sheet) }
            Form::Angular { number } => self.angular(at, number, sheet),
            Form::Mode { cost, deadline } => {
                self.check_open()?;
                self.mode(cost, deadline)?;
                Ok(())
            }
            Form::Link { from, to, gap } => {
                self.check_open()?;
                self.link(from, to, gap)?;
                Ok(())
            }
            Form::End { count, place } => self.trailer(count, place, sheet),
        }
    }

    /// Reads the next line and does what it says; answers whether it was the trailer.
    // Yes or no, and no Option: there is nothing beside it.
    pub fn next(&mut self, reader: &mut Reader<'_>, sheet: &mut [u32]) -> Result<bool, LineFault>
        requires { 16016 ≤ length sheet.old }
        ensures step { NextDone (at reader.old) (progress self.old) result (at reader.new) (progress self.new) }
        ensures sheet { OnOk result (Onward (progress self.old) sheet.old (progress self.new) sheet.new) }
    {
        let place = reader.place();
        let form = reader.read_line()?;
        self.step(place, form, sheet)?;
        Ok(matches!(form, Form::End { .. }))
    }
}
