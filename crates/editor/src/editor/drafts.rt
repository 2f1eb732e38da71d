//! The draft of an angular task.
ghost use Rattle.std.specs.Prelude.{◌≡◌, is_some};
ghost use Rattle.editor.specs.Drafts.{GraphChanged};
ghost use Rattle.editor.specs.Desks.{desk, open_answer, OpenDone, mode_answer, after_mode, linking_answer, after_linking, close_answer, CloseDone, undrafted};

use super::{Editor, Sketch};
use angular::{Angular, new_row};
use line::limits::check_sheet;
use line::refusal::Refusal;
use modes::graph::{ModeGraph, check_link, check_mode};
use table::make::{Kind, Make, Task, check_task};

impl Editor {
    /// Whether a draft is open.
    pub fn is_open(&self) -> bool
        ensures { result ≡ is_some (desk self.now).draft }
    {
        self.draft.is_some()
    }

    fn may_open(&self, number: u32, place: usize) -> Result<(), Refusal>
        ensures { result ≡ open_answer (desk self.now) number place }
    {
        check_task(number, place)?;
        self.check_idle()?;
        self.table.may_enter(number, Kind::Angular)
    }

    /// Opens the draft of an angular task that is to stand at a place.
    pub fn open(&mut self, number: u32, place: usize) -> Result<(), Refusal>
        ensures { OpenDone (desk self.old) number place result (desk self.new) }
    {
        self.may_open(number, place)?;
        let graph = ModeGraph::new(self.heap)?;
        let row = new_row(self.heap)?;
        self.draft = Some(Sketch {
            number,
            place,
            graph,
            row,
        });
        Ok(())
    }

    /// Makes a change of the draft's graph, and answers as it does; without a draft it is refused.
    fn with_graph<F: FnOnce(&mut ModeGraph) -> Result<(), Refusal>>(
        &mut self,
        change: F,
    ) -> Result<(), Refusal>
        requires { F.IsAlwaysCallable change }
        ensures draft { GraphChanged F.FnOnce change self.old.draft result self.new.draft }
        ensures table { self.new.table ≡ self.old.table }
    {
        match &mut self.draft {
            None => Err(Refusal::NoTicket),
            Some(sketch) => change(&mut sketch.graph),
        }
    }

    /// Adds a mode to the draft.
    pub fn mode(&mut self, cost: u32, deadline: u32) -> Result<(), Refusal>
        ensures answer { result ≡ mode_answer (desk self.old) cost deadline }
        ensures after { desk self.new ≡ after_mode (desk self.old) cost deadline }
    {
        check_mode(cost, deadline)?;
        self.with_graph(|graph| graph.add(cost, deadline))
    }

    /// Links two modes of the draft: the second may follow the first after the gap.
    pub fn link(&mut self, from: usize, to: usize, gap: u32) -> Result<(), Refusal>
        ensures answer { result ≡ linking_answer (desk self.old) from to gap }
        ensures after { desk self.new ≡ after_linking (desk self.old) from to gap }
    {
        check_link(from, to, gap)?;
        self.with_graph(|graph| graph.link(from, to, gap))
    }

    fn may_close(&self, cells: usize) -> Result<(), Refusal>
        ensures { result ≡ close_answer (desk self.now) cells }
    {
        check_sheet(cells)?;
        match &self.draft {
            None => Err(Refusal::NoTicket),
            Some(sketch) => sketch.graph.check_whole(),
        }
    }

    /// Puts the draft's task into the table, and fills the work sheet for it.
    pub fn close(&mut self, sheet: &mut [u32]) -> Result<(), Refusal>
        ensures { CloseDone (desk self.old) sheet.old result (desk self.new) sheet.new }
    {
        self.may_close(sheet.len())?;
        if let Some(
            Sketch {
                number,
                place,
                graph,
                row,
            },
        ) = self.draft.take()
        {
            let task = Angular::new(graph, row, sheet);
            let _ = self.table.insert(
                place,
                Task {
                    number,
                    make: Make::Angular(task),
                },
            );
        }
        Ok(())
    }

    /// Forgets the draft, if one is open.
    pub fn abandon(&mut self)
        ensures { desk self.new ≡ undrafted (desk self.old) }
    {
        self.draft = None;
    }
}
