//! The draft of an angular task, by its ticket.
ghost use Rattle.std.specs.Prelude.{◌≡◌};
ghost use Rattle.bench.specs.State.{state, OpenDone, ours, mode_answer, after_mode, link_answer, after_link, CloseWith, CloseDone, after_abandon};

use super::Bench;
use crate::ticket::Draft;
use line::limits::check_sheet;
use line::refusal::Refusal;
use modes::graph::{check_link, check_mode};
use table::make::check_task;

impl Bench {
    /// Opens the draft of an angular task that is to stand at a place, and hands out its ticket.
    pub fn open(&mut self, number: u32, place: usize) -> Result<Draft, Refusal>
        ensures { OpenDone (state self.old) number place result (state self.new) }
    {
        check_task(number, place)?;
        self.check_no_run()?;
        self.editor.open(number, place)?;
        Ok(Draft::of(self.id))
    }

    /// Refuses a stranger's ticket.
    fn check_ticket(&self, draft: &Draft) -> Result<(), Refusal>
        ensures { result ≡ ours (state self.now) draft.now.bench }
    {
        if draft.bench() != self.id {
            return Err(Refusal::NoTicket);
        }
        Ok(())
    }

    /// Adds a mode to the draft.
    pub fn mode(&mut self, draft: &Draft, cost: u32, deadline: u32) -> Result<(), Refusal>
        ensures answer { result ≡ mode_answer (state self.old) draft.now.bench cost deadline }
        ensures after { state self.new ≡ after_mode (state self.old) draft.now.bench cost deadline }
    {
        check_mode(cost, deadline)?;
        self.check_ticket(draft)?;
        self.editor.mode(cost, deadline)
    }

    /// Links two modes of the draft: the second may follow the first after the gap.
    pub fn link(&mut self, draft: &Draft, from: usize, to: usize, gap: u32) -> Result<(), Refusal>
        ensures answer { result ≡ link_answer (state self.old) draft.now.bench from to gap }
        ensures after { state self.new ≡ after_link (state self.old) draft.now.bench from to gap }
    {
        check_link(from, to, gap)?;
        self.check_ticket(draft)?;
        self.editor.link(from, to, gap)
    }

    /// What `close` does once the ticket has been looked at.
    fn close_with(&mut self, draft: &Draft, sheet: &mut [u32]) -> Result<(), Refusal>
        ensures { CloseWith (state self.old) draft.now.bench sheet.old result (state self.new) sheet.new }
    {
        check_sheet(sheet.len())?;
        self.check_ticket(draft)?;
        self.editor.close(sheet)?;
        self.forget_verdict();
        Ok(())
    }

    /// Puts the draft's task into the table, and fills the work sheet for it. A refusal hands the
    /// ticket back.
    pub fn close(&mut self, draft: Draft, sheet: &mut [u32]) -> Result<(), (Draft, Refusal)>
        ensures { CloseDone (state self.old) draft sheet.old result (state self.new) sheet.new }
    {
        match self.close_with(&draft, sheet) {
            Ok(()) => {
                draft.spend();
                Ok(())
            }
            Err(refusal) => Err((draft, refusal)),
        }
    }

    /// Forgets the draft; a stranger's ticket is only ended.
    pub fn abandon(&mut self, draft: Draft)
        ensures { state self.new ≡ after_abandon (state self.old) draft.bench }
    {
        let bench = draft.bench();
        draft.spend();
        if bench == self.id {
            self.editor.abandon();
        }
    }
}
