//! The calls of a draft.
use super::Player;
use crate::answer::Answer;
use bench::ticket::Draft;
use calls::call::Drafting;
use line::refusal::Refusal;

impl Player {
    /// Ends the draft in hand, if there is one.
    pub(super) fn abandon(&mut self) -> Answer {
        match self.draft.take() {
            Some(draft) => {
                self.bench.abandon(draft);
                Answer::Done
            }
            None => Answer::NoDraft,
        }
    }

    /// Takes a draft in hand, and ends another that was there.
    fn hold_draft(&mut self, draft: Draft) {
        if let Some(other) = self.draft.replace(draft) {
            self.bench.abandon(other);
        }
    }

    /// Opens a draft. One that is in hand, a stranger's, is ended where another is handed out.
    fn open(&mut self, number: u32, place: usize) -> Result<(), Refusal> {
        let draft = self.bench.open(number, place)?;
        self.hold_draft(draft);
        Ok(())
    }

    /// Closes the draft in hand; a refused close hands it back.
    fn close(&mut self) -> Answer {
        let Some(draft) = self.draft.take() else {
            return Answer::NoDraft;
        };
        match self.bench.close(draft, &mut self.lent.sheet) {
            Ok(()) => Answer::Done,
            Err((draft, refusal)) => {
                self.hold_draft(draft);
                refusal.into()
            }
        }
    }

    /// A call that opens a draft, or one on the draft in hand.
    pub(super) fn drafting(&mut self, call: Drafting) -> Answer {
        match (call, &self.draft) {
            (Drafting::Open { number, place }, _) => self.open(number, place as usize).into(),
            (Drafting::Close, _) => self.close(),
            (Drafting::Abandon, _) => self.abandon(),
            (_, None) => Answer::NoDraft,
            (Drafting::Mode { cost, deadline }, Some(draft)) => {
                self.bench.mode(draft, cost, deadline).into()
            }
            (Drafting::Link { from, to, gap }, Some(draft)) => self
                .bench
                .link(draft, from as usize, to as usize, gap)
                .into(),
        }
    }
}
