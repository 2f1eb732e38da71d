//! Two lines joined, the first one's places on top.
ghost use Rattle.std.specs.Prelude.{◌≡◌, ℕ, ◌+◌, length};
ghost use Rattle.line.specs.Joins.{Joinable, joined_ghosts, join_answer, joined_leaves, side_of, SideShown};
ghost use Rattle.line.specs.Shows.{show_answer};
ghost use Rattle.line.specs.Joining.{joined_lawful};

use crate::limits::{LIST, PLACES, SHEET, WINDOW};
use crate::refusal::Refusal;
use crate::{ExactLine, Line};

/// The places of `0`, and below them those of `1`.
#[derive(Drop)]
pub struct Joined<Top, Low>(Top, Low);

/// Whether two lines may be joined: together they have at most 16 tasks.
pub fn may_join<Top: Line, Low: Line>(top: &Top, low: &Low) -> Result<(), Refusal>
    ensures { result ≡ join_answer (Top.Line.meaning top.now) (Low.Line.meaning low.now) }
{
    if top.count().saturating_add(low.count()) > PLACES {
        return Err(Refusal::NoRoom);
    }
    Ok(())
}

/// Joins two lines that keep the limits and laws and that `may_join`.
pub fn join<Top: Line, Low: Line>(top: Top, low: Low) -> Joined<Top, Low>
    requires { Joinable Top.Line Low.Line top low }
    ensures lawful { (joined_ghosts Top.Line Low.Line).lawful result }
    ensures parts { (result.0 ≡ top) × (result.1 ≡ low) }
{
    Joined(top, low)
}

/// Where a place of a joined line lies: in the first line or in the second, and at which place of it.
#[derive(Clone, Copy)]
pub enum Side {
    Top(usize),
    Low(usize),
}

impl<Top: Line, Low: Line> Joined<Top, Low> {
    /// Where a place lies, if it is not past both lines.
    fn side(&self, place: usize) -> Option<Side>
        ensures { result ≡ side_of (Top.Line.meaning self.now.0).count place }
    {
        let above = self.0.count();
        if place >= PLACES {
            None
        } else if place < above {
            Some(Side::Top(place))
        } else {
            Some(Side::Low(place - above))
        }
    }
}

// A match in each question: each asks a part for something else, and a part could be handed out only as a `dyn`. Past
// both lines the answer is 0 and no Option, as every line has it (docs/MODEL.md).

impl<Top: Line, Low: Line> Line for Joined<Top, Low> {
    ghost meaning = { (joined_ghosts Top.Line Low.Line).meaning };

    ghost lawful = { (joined_ghosts Top.Line Low.Line).lawful };

    ghost keeps = { λ x h. joined_lawful (Top.Line.meaning x.0) (Low.Line.meaning x.1) (Top.Line.keeps x.0 h.top) (Low.Line.keeps x.1 h.low) };

    fn count(&self) -> usize {
        self.0.count().saturating_add(self.1.count()).min(PLACES)
    }

    fn modes(&self, place: usize) -> usize {
        match self.side(place) {
            Some(Side::Top(k)) => self.0.modes(k),
            Some(Side::Low(k)) => self.1.modes(k),
            None => 0,
        }
    }

    fn cost(&self, place: usize, mode: usize) -> u32 {
        match self.side(place) {
            Some(Side::Top(k)) => self.0.cost(k, mode),
            Some(Side::Low(k)) => self.1.cost(k, mode),
            None => 0,
        }
    }

    fn deadline(&self, place: usize, mode: usize) -> u32 {
        match self.side(place) {
            Some(Side::Top(k)) => self.0.deadline(k, mode),
            Some(Side::Low(k)) => self.1.deadline(k, mode),
            None => 0,
        }
    }

    fn gap(&self, place: usize, from: usize, to: usize) -> Option<u32> {
        match self.side(place) {
            Some(Side::Top(k)) => self.0.gap(k, from, to),
            Some(Side::Low(k)) => self.1.gap(k, from, to),
            None => None,
        }
    }

    fn most(&self, place: usize, window: u32) -> u32 {
        match self.side(place) {
            Some(Side::Top(k)) => self.0.most(k, window),
            Some(Side::Low(k)) => self.1.most(k, window),
            None => 0,
        }
    }
}

/// Whether a line of `count` tasks may show the task at a place: the refusals of `show`.
pub fn may_show(
    count: usize,
    place: usize,
    window: u32,
    sheet: usize,
    list: usize,
) -> Result<(), Refusal>
    ensures { result ≡ show_answer count place window sheet list }
{
    if place >= PLACES || window > WINDOW {
        return Err(Refusal::OutOfRange);
    }
    // Both lengths in one test, since they are one refusal.
    if sheet < SHEET || list < LIST {
        return Err(Refusal::TooShort);
    }
    if place >= count {
        return Err(Refusal::NotThere);
    }
    Ok(())
}

impl<Top: ExactLine, Low: ExactLine> Joined<Top, Low> {
    /// Has the line that holds a task show it.
    fn show_on(
        &self,
        side: Option<Side>,
        window: u32,
        sheet: &mut [u32],
        list: &mut [u8],
    ) -> Result<usize, Refusal>
        ensures { SideShown (Top.Line.meaning self.now.0) (Low.Line.meaning self.now.1) (Top.ExactLine.leaves self.now.0) (Low.ExactLine.leaves self.now.1) side window sheet.old sheet.new list.old list.new result }
    {
        match side {
            Some(Side::Top(k)) => self.0.show(k, window, sheet, list),
            Some(Side::Low(k)) => self.1.show(k, window, sheet, list),
            None => Err(Refusal::OutOfRange),
        }
    }
}

impl<Top: ExactLine, Low: ExactLine> ExactLine for Joined<Top, Low> {
    ghost leaves = { joined_leaves Top.Line Low.Line (record { leaves = Top.ExactLine.leaves }) (record { leaves = Low.ExactLine.leaves }) };

    fn show(
        &self,
        place: usize,
        window: u32,
        sheet: &mut [u32],
        list: &mut [u8],
    ) -> Result<usize, Refusal> {
        may_show(self.count(), place, window, sheet.len(), list.len())?;
        self.show_on(self.side(place), window, sheet, list)
    }
}
