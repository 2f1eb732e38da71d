//! Changes of a task after which it asks for no more than before.
ghost use Rattle.std.specs.Prelude.{◌≡◌};
ghost use Rattle.line.specs.Meaning.{task_at};
ghost use Rattle.line.specs.Changes.{change_numbers, goes_else, leads_else, LeadsElse, lower_answer, widen_answer, cut_answer, change_answer};

use crate::Line;
use crate::limits::{GAP, MODES, WINDOW};
use crate::refusal::Refusal;

/// A smaller cost, a larger gap, or a link less.
#[derive(Clone, Copy)]
pub enum Change {
    /// A mode gets a smaller cost.
    Lower {
        /// The mode.
        mode: usize,
        /// Its new cost.
        cost: u32,
    },
    /// A link gets a larger gap.
    Widen {
        /// The mode that the link leaves.
        from: usize,
        /// The mode that it leads to.
        to: usize,
        /// Its new gap.
        gap: u32,
    },
    /// A link is struck out.
    Cut {
        /// The mode that the link leaves.
        from: usize,
        /// The mode that it leads to.
        to: usize,
    },
}

impl Change {
    /// Refuses numbers that are out of their ranges.
    pub fn check(self) -> Result<(), Refusal>
        ensures { result ≡ change_numbers self }
    {
        let right = match self {
            Change::Lower { mode, cost } => mode < MODES && cost > 0 && cost <= WINDOW,
            Change::Widen { from, to, gap } => {
                from < MODES && to < MODES && gap > 0 && gap <= GAP
            }
            Change::Cut { from, to } => from < MODES && to < MODES,
        };
        if right {
            Ok(())
        } else {
            Err(Refusal::OutOfRange)
        }
    }
}

/// Whether the mode `b` is another than `to`, and may follow the mode `from`.
fn goes_else<L: Line>(line: &L, place: usize, from: usize, to: usize, b: usize) -> bool
    ensures { result ≡ goes_else (task_at (L.meaning line.now) place).graph from to b }
{
    b != to && line.gap(place, from, b).is_some()
}

/// Whether a mode other than `to` may follow the mode `from` of the task at a place.
fn leads_else<L: Line>(line: &L, place: usize, from: usize, to: usize) -> bool
    ensures { result ≡ leads_else (task_at (L.meaning line.now) place).graph from to (task_at (L.meaning line.now) place).graph.modes }
{
    (0..line.modes(place)).any(|b| goes_else(line, place, from, to, b))
}

/// Whether a mode may get a smaller cost.
fn may_lower<L: Line>(line: &L, place: usize, mode: usize, cost: u32) -> Result<(), Refusal>
    ensures { result ≡ lower_answer (task_at (L.meaning line.now) place).graph mode cost }
{
    if mode >= line.modes(place) {
        return Err(Refusal::NotThere);
    }
    if cost >= line.cost(place, mode) {
        return Err(Refusal::NotReduced);
    }
    Ok(())
}

/// Whether a gap that stands may get larger.
fn may_widen(stands: Option<u32>, gap: u32) -> Result<(), Refusal>
    ensures { result ≡ widen_answer stands gap }
{
    match stands {
        None => Err(Refusal::NotThere),
        Some(g) if gap <= g => Err(Refusal::NotReduced),
        Some(_) => Ok(()),
    }
}

/// Whether a link that stands may be struck out, given whether another one leaves its mode.
// `other` is yes or no, with nothing beside it.
fn may_cut(stands: Option<u32>, other: bool) -> Result<(), Refusal>
    ensures { result ≡ cut_answer stands other }
{
    match stands {
        None => Err(Refusal::NotThere),
        Some(_) if other => Ok(()),
        Some(_) => Err(Refusal::NoLinkOut),
    }
}

/// Whether the task at a place may be changed: the mode or link is there, a cost gets smaller, a gap
/// larger, and a link that is struck out is not the last one out of its mode.
#[tactic(auto, using(crate::proofs::Changing::leads_else_lem))]
pub fn may_change<L: Line>(line: &L, place: usize, change: Change) -> Result<(), Refusal>
    ensures answer { result ≡ change_answer (task_at (L.meaning line.now) place).graph change }
    ensures other { LeadsElse (task_at (L.meaning line.now) place).graph }
{
    match change {
        Change::Lower { mode, cost } => may_lower(line, place, mode, cost),
        Change::Widen { from, to, gap } => may_widen(line.gap(place, from, to), gap),
        Change::Cut { from, to } => may_cut(
            line.gap(place, from, to),
            leads_else(line, place, from, to),
        ),
    }
}
