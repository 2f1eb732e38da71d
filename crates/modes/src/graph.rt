//! The graph of modes of an angular task, as it is filled.
ghost use Rattle.std.specs.Prelude.{◌≡◌, ◌≤◌, length, vec_len, vec_capacity};
ghost use Rattle.line.specs.Rows.{cells, AllRows};
ghost use Rattle.modes.specs.Plans.{mode_numbers, link_numbers, RightModes, RightGaps};

use line::limits::{GAP, MODES, WINDOW};
use line::refusal::Refusal;

mod calls;

/// A mode: the most ticks that one job in it runs, and its deadline in ticks from release.
#[derive(Clone, Copy, PartialEq, Eq, Debug)]
pub struct Mode {
    pub cost: u32,
    pub deadline: u32,
}

impl Mode {
    /// A mode of that cost and deadline.
    pub fn new(cost: u32, deadline: u32) -> Mode
        ensures { result ≡ record { cost = cost; deadline = deadline } }
    {
        Mode { cost, deadline }
    }
}

/// Up to 16 modes, and for each two of them, in order, the least gap after which the second may
/// follow the first, if it may.
// All rows of gaps stand from the start, and modes are added: the two differ in length.
#[derive(Drop)]
pub struct ModeGraph {
    modes: Vec<Mode>,
    gaps: Vec<[Option<u32>; MODES]>,
    ghost few: { vec_len modes ≤ 16 },
    ghost room: { 16 ≤ vec_capacity modes },
    ghost square: { length (cells gaps.items) ≡ 256 },
    ghost rows: { AllRows gaps.items },
    ghost limits: { RightModes modes.items },
    ghost links: { RightGaps modes.items (cells gaps.items) },
}

// Numbers of a mode or link come unchecked, as the calls hand them on; `Mode` and the graph have them checked.

/// Whether the numbers are those of a mode.
pub fn check_mode(cost: u32, deadline: u32) -> Result<(), Refusal>
    ensures { result ≡ mode_numbers cost deadline }
{
    if cost == 0 || cost > WINDOW || deadline == 0 || deadline > WINDOW {
        return Err(Refusal::OutOfRange);
    }
    if cost > deadline {
        return Err(Refusal::CostAboveDeadline);
    }
    Ok(())
}

/// Whether the numbers are those of a link.
pub fn check_link(from: usize, to: usize, gap: u32) -> Result<(), Refusal>
    ensures { result ≡ link_numbers from to gap }
{
    if from >= MODES || to >= MODES || gap == 0 || gap > GAP {
        return Err(Refusal::OutOfRange);
    }
    Ok(())
}
