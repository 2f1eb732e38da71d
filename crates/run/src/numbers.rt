//! The numbers that a run is handed, and their ranges.
ghost use Rattle.std.specs.Prelude.{◌≡◌};
ghost use Rattle.run.specs.Calls.{job_numbers, tick_numbers};

use crate::ADVANCE;
use line::limits::{MODES, WINDOW};
use line::refusal::Refusal;

/// Whether a job's mode and cost are in their ranges: 0 to 15, and 1 to 1,000.
pub fn check_job(mode: usize, cost: u32) -> Result<(), Refusal>
    ensures { result ≡ job_numbers mode cost }
{
    if mode >= MODES || cost == 0 || cost > WINDOW {
        return Err(Refusal::OutOfRange);
    }
    Ok(())
}

/// Whether an advance may be by so many ticks: 1 to 1,000.
pub fn check_ticks(ticks: u32) -> Result<(), Refusal>
    ensures { result ≡ tick_numbers ticks }
{
    if ticks == 0 || ticks > ADVANCE {
        return Err(Refusal::OutOfRange);
    }
    Ok(())
}
