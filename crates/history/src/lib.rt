//! Histories of a bench: every list of calls on it, and what they all keep.
//!
//! A list may have put, open, mode, link, close, abandon, take, lower, widen, cut, load, judge,
//! begin, release, advance and stop, in any order and number, with any numbers, texts and lent
//! memory, refused calls and strangers' tickets included. Each call does what its own contract says.
#![tactic(auto)]

ghost use Rattle.std.specs.Prelude.{◌≡◌, MatchResult, IfOk};
ghost use Rattle.line.specs.declared.refusal.Refusal.TheVariants.{NoMemory};
ghost use Rattle.bench.specs.State.{state, fresh};
ghost use Rattle.history.specs.Guarantees.{InTime, StaysFit};

use bench::bench::Bench;
use line::refusal::Refusal;
use std::alloc::Global;

/// A bench of that number, with no task, no draft, no verdict and no run.
///
/// After every list of calls on it: while the verdict reads fits, no advance reports a late job, and
/// no job that finished in the open run took longer than the bound shown for its mode; and once a
/// judge has answered fits, every later one does, with no greater bound for any mode, as long as no
/// edit but lower, widen, cut and take is accepted.
pub fn new_bench(id: u32, heap: Global) -> Result<Bench, Refusal>
    ensures new { MatchResult result (λ b. state b ≡ fresh id) (λ e. e ≡ NoMemory) }
    ensures in_time { IfOk result InTime }
    ensures stays_fit { IfOk result StaysFit }
{
    Bench::new(id, heap)
}
