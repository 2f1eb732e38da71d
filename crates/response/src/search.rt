//! The search for one bound.
ghost use Rattle.std.specs.Prelude.{ℕ, ◌<◌, ◌≤◌, length, slice_index};
ghost use Rattle.response.specs.Rows.{Least};

// A cast, since a `usize` is not made from a `u32` by `from`.

/// The least window within the deadline that holds the cost and what the row has for that window.
pub fn least(sums: &[u32], cost: u32, deadline: u32) -> Option<u32>
    requires room { deadline < length sums.now }
    requires small { cost ≤ 1000 }
    requires light { (w : ℕ) → w ≤ deadline → slice_index sums.now w ≤ 16000000 }
    ensures { Least sums.now cost deadline result }
{
    (1..=deadline).find(|window| cost + sums[*window as usize] <= *window)
}
