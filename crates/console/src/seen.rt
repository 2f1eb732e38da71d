//! What stands after an accepted call, kept to see that a refused one changes nothing.
use crate::lent::Lent;
use bench::bench::Bench;
use bench::ticket::Run;
use bench::verdict::Verdict;
use line::Line;
use line::limits::{MODES, PLACES};
use line::refusal::Refusal;
use save::save::save;
use std::alloc::Global;
use std::array;
use store::load::TEXT;

/// The table's text, the verdict, the bound of each mode by place, its longest time in the run in hand, and the lent
/// memory.
#[derive(Drop)]
pub struct Seen {
    text: Vec<u8>,
    verdict: Option<Verdict>,
    bounds: [[u32; MODES]; PLACES],
    longest: [[u32; MODES]; PLACES],
    lent: Lent,
}

/// The text of the bench's table.
fn text_of(heap: Global, bench: &Bench) -> Result<Vec<u8>, Refusal> {
    let mut text = vec![in heap; 0; TEXT]?;
    let len = save(bench, &mut text)?;
    text.truncate(len);
    Ok(text)
}

/// The bound that is shown of a mode of the task at a place, and 0 where there is none. By place, and so for places and
/// modes that are not there too; a report's goes by number, and what the two share is the one call.
fn bound_at(bench: &Bench, place: usize, mode: usize) -> u32 {
    if mode >= bench.table().modes(place) {
        return 0;
    }
    // Each place and mode has a cell, and 0 is what it holds of one without a bound.
    bench
        .bound(bench.table().number_at(place), mode)
        .unwrap_or(0)
}

/// The bounds that are shown, by place and mode.
fn bounds_of(bench: &Bench) -> [[u32; MODES]; PLACES] {
    array::from_fn(|place| array::from_fn(|mode| bound_at(bench, place, mode)))
}

/// The longest time in a run of a mode of the task at a place, and 0 where there is none.
fn longest_at(bench: &Bench, run: Option<&Run>, place: usize, mode: usize) -> u32 {
    if mode >= bench.table().modes(place) {
        return 0;
    }
    // 0 is what a run answers of a mode without a finished job, and is seen of a stranger's ticket.
    run.and_then(|run| bench.worst(run, bench.table().number_at(place), mode).ok())
        .unwrap_or(0)
}

/// The longest times in a run, by place and mode.
fn longest_of(bench: &Bench, run: Option<&Run>) -> [[u32; MODES]; PLACES] {
    array::from_fn(|place| array::from_fn(|mode| longest_at(bench, run, place, mode)))
}

impl Seen {
    pub(crate) fn new(
        heap: Global,
        bench: &Bench,
        run: Option<&Run>,
        lent: &Lent,
    ) -> Result<Seen, Refusal> {
        let text = text_of(heap, bench)?;
        let lent = lent.clone()?;
        Ok(Seen {
            text,
            verdict: bench.verdict(),
            bounds: bounds_of(bench),
            longest: longest_of(bench, run),
            lent,
        })
    }

    /// Keeps the longest times.
    pub(crate) fn look_at_run(&mut self, bench: &Bench, run: Option<&Run>) {
        self.longest = longest_of(bench, run);
    }

    /// The length of the table's text.
    pub(crate) fn text_len(&self) -> usize {
        self.text.len()
    }

    /// The cells of the list.
    pub(crate) fn list(&self) -> &[u8] {
        &self.lent.list
    }

    /// Whether all is as it was seen.
    pub(crate) fn stands(
        &self,
        heap: Global,
        bench: &Bench,
        run: Option<&Run>,
        lent: &Lent,
    ) -> Result<bool, Refusal> {
        let text = text_of(heap, bench)?;
        Ok(
            self.text == text
                && self.verdict == bench.verdict()
                && self.bounds == bounds_of(bench)
                && self.longest == longest_of(bench, run)
                && self.lent == *lent,
        )
    }
}
