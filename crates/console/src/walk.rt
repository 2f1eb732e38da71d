//! A walk that was written: its line, and its work and gaps by the table's own answers.
ghost use Rattle.std.specs.Prelude.{◌≡◌, string_bytes, IfOk};
ghost use Rattle.console.specs.Words.{shown_line};

use line::Line;
use std::alloc::{AllocError, Global};
use table::table::Table;

// A table, a place in it and a walk there go together here alone: each question takes them once, and nothing keeps them.

/// The work of a list of modes of the task at a place: the sum of their costs.
pub(crate) fn work_of(table: &Table, place: usize, walk: &[u8]) -> u32 {
    walk.iter().fold(0, |work: u32, mode| {
        work.saturating_add(table.cost(place, usize::from(*mode)))
    })
}

/// The sum of the gaps of a walk, of which `rest` are the modes after the first, if each of them has
/// one from the mode before.
fn span_of(table: &Table, place: usize, walk: &[u8], rest: &[u8]) -> Option<u32> {
    walk.iter().zip(rest).try_fold(0, |span: u32, (from, to)| {
        let gap = table.gap(place, usize::from(*from), usize::from(*to))?;
        Some(span.saturating_add(gap))
    })
}

/// Whether a list of modes is a walk that fits a window: none, or modes of the task, each linked to
/// the next, whose gaps add up to less than the window.
pub(crate) fn is_fitting(table: &Table, place: usize, walk: &[u8], window: u32) -> bool {
    match walk {
        [] => true,
        [first, rest @ ..] => span_of(table, place, walk, rest).is_some_and(|span| usize::from(
            *first,
        ) < table.modes(place)
            && span < window),
    }
}

/// Whether the cells from `len` on are as they were.
pub(crate) fn is_kept(list: &[u8], was: &[u8], len: usize) -> bool {
    len <= list.len() && len <= was.len() && list[len..] == was[len..]
}

/// The line of a walk: how many modes it has, and its modes.
pub(crate) fn shown_line(heap: Global, walk: &[u8]) -> Result<String, AllocError>
    ensures { IfOk result (λ s. string_bytes s ≡ shown_line walk.now) }
{
    let mut line = String::new(heap);
    let len = walk.len();
    write!(line, "{len}")?;
    for mode in walk {
        write!(line, " {mode}")?;
    }
    writeln!(line)?;
    Ok(line)
}
