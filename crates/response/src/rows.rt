//! The row of sums: for each window, the most work that the places above can ask for in it.
ghost use Rattle.std.specs.Prelude.{◌≡◌, ◌+◌, ◌≤◌, ◌<◌};
ghost use Rattle.line.specs.Lawful.{Lawful};
ghost use Rattle.response.specs.Bounds.{bound_of};
ghost use Rattle.response.specs.Rows.{Sums};

use crate::search::least;
use line::Line;
use line::limits::WINDOWS;

/// The row of a place: what the places above it can ask for.
#[derive(Drop)]
pub struct Row<'a, L: Line> {
    /// The line.
    pub line: &'a L,
    /// The place.
    pub place: usize,
    /// For each window, the most work that the places above can ask for in it.
    sums: [u32; WINDOWS],
    ghost laws: { Lawful (L.meaning line.now) },
    ghost inside: { place ≤ 16 },
    ghost row: { Sums (L.meaning line.now) place sums },
}

// The laws are asked for where a line comes in; from there on each row has them. A window is widened or narrowed by
// `as`, since it is a number of a line and a place in the row, and 1,000 at most.

impl<'a, L: Line> Row<'a, L> {
    /// The row of the first place of a line: no place is above it.
    pub fn first(line: &'a L) -> Row<'a, L>
        requires { L.lawful line.now }
        ensures line { result.line.now ≡ line.now }
        ensures place { result.place ≡ 0 }
    {
        Row {
            line,
            place: 0,
            sums: [0; WINDOWS],
        }
    }

    /// The row of a place, which is this one's or the next one's.
    pub fn reach(self, place: usize) -> Row<'a, L>
        requires from { self.place ≤ place }
        requires near { place ≤ self.place + 1 }
        requires inside { place ≤ 16 }
        ensures line { result.line.now ≡ self.entry.line.now }
        ensures place { result.place ≡ place }
    {
        // The row of the last place is not left, so what that place can ask for is never added up.
        if self.place < place {
            self.next()
        } else {
            self
        }
    }

    /// The row of the next place: the work of the one that is left is added.
    fn next(self) -> Row<'a, L>
        requires { self.place < 16 }
        ensures line { result.line.now ≡ self.entry.line.now }
        ensures place { result.place ≡ self.entry.place + 1 }
    {
        let Row {
            line,
            place,
            mut sums,
        } = self;
        for (window, sum) in sums.iter_mut().enumerate() {
            *sum += line.most(place, window as u32);
        }
        Row {
            line,
            place: place + 1,
            sums,
        }
    }

    /// The bound of a mode of the place, if it has one.
    pub fn bound(&self, mode: usize) -> Option<u32>
        ensures { result ≡ bound_of (L.meaning self.now.line.now) self.now.place mode }
    {
        least(
            &self.sums,
            self.line.cost(self.place, mode),
            self.line.deadline(self.place, mode),
        )
    }
}
