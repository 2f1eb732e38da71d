//! The memory that is lent to the bench. Its cells begin at a pattern, so that those that a call
//! leaves alone can be told.
ghost use Rattle.std.specs.Prelude.{◌≡◌, ◌≤◌, ℕ, map};
ghost use Rattle.console.specs.Memory.{mixed, digest_of, cells_of, bytes_of};

use calls::call::{Length, Memory};
use line::limits::{LIST, SHEET};
use std::alloc::{AllocError, Global};
use std::iter;
use store::load::TEXT;

/// How many cells a long sheet and a long list have above what is asked for.
const MORE: usize = 16;

/// What a digest is multiplied by for each cell.
const FACTOR: u32 = 16777619;

/// The first cell of a new sheet.
const SHEET_CELL: u32 = 3_000_000;

/// The least byte of a new list.
const LIST_BYTE: u8 = 200;

/// The least byte of a new output.
const OUTPUT_BYTE: u8 = 35;

/// The work sheet, the list of a walk and the output.
#[derive(Clone, PartialEq, Eq, Drop)]
pub struct Lent {
    pub sheet: Vec<u32>,
    pub list: Vec<u8>,
    pub output: Vec<u8>,
}

/// A sheet of that many cells: 3,000,000, 3,000,007 and so on.
fn new_sheet(heap: Global, len: usize) -> Result<Vec<u32>, AllocError> {
    iter::successors(Some(SHEET_CELL), |cell| Some(cell.wrapping_add(7)))
        .take(len)
        .collect(heap)
}

/// Bytes from `least` to `least + 6`, again and again.
// A cast: what is left of a division by 7 is below 256, and `try_from` would need an answer for what never comes.
fn new_bytes(heap: Global, len: usize, least: u8) -> Result<Vec<u8>, AllocError> {
    (0..len)
        .map(|place| least.wrapping_add((place % 7) as u8))
        .collect(heap)
}

// Two functions: one adds cells to what is asked for, the other has one length for every long output.

/// How many cells are lent of a sheet or a list of which `asked` cells are asked for.
fn cells_of(length: Length, asked: usize) -> usize
    requires { asked ≤ 65535 }
    ensures { result ≡ cells_of length asked }
{
    match length {
        Length::Short => asked.saturating_sub(1),
        Length::Fit => asked,
        Length::Long => asked + MORE,
    }
}

/// How many bytes are lent of an output for a text of that length.
fn bytes_of(length: Length, text: usize) -> usize
    ensures { result ≡ bytes_of length text }
{
    match length {
        Length::Short => text.saturating_sub(1),
        Length::Fit => text,
        Length::Long => TEXT,
    }
}

/// A digest with one more cell.
fn mix(value: u32, cell: u32) -> u32
    ensures { result ≡ mixed value cell }
{
    value.wrapping_mul(FACTOR).wrapping_add(cell)
}

/// A cell of lent memory, which stands for a number.
pub(crate) trait Cell: Copy {
    ghost number: { Self → ℕ };

    /// The number.
    fn number(self) -> u32
        ensures { result ≡ number self };
}

impl Cell for u32 {
    ghost number = { λ cell. cell };

    fn number(self) -> u32 {
        self
    }
}

impl Cell for u8 {
    ghost number = { λ byte. byte };

    fn number(self) -> u32 {
        u32::from(self)
    }
}

/// A digest over cells in their order.
#[tactic(auto, unfolding(crate::specs::Memory::digest_of))]
pub(crate) fn digest<C: Cell>(cells: &[C]) -> u32
    ensures { result ≡ digest_of (map C.number cells.now) }
{
    cells
        .iter()
        .map(|cell| cell.number())
        .fold(1, |value, number| mix(value, number))
}

impl Lent {
    /// A sheet and a list of just enough cells, and an output for any text.
    pub(crate) fn new(heap: Global) -> Result<Lent, AllocError> {
        Ok(Lent {
            sheet: new_sheet(heap, SHEET)?,
            list: new_bytes(heap, LIST, LIST_BYTE)?,
            output: new_bytes(heap, TEXT, OUTPUT_BYTE)?,
        })
    }

    /// Makes one of the three anew at a length; `text` is the length of the text to be saved.
    pub(crate) fn lend(
        &mut self,
        heap: Global,
        memory: Memory,
        length: Length,
        text: usize,
    ) -> Result<(), AllocError> {
        match memory {
            Memory::Sheet => self.sheet = new_sheet(heap, cells_of(length, SHEET))?,
            Memory::List => self.list = new_bytes(heap, cells_of(length, LIST), LIST_BYTE)?,
            Memory::Output => self.output = new_bytes(heap, bytes_of(length, text), OUTPUT_BYTE)?,
        }
        Ok(())
    }
}
