//! How a line is written.
ghost use Rattle.std.specs.Prelude.{◌≡◌, ◌+◌, ◌%◌, ◌<◌, ◌≤◌, [], ◌∷◌, length, decimal};
ghost use Rattle.forms.specs.Format.{field, spell};
ghost use Rattle.writer.specs.Output.{overwrite, line_of, Wrote, WriteDone};

use crate::lengths::form_len;
use forms::form::Form;
use forms::separator::{LINE_FEED, SPACE};

// The output is lent, and the place goes beside it: a cursor that held the output would have to say in each
// contract that it is still the caller's. A line is written byte by byte into it, and not by `Display`, since its end
// content is promised where there is no heap to make a text first.

// A cast: a digit is below 10, and `try_from` would need an answer for what never comes.

/// The last digit of `n`.
fn last_digit(n: u32) -> u8
    ensures { result ≡ 48 + n % 10 }
{
    b'0' + (n % 10) as u8
}

/// Writes the digits of `n` from `at` on, and answers the place after them.
fn write_number(out: &mut [u8], at: usize, n: u32) -> usize
    requires room { at + length (decimal n) ≤ length out.old }
    ensures end { result ≡ at + length (decimal n) }
    ensures bytes { out.new ≡ overwrite out.old at (decimal n) }
{
    let place = if n >= 10 {
        write_number(out, at, n / 10)
    } else {
        at
    };
    out[place] = last_digit(n);
    place + 1
}

/// Writes `bytes` from `at` on, and answers the place after them.
fn write_bytes(out: &mut [u8], at: usize, bytes: &[u8]) -> usize
    requires room { at + length bytes.now ≤ length out.old }
    ensures end { result ≡ at + length bytes.now }
    ensures bytes { out.new ≡ overwrite out.old at bytes.now }
{
    let end = at + bytes.len();
    out[at..end].copy_from_slice(bytes);
    end
}

/// Writes a byte at `at`, and answers the place after it.
fn write_byte(out: &mut [u8], at: usize, byte: u8) -> usize
    requires { at < length out.old }
    ensures { Wrote out.old at (byte ∷ []) out.new result }
{
    out[at] = byte;
    at + 1
}

/// Writes a space and `n` from `at` on, and answers the place after them.
fn write_field(out: &mut [u8], at: usize, n: u32) -> usize
    requires { at + length (field n) ≤ length out.old }
    ensures { Wrote out.old at (field n) out.new result }
{
    let place = write_byte(out, at, SPACE);
    write_number(out, place, n)
}

/// Writes a word, its numbers and the end of the line from `at` on, and answers the place after
/// them.
fn write_words(out: &mut [u8], at: usize, key: &[u8], numbers: &[u32]) -> usize
    requires { at + length (line_of key.now numbers.now) ≤ length out.old }
    ensures { Wrote out.old at (line_of key.now numbers.now) out.new result }
{
    let mut place = write_bytes(out, at, key);
    for n in numbers {
        place = write_field(out, place, *n);
    }
    write_byte(out, place, LINE_FEED)
}

/// Writes the line of `form` where there is room for it, and answers the place after it.
fn put_form(out: &mut [u8], at: usize, form: Form) -> usize
    requires { at + length (spell form) ≤ length out.old }
    ensures { Wrote out.old at (spell form) out.new result }
{
    write_words(out, at, form.keyword().word(), &form.numbers())
}

/// Writes the line of `form` from `at` on, and answers the place after it. Where there is no room
/// for the whole line, nothing is written.
pub fn write_form(out: &mut [u8], at: usize, form: Form) -> Option<usize>
    ensures { WriteDone out.old at (spell form) out.new result }
{
    if at > out.len() || form_len(form) > out.len() - at {
        return None;
    }
    Some(put_form(out, at, form))
}
