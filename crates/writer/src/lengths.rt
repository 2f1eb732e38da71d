//! How many bytes a line takes.
ghost use Rattle.std.specs.Prelude.{◌≡◌, ◌≤◌, length, decimal};
ghost use Rattle.forms.specs.Format.{field, fields, spell};
ghost use Rattle.writer.specs.Output.{line_of};

use forms::form::Form;

/// How many digits `n` has.
fn digit_count(n: u32) -> usize
    ensures is { result ≡ length (decimal n) }
    ensures short { result ≤ 10 }
{
    // A cast, since a `usize` is not made from a `u32` by `from`.
    n.checked_ilog10().map_or(1, |tens| tens as usize + 1)
}

/// How many bytes a space and `n` take.
fn field_len(n: u32) -> usize
    ensures is { result ≡ length (field n) }
    ensures short { result ≤ 11 }
{
    digit_count(n) + 1
}

/// How many bytes the numbers of a line take, each with its space.
fn fields_len(numbers: &[u32]) -> usize
    requires { length numbers.now ≤ 4 }
    ensures is { result ≡ length (fields numbers.now) }
    ensures short { result ≤ 44 }
{
    numbers.iter().map(|n| field_len(*n)).sum()
}

/// How many bytes a keyword, its numbers and the end of the line take.
fn words_len(word: &[u8], numbers: &[u32]) -> usize
    requires word { length word.now ≤ 8 }
    requires numbers { length numbers.now ≤ 4 }
    ensures is { result ≡ length (line_of word.now numbers.now) }
    ensures short { result ≤ 53 }
{
    word.len() + fields_len(numbers) + 1
}

/// How many bytes the line of `form` takes: its keyword, its numbers and the line feed.
pub fn form_len(form: Form) -> usize
    ensures is { result ≡ length (spell form) }
    ensures short { result ≤ 53 }
{
    words_len(form.keyword().word(), &form.numbers())
}
