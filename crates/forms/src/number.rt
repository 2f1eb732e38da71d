//! How a number is read.
ghost use Rattle.std.specs.Prelude.{◌≡◌, ◌≤◌, [], ◌∷◌, IfSome};
ghost use Rattle.forms.specs.Numbers.{digits_up_to, plain, number_of};

/// The most digits of a number.
const DIGITS: usize = 6;

/// The largest number of so many digits.
const LARGEST: u64 = 999_999;

/// The digit that no number of two digits or more begins with.
const ZERO: u8 = b'0';

/// A number with one more digit, if the byte is one and the number is then no greater than a limit.
fn digit_more(limit: u64, number: u64, byte: u8) -> Option<u64>
    ensures { result ≡ digits_up_to limit number (byte ∷ []) }
{
    if !byte.is_ascii_digit() {
        return None;
    }
    let number = number.checked_mul(10)?.checked_add(u64::from(byte - ZERO))?;
    if number > limit {
        return None;
    }
    Some(number)
}

/// The number that digits spell, if nothing else stands among them and it is no greater than a limit.
pub fn digits_up_to(limit: u64, digits: &[u8]) -> Option<u64>
    ensures number { result ≡ digits_up_to limit 0 digits.now }
    ensures within { IfSome result (λ n. n ≤ limit) }
{
    digits
        .iter()
        .try_fold(0, |number, byte| digit_more(limit, number, *byte))
}

/// Whether `word` has as many bytes as a number, and no needless zero in front.
fn is_plain(word: &[u8]) -> bool
    ensures { result ≡ plain word.now }
{
    match word {
        [] => false,
        [_] => true,
        [first, ..] => *first != ZERO && word.len() <= DIGITS,
    }
}

/// The number that `word` spells, if it spells one.
pub fn number_of(word: &[u8]) -> Option<u32>
    ensures { result ≡ number_of word.now }
{
    if !is_plain(word) {
        return None;
    }
    // A cast: the limit keeps the number within 32 bits, so `try_from` would refuse nothing.
    digits_up_to(LARGEST, word).map(|number| number as u32)
}
