//! The words of a line, and the numbers that they spell.
ghost use Rattle.std.specs.Prelude.{◌≡◌, ◌==◌, option_map, position};
ghost use Rattle.calls.specs.Words.{front, behind, number_32};
ghost use Rattle.calls.specs.Lists.{numbers_in};

use arrayvec::ArrayVec;
use forms::number::digits_up_to;
use forms::separator::SPACE;

/// The most numbers of a call.
const NUMBERS: usize = 5;

/// The most digits of a number.
const DIGITS: usize = 10;

/// The place of the first byte `end`, if it comes.
fn place_of(bytes: &[u8], end: u8) -> Option<usize>
    ensures { result ≡ position (λ byte. byte == end) bytes.now }
{
    bytes.iter().position(|byte| *byte == end)
}

/// What stands in front of the first byte `end`, and what follows it, if it comes.
#[tactic(auto, unfolding(crate::specs::Words::prefix_length))]
pub fn cut_at(bytes: &[u8], end: u8) -> (&[u8], Option<&[u8]>)
    ensures front { result.0.now ≡ front bytes.now end }
    ensures behind { option_map (λ rest. rest.now) result.1 ≡ behind bytes.now end }
{
    match place_of(bytes, end) {
        Some(len) => (&bytes[..len], Some(&bytes[len + 1..])),
        None => (bytes, None),
    }
}

/// The number that a word spells, if it is one of 32 bits. Unlike a number of a table's text, it may
/// have up to ten digits, and zeros in front.
#[tactic(auto, unfolding(crate::specs::Words::number_32))]
fn number_of(word: &[u8]) -> Option<u32>
    ensures { result ≡ number_32 word.now }
{
    if word.is_empty() || word.len() > DIGITS {
        return None;
    }
    // A cast: the limit keeps the number within 32 bits, so `try_from` would refuse nothing.
    digits_up_to(u64::from(u32::MAX), word).map(|number| number as u32)
}

/// The numbers of a line after its first word, if each word is one and they are not too many.
pub fn numbers_of(words: Option<&[u8]>) -> Option<ArrayVec<u32, NUMBERS>>
    ensures { option_map (λ numbers. numbers.items) result ≡ numbers_in (option_map (λ w. w.now) words.entry) }
{
    let mut left = words;
    let mut numbers = ArrayVec::new();
    while let Some(text) = left {
        let (word, more) = cut_at(text, SPACE);
        numbers.try_push(number_of(word)?).ok()?;
        left = more;
    }
    Some(numbers)
}
