//! The worked examples.
ghost use Rattle.std.specs.Prelude.{◌≡◌, length};
ghost use Rattle.cases.specs.Examples.{examples as listed, Worked};

/// How many worked examples there are.
pub const EXAMPLES: usize = 17;

/// In every worked example the definitions give what is wanted; answers how many there are.
pub fn worked_examples() -> usize
    ensures worked { Worked }
    ensures all { result ≡ length listed }
{
    EXAMPLES
}
