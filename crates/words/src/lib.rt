// Words of lots or calls: a number below 32 is in a word where that bit of it is set.
#![tactic(auto)]

pub mod numbers;

ghost use Rattle.std.specs.Prelude.{true, ◌<◌};
ghost use Rattle.words.specs.Words.{LowestIn, HighestIn, Below, Without, Minus, Either, IncludingIf};

// The lowest number in a word.
pub fn lowest(word: u32) -> usize
    requires { 0 < word }
    ensures { LowestIn word result × (result < 32) }
{
    word.trailing_zeros() as usize
}

// The highest number in a word.
pub fn highest(word: u32) -> usize
    requires { 0 < word }
    ensures { HighestIn word result × (result < 32) }
{
    (31 - word.leading_zeros()) as usize
}

// The numbers of a word below one.
pub fn below(word: u32, j: usize) -> u32
    ensures { Below word j result }
{
    if 32 <= j { word } else { word % (1 << j) }
}

// The numbers of a word that are not in another.
pub fn minus(word: u32, other: u32) -> u32
    ensures { Minus word other result }
{
    word & !other
}

// The numbers in either word.
pub fn either(a: u32, b: u32) -> u32
    ensures { Either a b result }
{
    a | b
}

// The word without a number.
pub fn without(word: u32, j: usize) -> u32
    requires { j < 32 }
    ensures { Without word j result }
{
    word & !(1 << j)
}

// The word with a number.
pub fn including(word: u32, j: usize) -> u32
    requires { j < 32 }
    ensures { IncludingIf true word j result }
{
    word | (1 << j)
}

// The word with a number where the test holds, and else as it was.
pub fn including_if(test: bool, word: u32, j: usize) -> u32
    requires { j < 32 }
    ensures { IncludingIf test word j result }
{
    word | (u32::from(test) << j)
}
