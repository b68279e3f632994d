// Bits of an eligibility word. Bit 0 is the lowest; no bit from 32 on is set.
ghost use Rattle.std.specs.Prelude.{◌≡◌, ◌^◌, leb};
ghost use Rattle.std.specs.Int.Count.{ones};
ghost use Rattle.specification.specs.Book.{bit};
ghost use Rattle.rows.specs.Words.{ones_below};

// Whether bit j is set.
pub fn is_set(word: u32, j: usize) -> bool
    ensures { result ≡ bit word j }
{
    j < 32 && (word >> j) % 2 == 1
}

// Whether bit j or a higher one is set.
pub fn reaches(word: u32, j: usize) -> bool
    ensures { result ≡ leb (2 ^ j) word }
{
    j < 32 && 1 << j <= word
}

// How many bits are set, and how many below bit j.
pub fn count(word: u32) -> usize
    ensures { result ≡ ones word }
{
    word.count_ones() as usize
}

pub fn count_below(word: u32, j: usize) -> usize
    ensures { result ≡ ones_below word j }
{
    if 32 <= j {
        count(word)
    } else {
        count(word % (1 << j))
    }
}
