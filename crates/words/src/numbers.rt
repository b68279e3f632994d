// The numbers of a word one by one, from the lowest up.
ghost use Rattle.std.specs.Prelude.{◌≡◌, ◌<◌, ℕ};
ghost use Rattle.std.specs.Iterator.{at_most};
ghost use Rattle.words.specs.Words.{LowestIn, Without};
ghost use Rattle.words.specs.Numbers.{TakesLowest};

// The numbers of a word that are left to come.
#[derive(Drop)]
pub struct Numbers {
    pub left: u32,
}

// The numbers of a word.
pub fn numbers_of(word: u32) -> Numbers
    ensures { result.left ≡ word }
{
    Numbers { left: word }
}

// The word without its lowest number.
fn rest(word: u32) -> u32
    requires { 0 < word }
    ensures { (j : ℕ) → LowestIn word j → Without word j result }
{
    word & (word - 1)
}

impl Iterator for Numbers {
    type Item = usize;

    ghost next_gives = { λ s r t. TakesLowest s.left r t.left };

    ghost remaining = { λ s. at_most s.left };

    fn next(&mut self) -> Option<usize> {
        if self.left == 0 {
            return None;
        }
        let j = super::lowest(self.left);
        self.left = rest(self.left);
        Some(j)
    }
}
