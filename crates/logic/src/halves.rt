//! The two halves of a word.

ghost use Rattle.std.specs.Prelude.{◌≡◌, ◌^◌, ◌<◌};
ghost use Rattle.logic.specs.Halves.{Consists, Exchanged, halves, left, right, swapped};

use words::HALF_LIMIT;

/// The high 18 bits of a word.
pub fn left(w: u64) -> u64
    ensures value { result ≡ left w }
    ensures narrow { result < 2 ^ 18 }
{
    w / HALF_LIMIT % HALF_LIMIT
}

/// The low 18 bits of a word.
pub fn right(w: u64) -> u64
    ensures value { result ≡ right w }
    ensures narrow { result < 2 ^ 18 }
{
    w % HALF_LIMIT
}

/// The word whose halves are the low 18 bits of `l` and of `r`.
pub fn from_halves(l: u64, r: u64) -> u64
    ensures value { result ≡ halves l r }
    ensures consists { Consists result l r }
    ensures narrow { result < 2 ^ 36 }
{
    l % HALF_LIMIT * HALF_LIMIT + r % HALF_LIMIT
}

/// The word with its halves exchanged.
pub fn swap(w: u64) -> u64
    ensures value { result ≡ swapped w }
    ensures exchanged { Exchanged w result }
    ensures narrow { result < 2 ^ 36 }
{
    from_halves(right(w), left(w))
}
