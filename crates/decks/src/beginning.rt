ghost use Rattle.std.specs.Prelude.{◌≡◌, ℕ, ◌%◌, ◌^◌, ◌<◌, slice_index};
ghost use Rattle.words.specs.Word.{Narrow};

use std::array;
use words::WORD_LIMIT;

/// The low 36 bits of word `k` of a deck, and 0 where the deck has none.
fn word_at(deck: &[u64], k: usize) -> u64
    ensures { result ≡ slice_index deck.now k % 2 ^ 36 }
{
    deck.get(k).map_or(0, |w| w % WORD_LIMIT)
}

/// The accumulators that a deck's program begins with: the low 36 bits of its first sixteen words, and 0 for
/// each that the deck does not have.
pub fn accumulators(deck: &[u64]) -> [u64; 16]
    ensures value { (k : ℕ) → k < 16 → slice_index result k ≡ slice_index deck.now k % 2 ^ 36 }
    ensures narrow { Narrow result }
{
    array::from_fn(|k| word_at(deck, k))
}
