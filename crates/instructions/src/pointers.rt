//! Pointers: a count in the left half, an address in the right half.

ghost use Rattle.std.specs.Prelude.{◌≡◌, ◌^◌, ◌<◌};
ghost use Rattle.instructions.specs.Pointers.{pointer_down, pointer_up};

use words::WORD_LIMIT;

/// 1 in both halves. It is added as one number, so that a carry out of the right half goes into the left one.
const BOTH_HALVES: u64 = 0o000001_000001;

/// 1 added to both halves.
pub(crate) fn pointer_up(word: u64) -> u64
    ensures value { result ≡ pointer_up word }
    ensures narrow { result < 2 ^ 36 }
{
    (word % WORD_LIMIT + BOTH_HALVES) % WORD_LIMIT
}

/// 1 taken from both halves.
pub(crate) fn pointer_down(word: u64) -> u64
    ensures value { result ≡ pointer_down word }
    ensures narrow { result < 2 ^ 36 }
{
    (word % WORD_LIMIT + WORD_LIMIT - BOTH_HALVES) % WORD_LIMIT
}
