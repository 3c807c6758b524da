//! Words as signed numbers, in two's complement.

ghost use Rattle.std.specs.Prelude.{◌≡◌};
ghost use Rattle.words.specs.Signed.{signed};

use words::{WORD_LIMIT, is_negative};

/// The number that a word stands for.
pub(crate) fn signed(word: u64) -> i64
    ensures { result ≡ signed word }
{
    let low = (word % WORD_LIMIT) as i64;
    if is_negative(word) {
        low - (1 << 36)
    } else {
        low
    }
}
