ghost use Rattle.shifts.specs.Pair.{halves, paired};
ghost use Rattle.std.specs.Prelude.{◌≡◌, ◌%◌, ◌^◌, ◌<◌};

use crate::bits::Bits;
use words::WORD_LIMIT;

/// Two words. Side by side they are one number of 72 bits, with the first in the high half.
#[derive(Clone, Copy, PartialEq, Eq, Debug)]
pub struct WordPair {
    pub first: u64,
    pub second: u64,
    pub ghost narrow_first: { first < 2 ^ 36 },
    pub ghost narrow_second: { second < 2 ^ 36 },
}

impl WordPair {
    ghost use Rattle.shifts.specs.WordPair.{words_of};

    /// The low 36 bits of each of two numbers.
    pub(crate) fn low(a: u64, b: u64) -> Self
        ensures { words_of result ≡ (a % 2 ^ 36, b % 2 ^ 36) }
    {
        WordPair {
            first: a % WORD_LIMIT,
            second: b % WORD_LIMIT,
        }
    }
}

/// The two words side by side.
impl From<WordPair> for Bits<72> {
    ghost from_gives = { λ words bits. bits.number ≡ paired words.first words.second };

    fn from(words: WordPair) -> Bits<72> {
        Bits {
            number: (u128::from(words.first) << 36) + u128::from(words.second),
        }
    }
}

/// The two words of what stands side by side.
impl From<Bits<72>> for WordPair {
    ghost use Rattle.shifts.specs.WordPair.{words_of};

    ghost from_gives = { λ bits words. words_of words ≡ halves bits.number };

    fn from(bits: Bits<72>) -> WordPair {
        WordPair {
            first: (bits.number >> 36) as u64,
            second: (bits.number % u128::from(WORD_LIMIT)) as u64,
        }
    }
}
