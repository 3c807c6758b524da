ghost use Rattle.words.specs.Bits.{complement};
ghost use Rattle.words.specs.Signed.{is_negative};
ghost use Rattle.words.specs.Word.{are_words, ChecksWord};
ghost use Rattle.std.specs.Prelude.{◌≡◌, ◌^◌, ◌<◌};

use crate::refusal::Refusal;

/// One more than the greatest word: a word is a whole number below this.
///
/// It is a plain number and has no type of its own: a function takes the low 36 bits of any number, and a parameter of such a
/// type would ask its callers for more.
pub const WORD_LIMIT: u64 = 1 << 36;

/// One more than the greatest half of a word, which is one more than the greatest address.
pub const HALF_LIMIT: u64 = 1 << 18;

/// Bit 0 of a word, the highest: it is set in a negative number.
pub const SIGN_BIT: u64 = 1 << 35;

/// Whether every number is a word.
pub fn all_words(numbers: &[u64]) -> bool
    ensures { result ≡ are_words numbers.now }
{
    numbers.iter().all(|&n| n < WORD_LIMIT)
}

/// Refuses a number that is no word.
pub fn check_word(w: u64) -> Result<(), Refusal>
    ensures { ChecksWord w result }
{
    if w >= WORD_LIMIT {
        return Err(Refusal::NotAWord);
    }
    Ok(())
}

/// The other of each of the low 36 bits.
pub fn complement(w: u64) -> u64
    ensures value { result ≡ complement w }
    ensures narrow { result < 2 ^ 36 }
{
    !w % WORD_LIMIT
}

/// Whether bit 0 of the low 36 bits is set.
pub fn is_negative(w: u64) -> bool
    ensures { result ≡ is_negative w }
{
    w % WORD_LIMIT >= SIGN_BIT
}
