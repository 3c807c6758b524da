ghost use Rattle.std.specs.Prelude.{◌≡◌, OnOk};
ghost use Rattle.packed.specs.Layout.{pack as packed, unpack as unpacked};
ghost use Rattle.packed.specs.Packing.{Packs, Unpacks};

use crate::layout::{get_word, put_word};
use words::all_words;

/// Why nothing was packed or unpacked. Where several hold, the first of them is given.
#[derive(Clone, Copy, PartialEq, Eq, Debug)]
pub enum PackingError {
    /// The words are not whole pairs.
    NotWholePairs,
    /// The bytes are not whole nines.
    NotWholeNines,
    /// The buffer is longer or shorter than what it is to take.
    WrongLength,
    /// A number is not below 2^36.
    NotAWord,
}

/// Packs whole pairs of words into a buffer of nine bytes for each.
pub fn pack(words: &[u64], bytes: &mut [u8]) -> Result<(), PackingError>
    ensures packs { Packs words.now bytes.old bytes.new result }
    ensures unpacks_to_the_same { OnOk result (unpacked bytes.new ≡ words.now) }
{
    if words.len() % 2 != 0 {
        return Err(PackingError::NotWholePairs);
    }
    if bytes.len() != words.len() / 2 * 9 {
        return Err(PackingError::WrongLength);
    }
    if !all_words(words) {
        return Err(PackingError::NotAWord);
    }
    // Where a word lies among the bytes is said in `layout` alone. Pair by pair, since the compiler then knows of each word
    // which of its pair it is.
    for i in 0..words.len() / 2 {
        let k = 2 * i;
        put_word(bytes, k as u64, words[k]);
        put_word(bytes, k as u64 + 1, words[k + 1]);
    }
    Ok(())
}

/// Unpacks whole nines of bytes into a buffer of two words for each.
pub fn unpack(bytes: &[u8], words: &mut [u64]) -> Result<(), PackingError>
    ensures unpacks { Unpacks bytes.now words.old words.new result }
    ensures packs_to_the_same { OnOk result (packed words.new ≡ bytes.now) }
{
    if bytes.len() % 9 != 0 {
        return Err(PackingError::NotWholeNines);
    }
    if words.len() != bytes.len() / 9 * 2 {
        return Err(PackingError::WrongLength);
    }
    // Word by word, since reading one looks at no other.
    for (k, word) in words.iter_mut().enumerate() {
        *word = get_word(bytes, k as u64);
    }
    Ok(())
}

#[cfg(test)]
mod tests {
    use super::*;
    use words::WORD_LIMIT;

    #[test]
    fn no_bits_and_all_bits(rt: HostRuntime) {
        let mut bytes = [0x55; 9];
        assert_eq!(rt; pack(&[0, 0o777777_777777], &mut bytes), Ok(()));
        assert_eq!(rt; bytes, [0, 0, 0, 0, 0x0f, 0xff, 0xff, 0xff, 0xff]);
        let mut words = [0; 2];
        assert_eq!(rt; unpack(&bytes, &mut words), Ok(()));
        assert_eq!(rt; words, [0, 0o777777_777777]);
    }

    #[test]
    fn refused_before_anything_is_written(rt: HostRuntime) {
        let mut bytes = [0x55; 9];
        assert_eq!(rt; pack(&[1], &mut bytes), Err(PackingError::NotWholePairs));
        assert_eq!(rt;
            pack(&[1, 2, 3, 4], &mut bytes),
            Err(PackingError::WrongLength)
        );
        assert_eq!(rt;
            pack(&[1, WORD_LIMIT], &mut bytes),
            Err(PackingError::NotAWord)
        );
        assert_eq!(rt; bytes, [0x55; 9]);
        let mut words = [7; 2];
        assert_eq!(rt;
            unpack(&[0; 8], &mut words),
            Err(PackingError::NotWholeNines)
        );
        assert_eq!(rt;
            unpack(&[0; 18], &mut words),
            Err(PackingError::WrongLength)
        );
        assert_eq!(rt; words, [7; 2]);
    }
}
