ghost use Rattle.memory.specs.Access.{Writes};
ghost use Rattle.memory.specs.Cut.{short_cut};
ghost use Rattle.packed.specs.Layout.{unpack, put_word};
ghost use Rattle.packed.specs.Words.{packed_words, packed_rest, narrow-packed};
ghost use Rattle.std.specs.Prelude.{◌≡◌, ℕ, List, is_ok, if◌then◌else◌};
ghost use Rattle.std.specs.Borrow.{GName};

use crate::layout::{get_word, put_word};
use memory::{BLOCK_WORDS, CORE_LIMIT, Core};
use words::Refusal;

/// The words of a block lie in this many bytes.
pub const BLOCK_BYTES: usize = BLOCK_WORDS as usize / 2 * 9;

/// A core over lent bytes, two words in nine.
#[derive(Drop)]
pub struct PackedCore<'a> {
    pub bytes: &'a mut [u8],
}

impl<'a> PackedCore<'a> {
    /// The core over these bytes. Bytes short of a whole pair, and all past the first 262,144 words, are
    /// left over.
    pub fn new(bytes: &'a mut [u8]) -> PackedCore<'a>
        ensures holds { result.bytes.now ≡ bytes.old }
        ensures lent { result.bytes.ghost_name ≡ bytes.entry.ghost_name }
    {
        PackedCore { bytes }
    }
}

#[tactic(auto, using(crate::proofs::Places::places))]
impl<'a> Core for PackedCore<'a> {
    ghost words = { λ c. packed_words c.bytes.now };

    ghost Rest = { GName × List ℕ };

    ghost rest = { λ c. packed_rest c.bytes };

    ghost short = { λ c. short_cut (unpack c.bytes.now) };

    ghost narrow = { λ c. narrow-packed c.bytes.now };

    fn len(&self) -> u64 {
        (self.bytes.len() as u64 / 9 * 2).min(CORE_LIMIT)
    }

    fn read(&self, a: u64) -> Result<u64, Refusal> {
        self.check_address(a)?;
        Ok(get_word(self.bytes, a))
    }

    /// The lent bytes after it: the word's own 36 bits are the word's, and every other bit is as it was.
    fn write(&mut self, a: u64, w: u64) -> Result<(), Refusal>
        ensures does { Writes (packed_words self.old.bytes.now) a w (packed_words self.new.bytes.now) result }
        ensures keeps { packed_rest self.new.bytes ≡ packed_rest self.old.bytes }
        ensures bytes { self.new.bytes.now
            ≡ (if is_ok result then put_word self.old.bytes.now a w else self.old.bytes.now) }
    {
        self.check_write(a, w)?;
        put_word(self.bytes, a, w);
        Ok(())
    }
}

#[cfg(test)]
mod tests {
    use super::*;
    use words::WORD_LIMIT;

    #[test]
    fn the_shared_byte_keeps_the_other_half(rt: HostRuntime) {
        let mut bytes = [0, 0, 0, 0, 0x3c, 0, 0, 0, 5, 0xee];
        let mut core = PackedCore::new(&mut bytes);
        assert_eq!(rt; core.len(), 2);
        assert_eq!(rt; core.read(0), Ok(3));
        assert_eq!(rt; core.write(0, 0x9_0000_0007), Ok(()));
        assert_eq!(rt; core.write(1, 0xa_bcde_f012), Ok(()));
        assert_eq!(rt; core.read(0), Ok(0x9_0000_0007));
        assert_eq!(rt; core.read(2), Err(Refusal::AddressOutsideCore));
        assert_eq!(rt; core.write(2, 0), Err(Refusal::AddressOutsideCore));
        assert_eq!(rt; core.write(2, WORD_LIMIT), Err(Refusal::NotAWord));
        assert_eq!(rt; bytes, [0x90, 0, 0, 0, 0x7a, 0xbc, 0xde, 0xf0, 0x12, 0xee]);
    }
}
