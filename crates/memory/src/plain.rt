ghost use Rattle.memory.specs.Access.{Writes};
ghost use Rattle.memory.specs.Cut.{short_cut};
ghost use Rattle.memory.specs.Plain.{lows, plain_words, plain_rest, narrow-lows};
ghost use Rattle.std.specs.Prelude.{◌≡◌, ℕ, List, is_ok, if◌then◌else◌, slice_set};
ghost use Rattle.std.specs.Borrow.{GName};

use crate::core_trait::{CORE_LIMIT, Core};
use words::{Refusal, WORD_LIMIT};

/// A core over lent numbers of 64 bits. A word is the low 36 bits of its number.
#[derive(Drop)]
pub struct PlainCore<'a> {
    pub cells: &'a mut [u64],
}

impl<'a> PlainCore<'a> {
    /// The core over these numbers. Numbers past the first 262,144 are left over.
    pub fn new(cells: &'a mut [u64]) -> PlainCore<'a>
        ensures holds { result.cells.now ≡ cells.old }
        ensures lent { result.cells.ghost_name ≡ cells.entry.ghost_name }
    {
        PlainCore { cells }
    }
}

#[tactic(auto, using(crate::specs::Plain::plains))]
impl<'a> Core for PlainCore<'a> {
    ghost words = { λ c. plain_words c.cells.now };

    ghost Rest = { GName × List ℕ };

    ghost rest = { λ c. plain_rest c.cells };

    ghost short = { λ c. short_cut (lows c.cells.now) };

    ghost narrow = { λ c. narrow-lows c.cells.now };

    fn len(&self) -> u64 {
        (self.cells.len() as u64).min(CORE_LIMIT)
    }

    fn read(&self, a: u64) -> Result<u64, Refusal> {
        self.check_address(a)?;
        Ok(self.cells[a as usize] % WORD_LIMIT)
    }

    /// The lent numbers after it: one is now exactly the word, and the others are as they were.
    fn write(&mut self, a: u64, w: u64) -> Result<(), Refusal>
        ensures does { Writes (plain_words self.old.cells.now) a w (plain_words self.new.cells.now) result }
        ensures keeps { plain_rest self.new.cells ≡ plain_rest self.old.cells }
        ensures cells { self.new.cells.now
            ≡ (if is_ok result then slice_set self.old.cells.now a w else self.old.cells.now) }
    {
        self.check_write(a, w)?;
        self.cells[a as usize] = w;
        Ok(())
    }
}

#[cfg(test)]
mod tests {
    use super::*;

    #[test]
    fn a_word_is_the_low_36_bits(rt: HostRuntime) {
        let mut cells = [u64::MAX, 2, 3];
        let mut core = PlainCore::new(&mut cells);
        assert_eq!(rt; core.len(), 3);
        assert_eq!(rt; core.read(0), Ok(WORD_LIMIT - 1));
        assert_eq!(rt; core.write(0, 5), Ok(()));
        assert_eq!(rt; core.write(2, WORD_LIMIT - 1), Ok(()));
        assert_eq!(rt; core.read(3), Err(Refusal::AddressOutsideCore));
        assert_eq!(rt; core.write(3, 0), Err(Refusal::AddressOutsideCore));
        assert_eq!(rt; core.write(3, WORD_LIMIT), Err(Refusal::NotAWord));
        assert_eq!(rt; cells, [5, 2, WORD_LIMIT - 1]);
    }
}
