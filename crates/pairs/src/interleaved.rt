ghost use Rattle.memory.specs.Cut.{short_cut};
ghost use Rattle.pairs.specs.Interleaving.{weave, interleaved_words, interleaved_rest, narrow-interleaved};
ghost use Rattle.std.specs.Prelude.{◌≡◌, ℕ, List};

use memory::{CORE_LIMIT, Core};
use words::Refusal;

/// The words of two cores in turn: even addresses in the first, odd ones in the second.
#[derive(Drop)]
pub struct Interleaved<L, R> {
    pub even: L,
    pub odd: R,
}

impl<L: Core, R: Core> Interleaved<L, R> {
    /// Interleaves two cores up to the end of the shorter. What the longer has beyond that, and what
    /// lies past the first 262,144 words, is left over.
    pub fn new(even: L, odd: R) -> Interleaved<L, R>
        ensures { (result.even ≡ even) × (result.odd ≡ odd) }
    {
        Self { even, odd }
    }

    /// The two cores again.
    pub fn parts(self) -> (L, R)
        ensures { (result.0 ≡ self.even) × (result.1 ≡ self.odd) }
    {
        let Interleaved { even, odd } = self;
        (even, odd)
    }
}

#[tactic(auto, using(crate::proofs::InterleavedLaws::interleavings))]
impl<L: Core, R: Core> Core for Interleaved<L, R> {
    ghost words = { λ c. interleaved_words (L.Core.words c.even) (R.Core.words c.odd) };

    ghost Rest = { L.Core.Rest × R.Core.Rest × (ℕ × List ℕ × List ℕ) };

    ghost rest = { λ c. (L.Core.rest c.even, R.Core.rest c.odd, interleaved_rest (L.Core.words c.even) (R.Core.words c.odd)) };

    ghost short = { λ c. short_cut (weave (L.Core.words c.even) (R.Core.words c.odd)) };

    ghost narrow = { λ c. narrow-interleaved (L.Core.words c.even) (R.Core.words c.odd) (L.Core.narrow c.even) (R.Core.narrow c.odd) };

    fn len(&self) -> u64 {
        let shorter = self.even.len().min(self.odd.len());
        (2 * shorter).min(CORE_LIMIT)
    }

    fn read(&self, a: u64) -> Result<u64, Refusal> {
        self.check_address(a)?;
        if a % 2 == 0 {
            self.even.read(a / 2)
        } else {
            self.odd.read(a / 2)
        }
    }

    fn write(&mut self, a: u64, w: u64) -> Result<(), Refusal> {
        self.check_write(a, w)?;
        if a % 2 == 0 {
            self.even.write(a / 2, w)
        } else {
            self.odd.write(a / 2, w)
        }
    }
}

#[cfg(test)]
mod tests {
    use super::*;
    use memory::PlainCore;

    #[test]
    fn the_shorter_part_sets_the_end(rt: HostRuntime) {
        let mut one = [1, 3, 5];
        let mut two = [2, 4];
        let mut core = Interleaved::new(PlainCore::new(&mut one), PlainCore::new(&mut two));
        assert_eq!(rt; core.len(), 4);
        assert_eq!(rt; core.read(0), Ok(1));
        assert_eq!(rt; core.read(3), Ok(4));
        assert_eq!(rt; core.write(3, 9), Ok(()));
        assert_eq!(rt; core.read(4), Err(Refusal::AddressOutsideCore));
        assert_eq!(rt; core.write(4, 0), Err(Refusal::AddressOutsideCore));
        let (one, two) = core.parts();
        assert_eq!(rt; one.read(2), Ok(5));
        assert_eq!(rt; two.read(1), Ok(9));
    }
}
