ghost use Rattle.memory.specs.Cut.{short_cut};
ghost use Rattle.pairs.specs.Joining.{joined_words, joined_rest, narrow-joined};
ghost use Rattle.std.specs.Prelude.{◌≡◌, ℕ, List, ◌++◌};

use memory::{CORE_LIMIT, Core};
use words::{Refusal, check_word};

/// Two cores as one: the high part begins where the low one ends.
#[derive(Drop)]
pub struct Joined<L, R> {
    pub low: L,
    pub high: R,
}

impl<L: Core, R: Core> Joined<L, R> {
    /// Joins two cores. Words past the first 262,144 are left over.
    pub fn new(low: L, high: R) -> Joined<L, R>
        ensures { (result.low ≡ low) × (result.high ≡ high) }
    {
        Self { low, high }
    }

    /// The two cores again.
    pub fn parts(self) -> (L, R)
        ensures { (result.0 ≡ self.low) × (result.1 ≡ self.high) }
    {
        let Joined { low, high } = self;
        (low, high)
    }
}

#[tactic(auto, using(crate::proofs::JoinedLaws::joinings))]
impl<L: Core, R: Core> Core for Joined<L, R> {
    ghost words = { λ c. joined_words (L.Core.words c.low) (R.Core.words c.high) };

    ghost Rest = { L.Core.Rest × R.Core.Rest × (ℕ × List ℕ) };

    ghost rest = { λ c. (L.Core.rest c.low, R.Core.rest c.high, joined_rest (L.Core.words c.low) (R.Core.words c.high)) };

    ghost short = { λ c. short_cut (L.Core.words c.low ++ R.Core.words c.high) };

    ghost narrow = { λ c. narrow-joined (L.Core.words c.low) (R.Core.words c.high) (L.Core.narrow c.low) (R.Core.narrow c.high) };

    fn len(&self) -> u64 {
        (self.low.len() + self.high.len()).min(CORE_LIMIT)
    }

    fn read(&self, a: u64) -> Result<u64, Refusal> {
        // Not `check_address`: the parts refuse an address past their words, so only the cut is tested here.
        if a >= CORE_LIMIT {
            return Err(Refusal::AddressOutsideCore);
        }
        let n = self.low.len();
        if a < n {
            self.low.read(a)
        } else {
            self.high.read(a - n)
        }
    }

    fn write(&mut self, a: u64, w: u64) -> Result<(), Refusal> {
        // Not `check_write`, whose test of the address asks all parts for their lengths, at each core that is a part.
        check_word(w)?;
        if a >= CORE_LIMIT {
            return Err(Refusal::AddressOutsideCore);
        }
        let n = self.low.len();
        if a < n {
            self.low.write(a, w)
        } else {
            self.high.write(a - n, w)
        }
    }
}

#[cfg(test)]
mod tests {
    use super::*;
    use memory::PlainCore;

    #[test]
    fn the_high_part_follows_the_low(rt: HostRuntime) {
        let mut one = [1, 2, 3];
        let mut two = [4, 5];
        let mut core = Joined::new(PlainCore::new(&mut one), PlainCore::new(&mut two));
        assert_eq!(rt; core.len(), 5);
        assert_eq!(rt; core.read(0), Ok(1));
        assert_eq!(rt; core.read(3), Ok(4));
        assert_eq!(rt; core.write(4, 9), Ok(()));
        assert_eq!(rt; core.read(4), Ok(9));
        assert_eq!(rt; core.read(5), Err(Refusal::AddressOutsideCore));
        assert_eq!(rt; core.write(5, 1 << 36), Err(Refusal::NotAWord));
        let (_, high) = core.parts();
        assert_eq!(rt; high.read(1), Ok(9));
    }
}
