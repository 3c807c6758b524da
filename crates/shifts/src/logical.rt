ghost use Rattle.std.specs.Prelude.{◌≡◌, ◌%◌, ◌^◌, ◌<◌};
ghost use Rattle.shifts.specs.Distance.{NoPlace};
ghost use Rattle.shifts.specs.Logical.{logical, logical_pair, LogicalThereAndBack, LogicalPairThereAndBack};
ghost use Rattle.shifts.specs.Specimens.{LogicalPairSpecimens, LogicalSpecimens};
ghost use Rattle.shifts.specs.WordPair.{words_of};

use crate::bits::Bits;
use crate::effective_address::distance;
use crate::pair::WordPair;

/// LSH: the word moved, with 0s in the places that fall empty.
#[tactic(auto, using(crate::proofs::Shifting::logical_back), unfolding(crate::specs::Logical::logical, crate::specs::Distance::distance_of))]
pub fn lsh(w: u64, e: u64) -> u64
    ensures value { result ≡ logical w e }
    ensures narrow { result < 2 ^ 36 }
    ensures back { LogicalThereAndBack w e result }
    ensures still { NoPlace e → result ≡ w % 2 ^ 36 }
    ensures specimens { LogicalSpecimens }
{
    Bits::<36>::low(w.into()).shift(distance(e)).number as u64
}

/// LSHC: the two words moved as one number of 72 bits, with 0s in the places that fall empty.
#[tactic(auto, using(crate::proofs::Shifting::logical_pair_back), unfolding(crate::specs::Logical::logical_pair, crate::specs::Distance::distance_of))]
pub fn lshc(a: u64, b: u64, e: u64) -> WordPair
    ensures value { words_of result ≡ logical_pair a b e }
    ensures back { LogicalPairThereAndBack a b e (words_of result) }
    ensures still { NoPlace e → words_of result ≡ (a % 2 ^ 36, b % 2 ^ 36) }
    ensures specimens { LogicalPairSpecimens }
{
    Bits::from(WordPair::low(a, b)).shift(distance(e)).into()
}
