ghost use Rattle.std.specs.Prelude.{◌≡◌, ◌%◌, ◌^◌, ◌<◌};
ghost use Rattle.shifts.specs.Distance.{NoPlace};
ghost use Rattle.shifts.specs.Rotations.{rotated, rotated_pair, RotatedPairThereAndBack, RotatedThereAndBack};
ghost use Rattle.shifts.specs.Specimens.{RotatedPairSpecimens, RotatedSpecimens};
ghost use Rattle.shifts.specs.WordPair.{words_of};

use crate::bits::Bits;
use crate::effective_address::distance;
use crate::pair::WordPair;

/// ROT: the word turned in itself.
#[tactic(auto, using(crate::proofs::Turning::rotated_back), unfolding(crate::specs::Rotations::rotated, crate::specs::Distance::distance_of))]
pub fn rot(w: u64, e: u64) -> u64
    ensures value { result ≡ rotated w e }
    ensures narrow { result < 2 ^ 36 }
    ensures back { RotatedThereAndBack w e result }
    ensures still { NoPlace e → result ≡ w % 2 ^ 36 }
    ensures specimens { RotatedSpecimens }
{
    Bits::<36>::low(w.into()).turn(distance(e)).number as u64
}

/// ROTC: the two words turned as one number of 72 bits.
#[tactic(auto, using(crate::proofs::Turning::rotated_pair_back), unfolding(crate::specs::Rotations::rotated_pair, crate::specs::Distance::distance_of))]
pub fn rotc(a: u64, b: u64, e: u64) -> WordPair
    ensures value { words_of result ≡ rotated_pair a b e }
    ensures back { RotatedPairThereAndBack a b e (words_of result) }
    ensures still { NoPlace e → words_of result ≡ (a % 2 ^ 36, b % 2 ^ 36) }
    ensures specimens { RotatedPairSpecimens }
{
    Bits::from(WordPair::low(a, b)).turn(distance(e)).into()
}
