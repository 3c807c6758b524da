ghost use Rattle.shifts.specs.Distance.{distance_of, UpTo255};
ghost use Rattle.shifts.specs.Specimens.{DistanceSpecimens};
ghost use Rattle.std.specs.Prelude.{◌≡◌};

use crate::distances::Distance;
use words::HALF_LIMIT;

/// The highest bit of an address, which is its sign.
const ADDRESS_SIGN: u64 = HALF_LIMIT / 2;

/// How far the effective address `e`, a signed number of 18 bits, moves a word: to the left if it is not
/// negative, else to the right. Only the low eight bits of its magnitude count.
#[tactic(auto, unfolding(crate::specs::Distance::distance_of))]
pub fn distance(e: u64) -> Distance
    ensures value { result ≡ distance_of e }
    ensures below { UpTo255 result }
    ensures specimens { DistanceSpecimens }
{
    let address = e % HALF_LIMIT;
    if address < ADDRESS_SIGN {
        Distance::Left(address % 256)
    } else {
        Distance::Right((HALF_LIMIT - address) % 256)
    }
}
