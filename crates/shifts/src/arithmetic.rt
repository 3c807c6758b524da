ghost use Rattle.std.specs.Prelude.{◌≡◌, ◌%◌, ◌^◌, ◌<◌, false};
ghost use Rattle.shifts.specs.Arithmetic.{arithmetic, arithmetic_pair, beside, sign_bit, SignShared, SignStays};
ghost use Rattle.shifts.specs.Distance.{NoPlace};
ghost use Rattle.shifts.specs.Scaling.{ArithmeticPairScales, ArithmeticScales};
ghost use Rattle.shifts.specs.Specimens.{ArithmeticPairSpecimens, ArithmeticSpecimens};
ghost use Rattle.shifts.specs.WordPair.{words_and_overflow};

use crate::bits::Bits;
use crate::effective_address::distance;
use crate::pair::WordPair;
use words::{SIGN_BIT, is_negative};

/// ASH: the word's signed value multiplied or divided by a power of two, and Overflow, as an `overflowing_` method gives
/// them: the word holds whatever the flag says.
#[tactic(auto, using(crate::proofs::Scaling::arithmetic_scales), unfolding(crate::specs::Arithmetic::arithmetic, crate::specs::Distance::distance_of))]
pub fn ash(w: u64, e: u64) -> (u64, bool)
    ensures value { result ≡ arithmetic w e }
    ensures narrow { result.0 < 2 ^ 36 }
    ensures sign { SignStays w result }
    ensures scales { ArithmeticScales w e result }
    ensures still { NoPlace e → result ≡ (w % 2 ^ 36, false) }
    ensures specimens { ArithmeticSpecimens }
{
    let beside_sign = Bits::<35>::low(w.into());
    let (moved, overflow) = beside_sign.move_beside(is_negative(w), distance(e));
    (sign_bit(w) + moved.number as u64, overflow)
}

/// ASHC: the signed value of the two words multiplied or divided by a power of two, and Overflow, as `ash` gives them.
/// The value leaves out bit 0 of the second word, which any move makes equal to bit 0 of the first.
#[tactic(auto, using(crate::proofs::PairScaling::arithmetic_pair_scales), unfolding(crate::specs::Arithmetic::arithmetic_pair, crate::specs::Distance::distance_of))]
pub fn ashc(a: u64, b: u64, e: u64) -> (WordPair, bool)
    ensures value { words_and_overflow result ≡ arithmetic_pair a b e }
    ensures sign { SignShared a e (words_and_overflow result) }
    ensures scales { ArithmeticPairScales a b e (words_and_overflow result) }
    ensures still { NoPlace e → words_and_overflow result ≡ (a % 2 ^ 36, b % 2 ^ 36, false) }
    ensures specimens { ArithmeticPairSpecimens }
{
    let by = distance(e);
    if by.places() == 0 {
        return (WordPair::low(a, b), false);
    }
    let (moved, overflow) = beside_signs(a, b).move_beside(is_negative(a), by);
    let sign = sign_bit(a);
    let words = WordPair {
        first: sign + (moved.number >> 35) as u64,
        second: sign + (moved.number % u128::from(SIGN_BIT)) as u64,
    };
    (words, overflow)
}

/// The 70 bits beside the signs of the two words.
fn beside_signs(a: u64, b: u64) -> Bits<70>
    ensures { result.number ≡ beside a b }
{
    Bits {
        number: (u128::from(a % SIGN_BIT) << 35) + u128::from(b % SIGN_BIT),
    }
}

/// What the sign adds to a word.
fn sign_bit(w: u64) -> u64
    ensures { result ≡ sign_bit w }
{
    w & SIGN_BIT
}
