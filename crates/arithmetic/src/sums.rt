ghost use Rattle.std.specs.Prelude.{◌≡◌, ◌-◌, ◌^◌, ◌<◌, true, false};
ghost use Rattle.arithmetic.specs.Sums.{add_words, SumLaw, DifferenceLaw, NegationLaw, NegationCarries, SuccessorLaw, PredecessorLaw};
ghost use Rattle.words.specs.Bits.{complement};

use words::{SIGN_BIT, WORD_LIMIT, complement};

/// The sum of two words and a carry into the lowest bit, with the carry out of bit 0 and the carry out of bit 1.
///
/// Carry 1 is the carry into the sign: where it differs from carry 0, the sum has the wrong sign, so the two carries
/// together tell whether the sum of the signed values fits a word.
///
/// The three come as a tuple, which is a fixed form of this project (docs/DECISIONS.md): that the word is narrow is a
/// clause of each sum, and not a type's.
#[tactic(auto, using(crate::proofs::SumLaws::sum_law), unfolding(crate::specs::Sums::add_words))]
pub fn add(x: u64, y: u64, carry: bool) -> (u64, bool, bool)
    ensures value { result ≡ add_words x y carry }
    ensures narrow { result.0 < 2 ^ 36 }
    ensures law { SumLaw x y carry result }
{
    let carry_in = carry as u64;
    let sum = x % WORD_LIMIT + y % WORD_LIMIT + carry_in;
    let low = x % SIGN_BIT + y % SIGN_BIT + carry_in;
    (sum % WORD_LIMIT, sum >= WORD_LIMIT, low >= SIGN_BIT)
}

/// `x` less `y`: the sum of `x`, every bit of `y` turned, and 1.
#[tactic(auto, using(crate::proofs::SumLaws::difference_law))]
pub fn subtract(x: u64, y: u64) -> (u64, bool, bool)
    ensures value { result ≡ add_words x (complement y) true }
    ensures narrow { result.0 < 2 ^ 36 }
    ensures law { DifferenceLaw x y result }
{
    add(x, complement(y), true)
}

/// The negative of `x`: every bit turned, and 1 added.
#[tactic(auto, using(crate::proofs::SumLaws::negation_law, crate::proofs::SumLaws::negation_carries))]
pub fn negate(x: u64) -> (u64, bool, bool)
    ensures value { result ≡ add_words (complement x) 1 false }
    ensures narrow { result.0 < 2 ^ 36 }
    ensures law { NegationLaw x result }
    ensures carries { NegationCarries x result }
{
    add(complement(x), 1, false)
}

/// One more than `x`.
#[tactic(auto, using(crate::proofs::SumLaws::successor_law))]
pub fn increment(x: u64) -> (u64, bool, bool)
    ensures value { result ≡ add_words x 1 false }
    ensures narrow { result.0 < 2 ^ 36 }
    ensures law { SuccessorLaw x result }
{
    add(x, 1, false)
}

/// One less than `x`: the sum of `x` and −1, a word of ones.
#[tactic(auto, using(crate::proofs::SumLaws::predecessor_law))]
pub fn decrement(x: u64) -> (u64, bool, bool)
    ensures value { result ≡ add_words x (2 ^ 36 - 1) false }
    ensures narrow { result.0 < 2 ^ 36 }
    ensures law { PredecessorLaw x result }
{
    add(x, WORD_LIMIT - 1, false)
}
