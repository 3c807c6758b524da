ghost use Rattle.std.specs.Prelude.{◌≡◌, ◌^◌, ◌<◌, ◌≤◌};
ghost use Rattle.arithmetic.specs.Division.{division_of, magnitude_of, no_divide, signed_word, DivisionLaw, NarrowDivision};
ghost use Rattle.words.specs.Signed.{is_negative};

use crate::signed::signed;
use words::{SIGN_BIT, WORD_LIMIT, is_negative};

/// What a division gives: two words, signed.
#[derive(Clone, Copy, PartialEq, Eq, Debug)]
pub struct Division {
    pub quotient: u64,
    pub remainder: u64,
}

/// The signed division of two words. It rounds toward zero, so the remainder takes its sign from the dividend.
///
/// There is none by 0. Nor is there one of −2^35 by 1 or −1: the processor divides magnitudes, and the magnitude of
/// that quotient has no place in the 35 bits beside the sign.
pub fn divide(dividend: u64, divisor: u64) -> Option<Division>
    ensures value { result ≡ division_of dividend divisor }
    ensures narrow { NarrowDivision result }
    ensures law { DivisionLaw dividend divisor result }
{
    // by magnitudes and signs, and not by the `/` of i64: the refusals are the processor's, which are said of magnitudes
    let whole = magnitude(dividend);
    let part = magnitude(divisor);
    if no_divide(whole, part) {
        return None;
    }
    let dividend_negative = is_negative(dividend);
    let divisor_negative = is_negative(divisor);
    Some(Division {
        quotient: signed_word(dividend_negative != divisor_negative, whole / part),
        remainder: signed_word(dividend_negative, whole % part),
    })
}

/// Whether one magnitude is not divided by another.
fn no_divide(whole: u64, part: u64) -> bool
    ensures { result ≡ no_divide whole part }
{
    part == 0 || whole == SIGN_BIT && part == 1
}

/// The signed value without its sign: at most 2^35.
#[tactic(auto, using(crate::proofs::DivisionLaws::magnitude_tells))]
fn magnitude(word: u64) -> u64
    ensures value { result ≡ magnitude_of word }
    ensures bound { result ≤ 2 ^ 35 }
{
    signed(word).unsigned_abs()
}

/// The word of a sign and a magnitude.
fn signed_word(negative: bool, magnitude: u64) -> u64
    requires { magnitude ≤ 2 ^ 35 }
    ensures value { result ≡ signed_word negative magnitude }
    ensures narrow { result < 2 ^ 36 }
{
    if negative {
        (WORD_LIMIT - magnitude) % WORD_LIMIT
    } else {
        magnitude
    }
}
