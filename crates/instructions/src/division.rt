//! IDIV.

ghost use Rattle.instructions.specs.Division.{idiv_of, quotient_to};
ghost use Rattle.std.specs.Prelude.{◌≡◌, ◌^◌, ◌<◌};
ghost use Rattle.instructions.specs.Narrow.{NarrowEffect};

use crate::results::{by_mode, flagged, operand_of, wordless};
use arithmetic::{Division, OVERFLOW, divide};
use operations::{Effect, Inputs, Mode};

/// The flag No Divide: a division was not done.
pub(crate) const NO_DIVIDE: u64 = 0o000040;

/// The quotient to where the mode puts it, and the remainder to A + 1 wherever the quotient goes to A.
fn quotient_to(mode: Mode, division: Division, given: Inputs) -> Effect
    ensures value { result ≡ quotient_to mode division given }
    ensures narrow { division.quotient < 2 ^ 36 → division.remainder < 2 ^ 36 → NarrowEffect result }
{
    Effect {
        a1: (mode != Mode::Memory).then_some(division.remainder),
        ..by_mode(mode, division.quotient, given, given.status)
    }
}

/// IDIV: the accumulator divided by the operand.
pub(crate) fn idiv_effect(mode: Mode, given: Inputs) -> Effect
    ensures value { result ≡ idiv_of mode given }
    ensures narrow { NarrowEffect result }
{
    let Some(division) = divide(given.ac, operand_of(mode, given)) else {
        let flags = given.status.flags | (OVERFLOW | NO_DIVIDE);
        return wordless(flagged(flags, given.status));
    };
    quotient_to(mode, division, given)
}
