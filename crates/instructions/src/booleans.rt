//! The Boolean functions.

ghost use Rattle.instructions.specs.Booleans.{boolean_effect_of};
ghost use Rattle.instructions.specs.Narrow.{NarrowEffect};
ghost use Rattle.std.specs.Prelude.{◌≡◌};

use crate::results::{by_mode, operand_of};
use logic::boolean;
use operations::{Effect, Inputs, Mode};

/// The Boolean function of a truth table, of the operand and the accumulator.
pub(crate) fn boolean_effect(table: u64, mode: Mode, given: Inputs) -> Effect
    ensures value { result ≡ boolean_effect_of table mode given }
    ensures narrow { NarrowEffect result }
{
    by_mode(
        mode,
        boolean(table, operand_of(mode, given), given.ac),
        given,
        given.status,
    )
}
