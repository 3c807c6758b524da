//! ADD and SUB.

ghost use Rattle.std.specs.Prelude.{◌≡◌, ◌^◌, ◌<◌};
ghost use Rattle.instructions.specs.Narrow.{NarrowEffect};
ghost use Rattle.instructions.specs.Sums.{add_of, sub_of, sum_to};

use crate::results::{after_sum, by_mode, operand_of};
use arithmetic::{add, subtract};
use operations::{Effect, Inputs, Mode};

/// A sum to where the mode puts it, and the flags that its carries raise.
fn sum_to(mode: Mode, sum: (u64, bool, bool), given: Inputs) -> Effect
    ensures value { result ≡ sum_to mode sum given }
    ensures narrow { sum.0 < 2 ^ 36 → NarrowEffect result }
{
    by_mode(mode, sum.0, given, after_sum(sum, given.status))
}

/// ADD: the accumulator plus the operand.
pub(crate) fn add_effect(mode: Mode, given: Inputs) -> Effect
    ensures value { result ≡ add_of mode given }
    ensures narrow { NarrowEffect result }
{
    sum_to(mode, add(given.ac, operand_of(mode, given), false), given)
}

/// SUB: the accumulator less the operand.
pub(crate) fn sub_effect(mode: Mode, given: Inputs) -> Effect
    ensures value { result ≡ sub_of mode given }
    ensures narrow { NarrowEffect result }
{
    sum_to(mode, subtract(given.ac, operand_of(mode, given)), given)
}
