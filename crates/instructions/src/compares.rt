//! The comparisons, and the counts that end in one.
//!
//! Each instruction is one line under its own name: it says what is compared or counted, and its clause names its
//! definition. What two of them share is in `count_and_jump` and `count_and_skip`. The condition is a field of the
//! instruction, and so stands beside what the instruction is given.

ghost use Rattle.std.specs.Prelude.{◌≡◌, ◌^◌, ◌<◌};
ghost use Rattle.instructions.specs.Compares.{aoj_of, aos_of, cai_of, cam_of, count_and_jump, count_and_skip, jump_of, skip_of, soj_of, sos_of};
ghost use Rattle.instructions.specs.Narrow.{NarrowEffect};

use crate::results::{after_sum, jump_if, skip_if, to_a, unless_zero, wordless};
use arithmetic::{Condition, decrement, holds, increment};
use operations::{Effect, Inputs};

/// CAI: skips by the accumulator and the word 0,,E.
pub(crate) fn cai_effect(condition: Condition, given: Inputs) -> Effect
    ensures value { result ≡ cai_of condition given }
    ensures narrow { NarrowEffect result }
{
    wordless(skip_if(holds(condition, given.ac, given.e), given.status))
}

/// CAM: skips by the accumulator and the word at E.
pub(crate) fn cam_effect(condition: Condition, given: Inputs) -> Effect
    ensures value { result ≡ cam_of condition given }
    ensures narrow { NarrowEffect result }
{
    wordless(skip_if(holds(condition, given.ac, given.operand), given.status))
}

/// JUMP: jumps by the accumulator and 0.
pub(crate) fn jump_effect(condition: Condition, given: Inputs) -> Effect
    ensures value { result ≡ jump_of condition given }
    ensures narrow { NarrowEffect result }
{
    wordless(jump_if(holds(condition, given.ac, 0), given.e, given.status))
}

/// SKIP: skips by the word at E and 0.
pub(crate) fn skip_effect(condition: Condition, given: Inputs) -> Effect
    ensures value { result ≡ skip_of condition given }
    ensures narrow { given.operand < 2 ^ 36 → NarrowEffect result }
{
    Effect {
        a: unless_zero(given.field, given.operand),
        ..wordless(skip_if(holds(condition, given.operand, 0), given.status))
    }
}

/// A count of the accumulator, which jumps by the result and 0.
fn count_and_jump(condition: Condition, sum: (u64, bool, bool), given: Inputs) -> Effect
    ensures value { result ≡ count_and_jump condition sum given }
    ensures narrow { sum.0 < 2 ^ 36 → NarrowEffect result }
{
    let after = after_sum(sum, given.status);
    to_a(sum.0, jump_if(holds(condition, sum.0, 0), given.e, after))
}

/// AOJ: the accumulator plus 1.
pub(crate) fn aoj_effect(condition: Condition, given: Inputs) -> Effect
    ensures value { result ≡ aoj_of condition given }
    ensures narrow { NarrowEffect result }
{
    count_and_jump(condition, increment(given.ac), given)
}

/// SOJ: the accumulator less 1.
pub(crate) fn soj_effect(condition: Condition, given: Inputs) -> Effect
    ensures value { result ≡ soj_of condition given }
    ensures narrow { NarrowEffect result }
{
    count_and_jump(condition, decrement(given.ac), given)
}

/// A count of the word at E, which skips by the result and 0.
fn count_and_skip(condition: Condition, sum: (u64, bool, bool), given: Inputs) -> Effect
    ensures value { result ≡ count_and_skip condition sum given }
    ensures narrow { sum.0 < 2 ^ 36 → NarrowEffect result }
{
    Effect {
        store: Some((given.e, sum.0)),
        a: unless_zero(given.field, sum.0),
        ..wordless(skip_if(holds(condition, sum.0, 0), after_sum(sum, given.status)))
    }
}

/// AOS: the word at E plus 1.
pub(crate) fn aos_effect(condition: Condition, given: Inputs) -> Effect
    ensures value { result ≡ aos_of condition given }
    ensures narrow { NarrowEffect result }
{
    count_and_skip(condition, increment(given.operand), given)
}

/// SOS: the word at E less 1.
pub(crate) fn sos_effect(condition: Condition, given: Inputs) -> Effect
    ensures value { result ≡ sos_of condition given }
    ensures narrow { NarrowEffect result }
{
    count_and_skip(condition, decrement(given.operand), given)
}
