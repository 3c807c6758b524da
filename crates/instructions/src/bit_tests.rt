//! The tests of bits of the accumulator under a mask.

ghost use Rattle.instructions.specs.Narrow.{NarrowEffect};
ghost use Rattle.instructions.specs.Tests.{changed_word, mask_of, test_of};
ghost use Rattle.std.specs.Prelude.{◌≡◌, ◌^◌, ◌<◌, IfSome};

use crate::results::{skip_if, wordless};
use logic::{Change, SkipWhen, changed, from_halves, skips, swap};
use operations::{Effect, Inputs, MaskFrom};

/// The mask.
fn mask_of(from: MaskFrom, given: Inputs) -> u64
    ensures { result ≡ mask_of from given }
{
    match from {
        MaskFrom::Right => given.e,
        MaskFrom::Left => from_halves(given.e, 0),
        MaskFrom::Direct => given.operand,
        MaskFrom::Swapped => swap(given.operand),
    }
}

/// The accumulator with its masked bits changed, and nothing to write where none is.
fn changed_word(change: Change, ac: u64, mask: u64) -> Option<u64>
    ensures value { result ≡ changed_word change ac mask }
    ensures narrow { IfSome result (λ w. w < 2 ^ 36) }
{
    (change != Change::Unchanged).then(|| changed(change, ac, mask))
}

/// A test: it skips by the accumulator as it was before the change.
pub(crate) fn test_effect(from: MaskFrom, change: Change, when: SkipWhen, given: Inputs) -> Effect
    ensures value { result ≡ test_of from change when given }
    ensures narrow { NarrowEffect result }
{
    let mask = mask_of(from, given);
    Effect {
        a: changed_word(change, given.ac, mask),
        ..wordless(skip_if(skips(when, given.ac, mask), given.status))
    }
}
