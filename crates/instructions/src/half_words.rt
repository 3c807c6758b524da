//! The half-word moves.

ghost use Rattle.instructions.specs.HalfWords.{half_word_of};
ghost use Rattle.instructions.specs.Narrow.{NarrowEffect};
ghost use Rattle.std.specs.Prelude.{◌≡◌};

use crate::results::{to_a, to_memory, unless_zero, wordless};
use logic::{HalfMove, move_half};
use operations::{Effect, Inputs, MoveMode};

/// A half-word move.
pub(crate) fn half_word_effect(kind: HalfMove, mode: MoveMode, given: Inputs) -> Effect
    ensures value { result ≡ half_word_of kind mode given }
    ensures narrow { NarrowEffect result }
{
    // Each destination keeps its own other half where the move keeps one, so `by_move_mode`, which takes one word, does
    // not serve.
    match mode {
        MoveMode::Basic => to_a(move_half(kind, given.operand, given.ac), given.status),
        MoveMode::Immediate => to_a(move_half(kind, given.e, given.ac), given.status),
        MoveMode::Memory => to_memory(
            given.e,
            move_half(kind, given.ac, given.operand),
            given.status,
        ),
        MoveMode::Own => Effect {
            store: Some((given.e, move_half(kind, given.operand, given.operand))),
            a: unless_zero(given.field, move_half(kind, given.operand, given.ac)),
            ..wordless(given.status)
        },
    }
}
