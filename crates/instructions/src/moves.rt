//! The full-word moves, and EXCH.

ghost use Rattle.std.specs.Prelude.{◌≡◌, ◌^◌, ◌<◌};
ghost use Rattle.instructions.specs.Moves.{by_move_mode, exch_of, formed, move_of, negated, source_of};
ghost use Rattle.instructions.specs.Narrow.{NarrowEffect};

use crate::results::{after_sum, to_a, to_memory, unless_zero, wordless};
use arithmetic::negate;
use logic::swap;
use operations::{Effect, Form, Inputs, MoveMode, Status};
use words::is_negative;

/// The word that a move takes.
fn source_of(mode: MoveMode, given: Inputs) -> u64
    ensures { result ≡ source_of mode given }
{
    match mode {
        MoveMode::Basic | MoveMode::Own => given.operand,
        MoveMode::Immediate => given.e,
        MoveMode::Memory => given.ac,
    }
}

/// The negative of a word, and the status after.
fn negated(x: u64, status: Status) -> (u64, Status)
    ensures value { result ≡ negated x status }
    ensures narrow { result.0 < 2 ^ 36 }
{
    let negative = negate(x);
    (negative.0, after_sum(negative, status))
}

/// What a form makes of a word, and the status after.
fn formed(form: Form, x: u64, status: Status) -> (u64, Status)
    ensures value { result ≡ formed form x status }
    ensures narrow { x < 2 ^ 36 → result.0 < 2 ^ 36 }
{
    match form {
        Form::Swapped => (swap(x), status),
        Form::Negated => negated(x, status),
        Form::Magnitude if is_negative(x) => negated(x, status),
        Form::Full | Form::Magnitude => (x, status),
    }
}

/// A moved word to where its mode puts it.
fn by_move_mode(mode: MoveMode, word: u64, given: Inputs, status: Status) -> Effect
    ensures value { result ≡ by_move_mode mode word given status }
    ensures narrow { word < 2 ^ 36 → NarrowEffect result }
{
    match mode {
        MoveMode::Basic | MoveMode::Immediate => to_a(word, status),
        MoveMode::Memory => to_memory(given.e, word, status),
        MoveMode::Own => Effect {
            store: Some((given.e, word)),
            a: unless_zero(given.field, word),
            ..wordless(status)
        },
    }
}

/// MOVE, MOVS, MOVN and MOVM.
pub(crate) fn move_effect(form: Form, mode: MoveMode, given: Inputs) -> Effect
    ensures value { result ≡ move_of form mode given }
    ensures narrow { given.ac < 2 ^ 36 → given.operand < 2 ^ 36 → given.e < 2 ^ 18 → NarrowEffect result }
{
    let (word, after) = formed(form, source_of(mode, given), given.status);
    by_move_mode(mode, word, given, after)
}

/// EXCH: the accumulator and the word at E change places.
pub(crate) fn exch_effect(given: Inputs) -> Effect
    ensures value { result ≡ exch_of given }
    ensures narrow { given.ac < 2 ^ 36 → given.operand < 2 ^ 36 → NarrowEffect result }
{
    Effect {
        store: Some((given.e, given.ac)),
        a: Some(given.operand),
        ..wordless(given.status)
    }
}
