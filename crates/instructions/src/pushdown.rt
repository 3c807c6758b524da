//! Pushdown lists.

ghost use Rattle.std.specs.Prelude.{◌≡◌, ◌^◌, ◌<◌, IfSome};
ghost use Rattle.instructions.specs.Narrow.{NarrowEffect};
ghost use Rattle.instructions.specs.Pushdown.{pointed, pop_of, popj_of, popped, push_of, pushed, pushj_of, stop_at};

use crate::pointers::{pointer_down, pointer_up};
use crate::results::{jumped, wordless};
use crate::subroutines::{called, pc_word};
use logic::{left, right};
use operations::{Effect, Inputs, Status};
use stops::Stop;
use words::HALF_LIMIT;

/// The count with which a list is full, after a push.
const FULL: u64 = 0;
/// The count with which a list is empty, after a pop.
const EMPTY: u64 = HALF_LIMIT - 1;

/// The stop where the count of a pointer has come to its end.
fn stop_at(end: u64, pointer: u64) -> Option<Stop>
    ensures { result ≡ stop_at end pointer }
{
    (left(pointer) == end).then_some(Stop::PushdownOverflow)
}

/// A pointer, already moved, to A, and the store that goes with it; the run stops where the count has come to its end.
fn pointed(end: u64, store: Option<(u64, u64)>, pointer: u64, status: Status) -> Effect
    ensures value { result ≡ pointed end store pointer status }
    ensures narrow { IfSome store (λ s. s.1 < 2 ^ 36) → pointer < 2 ^ 36 → NarrowEffect result }
{
    Effect {
        store,
        a: Some(pointer),
        stop: stop_at(end, pointer),
        ..wordless(status)
    }
}

/// A word to where a pointer, already moved up, says.
fn pushed(pointer: u64, word: u64, status: Status) -> Effect
    ensures value { result ≡ pushed pointer word status }
    ensures narrow { pointer < 2 ^ 36 → word < 2 ^ 36 → NarrowEffect result }
{
    pointed(FULL, Some((right(pointer), word)), pointer, status)
}

/// PUSHJ: the PC word onto the list, and on at E.
pub(crate) fn pushj_effect(given: Inputs) -> Effect
    ensures value { result ≡ pushj_of given }
    ensures narrow { NarrowEffect result }
{
    pushed(
        pointer_up(given.ac),
        pc_word(given.status),
        called(given.e, given.status),
    )
}

/// PUSH: the word at E onto the list.
pub(crate) fn push_effect(given: Inputs) -> Effect
    ensures value { result ≡ push_of given }
    ensures narrow { given.operand < 2 ^ 36 → NarrowEffect result }
{
    pushed(pointer_up(given.ac), given.operand, given.status)
}

/// A pointer, already moved down, and the store that goes with it.
fn popped(store: Option<(u64, u64)>, pointer: u64, status: Status) -> Effect
    ensures value { result ≡ popped store pointer status }
    ensures narrow { IfSome store (λ s. s.1 < 2 ^ 36) → pointer < 2 ^ 36 → NarrowEffect result }
{
    pointed(EMPTY, store, pointer, status)
}

/// POP: the last word of the list to E.
pub(crate) fn pop_effect(given: Inputs) -> Effect
    ensures value { result ≡ pop_of given }
    ensures narrow { given.operand < 2 ^ 36 → NarrowEffect result }
{
    popped(
        Some((given.e, given.operand)),
        pointer_down(given.ac),
        given.status,
    )
}

/// POPJ: on at the right half of the last word of the list.
pub(crate) fn popj_effect(given: Inputs) -> Effect
    ensures value { result ≡ popj_of given }
    ensures narrow { NarrowEffect result }
{
    popped(
        None,
        pointer_down(given.ac),
        jumped(right(given.operand), given.status),
    )
}
