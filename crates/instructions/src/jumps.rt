//! The jumps that look at no memory: AOBJP, AOBJN, JRST and JFCL.
//!
//! AOBJP and AOBJN stand each under its own name: a flag for the sign would only have the caller say which one it is.

ghost use Rattle.instructions.specs.Jumps.{aobjn_of, aobjp_of, clear_and_jump, flags_from, jfcl_of, jrst_of, restored_flags};
ghost use Rattle.instructions.specs.Narrow.{NarrowEffect};
ghost use Rattle.std.specs.Prelude.{◌≡◌};

use crate::division::NO_DIVIDE;
use crate::pointers::pointer_up;
use crate::results::{cleared, flagged, jump_if, jumped, to_a, wordless};
use crate::subroutines::BYTE_INTERRUPT;
use arithmetic::{CARRY_0, CARRY_1, OVERFLOW};
use logic::left;
use operations::{Effect, Inputs, Status, USER};
use words::is_negative;

/// The flag Floating Overflow. The lowest bit of JFCL's accumulator field selects it, so that the field times this flag
/// is all the flags that the field selects.
const FLOATING_OVERFLOW: u64 = 0o040000;
/// The flag Floating Underflow.
const FLOATING_UNDERFLOW: u64 = 0o000100;
/// The flags that a program may restore.
const RESTORABLE: u64 = OVERFLOW
    | CARRY_0
    | CARRY_1
    | FLOATING_OVERFLOW
    | BYTE_INTERRUPT
    | FLOATING_UNDERFLOW
    | NO_DIVIDE;

/// AOBJP: 1 added to both halves of the accumulator, and a jump if it is then not negative.
pub(crate) fn aobjp_effect(given: Inputs) -> Effect
    ensures value { result ≡ aobjp_of given }
    ensures narrow { NarrowEffect result }
{
    let word = pointer_up(given.ac);
    to_a(word, jump_if(!is_negative(word), given.e, given.status))
}

/// AOBJN: 1 added to both halves of the accumulator, and a jump if it is then negative.
pub(crate) fn aobjn_effect(given: Inputs) -> Effect
    ensures value { result ≡ aobjn_of given }
    ensures narrow { NarrowEffect result }
{
    let word = pointer_up(given.ac);
    to_a(word, jump_if(is_negative(word), given.e, given.status))
}

/// The flags that a program may restore from the left half of a word, and User.
fn restored_flags(word: u64) -> u64
    ensures { result ≡ restored_flags word }
{
    left(word) & RESTORABLE | USER
}

/// The status with the flags of a word, if there is one.
fn flags_from(flag_word: Option<u64>, status: Status) -> Status
    ensures { result ≡ flags_from flag_word status }
{
    flag_word.map_or(status, |word| flagged(restored_flags(word), status))
}

/// JRST, which may restore the flags.
pub(crate) fn jrst_effect(restores: bool, given: Inputs) -> Effect
    ensures value { result ≡ jrst_of restores given }
    ensures narrow { NarrowEffect result }
{
    let status = if restores {
        flags_from(given.flag_word, given.status)
    } else {
        given.status
    };
    wordless(jumped(given.e, status))
}

/// If a selected flag is on, the selected flags off and a jump.
fn clear_and_jump(which: u64, e: u64, status: Status) -> Status
    ensures { result ≡ clear_and_jump which e status }
{
    if status.flags & which == 0 {
        status
    } else {
        jumped(e, flagged(cleared(which, status.flags), status))
    }
}

/// JFCL: the accumulator field selects among the four highest flags.
pub(crate) fn jfcl_effect(given: Inputs) -> Effect
    ensures value { result ≡ jfcl_of given }
    ensures narrow { NarrowEffect result }
{
    wordless(clear_and_jump(given.field % 16 * FLOATING_OVERFLOW, given.e, given.status))
}
