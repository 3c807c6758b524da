//! The shifts and rotations of A, or of A and A + 1 as one number, and JFFO.

ghost use Rattle.std.specs.Prelude.{◌≡◌, ◌^◌, ◌<◌};
ghost use Rattle.instructions.specs.Narrow.{NarrowEffect};
ghost use Rattle.shifts.specs.WordPair.{words_and_overflow, words_of};
ghost use Rattle.instructions.specs.Shifts.{arithmetic_pair_to, arithmetic_to, jffo_of, overflow_if, pair_to, shift_of};

use crate::results::{flagged, jump_if, to_a, wordless};
use arithmetic::{OVERFLOW, raise};
use operations::{Effect, Inputs, Shift, Status};
use shifts::{WordPair, ash, ashc, first_one, lsh, lshc, rot, rotc};
use words::WORD_LIMIT;

/// The status with Overflow on if a bit that counts was lost.
fn overflow_if(lost: bool, status: Status) -> Status
    ensures { result ≡ overflow_if lost status }
{
    flagged(raise(lost, OVERFLOW, status.flags), status)
}

/// A word that was shifted with its sign, to A. Word and Overflow come together, as `ash` answers them.
fn arithmetic_to(shifted: (u64, bool), status: Status) -> Effect
    ensures value { result ≡ arithmetic_to shifted status }
    ensures narrow { shifted.0 < 2 ^ 36 → NarrowEffect result }
{
    to_a(shifted.0, overflow_if(shifted.1, status))
}

/// Two words to A and A + 1.
fn pair_to(words: WordPair, status: Status) -> Effect
    ensures value { result ≡ pair_to (words_of words) status }
    ensures narrow { NarrowEffect result }
{
    Effect {
        a: Some(words.first),
        a1: Some(words.second),
        ..wordless(status)
    }
}

/// Two words that were shifted with their sign, to A and A + 1.
fn arithmetic_pair_to(shifted: (WordPair, bool), status: Status) -> Effect
    ensures value { result ≡ arithmetic_pair_to (words_and_overflow shifted) status }
    ensures narrow { NarrowEffect result }
{
    pair_to(shifted.0, overflow_if(shifted.1, status))
}

/// A shift or a rotation. E says how far and which way.
pub(crate) fn shift_effect(shift: Shift, given: Inputs) -> Effect
    ensures value { result ≡ shift_of shift given }
    ensures narrow { NarrowEffect result }
{
    // A match over every shift: one word or two come back, with or without a bit lost, so no table of functions fits.
    match shift {
        Shift::Ash => arithmetic_to(ash(given.ac, given.e), given.status),
        Shift::Rot => to_a(rot(given.ac, given.e), given.status),
        Shift::Lsh => to_a(lsh(given.ac, given.e), given.status),
        Shift::Ashc => arithmetic_pair_to(ashc(given.ac, given.next, given.e), given.status),
        Shift::Rotc => pair_to(rotc(given.ac, given.next, given.e), given.status),
        Shift::Lshc => pair_to(lshc(given.ac, given.next, given.e), given.status),
    }
}

/// JFFO: the number of 0s to the left of the accumulator's first 1 to A + 1, and a jump if it has one.
pub(crate) fn jffo_effect(given: Inputs) -> Effect
    ensures value { result ≡ jffo_of given }
    ensures narrow { NarrowEffect result }
{
    Effect {
        a1: Some(first_one(given.ac)),
        ..wordless(jump_if(given.ac % WORD_LIMIT != 0, given.e, given.status))
    }
}
