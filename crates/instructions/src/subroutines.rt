//! The calls of subroutines that keep the way back in a word or an accumulator: JSR, JSP, JSA, and JRA that returns.

ghost use Rattle.std.specs.Prelude.{◌≡◌, ◌^◌, ◌<◌};
ghost use Rattle.instructions.specs.Narrow.{NarrowEffect};
ghost use Rattle.instructions.specs.Subroutines.{called, jra_of, jsa_of, jsp_of, jsr_of, pc_word};

use crate::results::{cleared, following, jumped, to_a, to_memory, wordless};
use logic::from_halves;
use operations::{Effect, Inputs, Status};

/// The flag Byte Interrupt. It tells of the instruction that was interrupted, so a called program does not see it.
pub(crate) const BYTE_INTERRUPT: u64 = 0o020000;

/// The PC word: the flags and the address of the next instruction.
pub(crate) fn pc_word(status: Status) -> u64
    ensures value { result ≡ pc_word status }
    ensures narrow { result < 2 ^ 36 }
{
    from_halves(status.flags, status.pc)
}

/// The program goes on at `e`, without Byte Interrupt, which the PC word has kept.
pub(crate) fn called(e: u64, status: Status) -> Status
    ensures { result ≡ called e status }
{
    Status {
        pc: e,
        flags: cleared(BYTE_INTERRUPT, status.flags),
    }
}

/// JSR: the PC word to E, and on at E + 1.
pub(crate) fn jsr_effect(given: Inputs) -> Effect
    ensures value { result ≡ jsr_of given }
    ensures narrow { NarrowEffect result }
{
    to_memory(
        given.e,
        pc_word(given.status),
        called(following(given.e), given.status),
    )
}

/// JSP: the PC word to the accumulator, and on at E.
pub(crate) fn jsp_effect(given: Inputs) -> Effect
    ensures value { result ≡ jsp_of given }
    ensures narrow { NarrowEffect result }
{
    to_a(pc_word(given.status), called(given.e, given.status))
}

/// JSA: the accumulator to E, the word E,,PC to the accumulator, and on at E + 1.
pub(crate) fn jsa_effect(given: Inputs) -> Effect
    ensures value { result ≡ jsa_of given }
    ensures narrow { given.ac < 2 ^ 36 → NarrowEffect result }
{
    Effect {
        store: Some((given.e, given.ac)),
        a: Some(from_halves(given.e, given.status.pc)),
        ..wordless(jumped(following(given.e), given.status))
    }
}

/// JRA: the word that the left half of the accumulator addresses to the accumulator, and on at E.
pub(crate) fn jra_effect(given: Inputs) -> Effect
    ensures value { result ≡ jra_of given }
    ensures narrow { given.operand < 2 ^ 36 → NarrowEffect result }
{
    to_a(given.operand, jumped(given.e, given.status))
}
