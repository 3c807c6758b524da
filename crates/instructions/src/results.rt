//! What the effects of the instructions are made of: where a result goes, and where the program goes on.
//!
//! The functions from `Status` to `Status` and the makers of effects are functions and no methods: both types are of
//! `operations`, which knows no instruction.
//!
//! A mode is a field of the operation, and stands beside the inputs; so does a status that has already been changed. A sum
//! comes as `add` answers it, a tuple, so that its word is narrow is a premise of what is made of it.

ghost use Rattle.std.specs.Prelude.{◌≡◌, ◌^◌, ◌<◌};
ghost use Rattle.instructions.specs.Narrow.{NarrowEffect};
ghost use Rattle.instructions.specs.Results.{after_sum, by_mode, cleared, flagged, following, jump_if, jumped, operand_of, skip_if, to_a, to_memory, unless_zero, wordless};

use arithmetic::flags_after;
use operations::{Effect, Inputs, Mode, Status};
use words::HALF_LIMIT;

/// No word changes.
pub(crate) fn wordless(status: Status) -> Effect
    ensures value { result ≡ wordless status }
    ensures narrow { NarrowEffect result }
{
    Effect {
        store: None,
        a: None,
        a1: None,
        status,
        stop: None,
    }
}

/// A word to A.
pub(crate) fn to_a(word: u64, status: Status) -> Effect
    ensures value { result ≡ to_a word status }
    ensures narrow { word < 2 ^ 36 → NarrowEffect result }
{
    Effect {
        a: Some(word),
        ..wordless(status)
    }
}

/// A word to memory.
pub(crate) fn to_memory(e: u64, word: u64, status: Status) -> Effect
    ensures value { result ≡ to_memory e word status }
    ensures narrow { word < 2 ^ 36 → NarrowEffect result }
{
    Effect {
        store: Some((e, word)),
        ..wordless(status)
    }
}

/// The new word of A where A is written only if it is not accumulator 0.
pub(crate) fn unless_zero(field: u64, word: u64) -> Option<u64>
    ensures { result ≡ unless_zero field word }
{
    (field != 0).then_some(word)
}

/// The operand of an arithmetic or Boolean instruction.
pub(crate) fn operand_of(mode: Mode, given: Inputs) -> u64
    ensures { result ≡ operand_of mode given }
{
    match mode {
        Mode::Immediate => given.e,
        Mode::Basic | Mode::Memory | Mode::Both => given.operand,
    }
}

/// The result of an arithmetic or Boolean instruction to where its mode puts it.
pub(crate) fn by_mode(mode: Mode, word: u64, given: Inputs, status: Status) -> Effect
    ensures value { result ≡ by_mode mode word given status }
    ensures narrow { word < 2 ^ 36 → NarrowEffect result }
{
    match mode {
        Mode::Basic | Mode::Immediate => to_a(word, status),
        Mode::Memory => to_memory(given.e, word, status),
        Mode::Both => Effect {
            store: Some((given.e, word)),
            a: Some(word),
            ..wordless(status)
        },
    }
}

/// The status with other flags.
pub(crate) fn flagged(flags: u64, status: Status) -> Status
    ensures { result ≡ flagged flags status }
{
    Status { flags, ..status }
}

/// The flags with some of them off.
pub(crate) fn cleared(which: u64, flags: u64) -> u64
    ensures { result ≡ cleared which flags }
{
    flags & !which
}

/// The status after a sum with its two carries. The sum comes as `add` answers it, a tuple.
pub(crate) fn after_sum(sum: (u64, bool, bool), status: Status) -> Status
    ensures { result ≡ after_sum sum status }
{
    flagged(flags_after(status.flags, sum.1, sum.2), status)
}

/// The address after an address.
pub(crate) fn following(e: u64) -> u64
    ensures { result ≡ following e }
{
    (e % HALF_LIMIT + 1) % HALF_LIMIT
}

/// The program goes on at `e`.
pub(crate) fn jumped(e: u64, status: Status) -> Status
    ensures { result ≡ jumped e status }
{
    Status { pc: e, ..status }
}

/// The program goes on at `e` if it is to jump.
pub(crate) fn jump_if(jumps: bool, e: u64, status: Status) -> Status
    ensures { result ≡ jump_if jumps e status }
{
    if jumps { jumped(e, status) } else { status }
}

/// The next instruction is skipped if it is to be.
pub(crate) fn skip_if(skips: bool, status: Status) -> Status
    ensures { result ≡ skip_if skips status }
{
    if skips {
        jumped(following(status.pc), status)
    } else {
        status
    }
}
