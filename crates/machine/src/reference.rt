ghost use Rattle.std.specs.Prelude.{◌≡◌, ◌^◌, ◌<◌, IfOk, slice_set};
ghost use Rattle.machine.specs.User.{user, fetched, stored, outside};

use crate::space::{ACCUMULATORS, Space};
use memory::{BLOCK_WORDS, Core};
use stops::Stop;

// Both functions take the space and no place: what reads or writes one word leaves PC and flags alone.

/// The word at user address `a`.
#[tactic(auto, using(crate::proofs::UserLaws::user_laws))]
pub(crate) fn read<C: Core>(core: &C, space: &Space, a: u64) -> Result<u64, Stop>
    ensures value { result ≡ fetched (user space.now (C.words core.now)) a }
    ensures narrow { IfOk result (λ w. w < 2 ^ 36) }
{
    if a < ACCUMULATORS {
        return Ok(space.accumulators[a as usize]);
    }
    if a >= BLOCK_WORDS * space.blocks {
        return Err(Stop::IllegalAddress(a));
    }
    core.read(BLOCK_WORDS * space.base + a)
        .map_err(|_| Stop::IllegalAddress(a))
}

/// Puts the word `w` at user address `a`.
#[tactic(auto, using(crate::proofs::UserLaws::user_laws))]
pub(crate) fn write<C: Core>(core: &mut C, space: &mut Space, a: u64, w: u64) -> Result<(), Stop>
    requires { w < 2 ^ 36 }
    ensures answer { result ≡ stored (user space.old (C.words core.old)) a }
    ensures after { user space.new (C.words core.new) ≡ slice_set (user space.old (C.words core.old)) a w }
    ensures keeps { outside space.new (C.words core.new) (C.rest core.new)
        ≡ outside space.old (C.words core.old) (C.rest core.old) }
{
    if a < ACCUMULATORS {
        space.accumulators[a as usize] = w;
        return Ok(());
    }
    if a >= BLOCK_WORDS * space.blocks {
        return Err(Stop::IllegalAddress(a));
    }
    core.write(BLOCK_WORDS * space.base + a, w)
        .map_err(|_| Stop::IllegalAddress(a))
}
