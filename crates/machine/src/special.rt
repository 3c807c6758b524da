ghost use Rattle.std.specs.Prelude.{◌≡◌, ◌^◌, ◌<◌};
ghost use Rattle.operations.specs.declared.operation.Instruction.TheVariants.{UserCall, BlockTransfer};
ghost use Rattle.machine.specs.Endings.{ended};
ghost use Rattle.machine.specs.Execution.{call_word, carried_out};
ghost use Rattle.machine.specs.Machine.{state};
ghost use Rattle.machine.specs.User.{outside};

use crate::located::Located;
use crate::next::Next;
use crate::place::Place;
use crate::reference::write;
use crate::transfer::transfer;
use logic::{left, right};
use memory::Core;
use operations::accumulator;
use stops::Stop;
use words::HALF_LIMIT;

/// Where a call of the user's own is stored; the word after it is executed.
const CALL_AT: u64 = 0o40;

/// The call that a word makes: its bits 0 to 12, and the effective address.
pub(crate) fn call_word(word: u64, e: u64) -> u64
    ensures value { result ≡ call_word word e }
    ensures narrow { result < 2 ^ 36 }
{
    (word >> 23) % (1 << 13) * (1 << 23) + e % HALF_LIMIT
}

/// A call of the user's own, codes 001 to 037: it is stored, and the word after it follows.
#[tactic(auto, unfolding(crate::specs::Execution::carried_out))]
pub(crate) fn user_call<C: Core>(
    core: &mut C,
    place: &mut Place,
    word: u64,
    at: Located,
) -> Result<Next, Stop>
    ensures does { ended (state place.new (C.words core.new)) result
        ≡ carried_out UserCall (state place.old (C.words core.old)) word at }
    ensures keeps { outside place.new.space (C.words core.new) (C.rest core.new)
        ≡ outside place.old.space (C.words core.old) (C.rest core.old) }
{
    write(core, &mut place.space, CALL_AT, call_word(word, at.address))?;
    Ok(Next::At(CALL_AT + 1))
}

/// BLT: moves words from the address in the accumulator's left half on to that in its right half on.
#[tactic(auto, using(crate::proofs::UserLaws::user_laws), unfolding(crate::specs::Execution::carried_out))]
pub(crate) fn block_transfer<C: Core>(
    core: &mut C,
    place: &mut Place,
    word: u64,
    at: Located,
) -> Result<Next, Stop>
    ensures does { ended (state place.new (C.words core.new)) result
        ≡ carried_out BlockTransfer (state place.old (C.words core.old)) word at }
    ensures keeps { outside place.new.space (C.words core.new) (C.rest core.new)
        ≡ outside place.old.space (C.words core.old) (C.rest core.old) }
{
    let ac = place.space.accumulators[accumulator(word) as usize];
    let to = right(ac);
    // Up to the word that goes to E, and one at least.
    let count = at.address.saturating_sub(to) + 1;
    transfer(core, place, count, left(ac), to)?;
    Ok(Next::Done(None))
}
