ghost use Rattle.std.specs.Prelude.{◌≡◌};
ghost use Rattle.operations.specs.Decode.{decoded};
ghost use Rattle.machine.specs.Endings.{ended};
ghost use Rattle.machine.specs.Execution.{carried_out, one_word, executed};
ghost use Rattle.machine.specs.Machine.{state};
ghost use Rattle.machine.specs.User.{outside};

use crate::address::effective_address;
use crate::located::Located;
use crate::next::Next;
use crate::perform::perform;
use crate::place::Place;
use crate::reference::read;
use crate::special::{block_transfer, user_call};
use memory::Core;
use operations::{Instruction, decode};
use stops::Stop;

/// How many words one step may execute after its first.
const FURTHER_WORDS: u64 = 63;

/// Executes one word whose address is known.
#[tactic(auto, unfolding(crate::specs::Execution::carried_out))]
fn carry_out<C: Core>(core: &mut C, place: &mut Place, word: u64, at: Located) -> Result<Next, Stop>
    ensures does { ended (state place.new (C.words core.new)) result
        ≡ carried_out (decoded word) (state place.old (C.words core.old)) word at }
    ensures keeps { outside place.new.space (C.words core.new) (C.rest core.new)
        ≡ outside place.old.space (C.words core.old) (C.rest core.old) }
{
    // A match and no table of functions: the kinds are fixed, and one of them has an operation to hand on.
    match decode(word) {
        Instruction::UserCall => user_call(core, place, word, at),
        Instruction::Execute => Ok(Next::At(at.address)),
        Instruction::BlockTransfer => block_transfer(core, place, word, at),
        Instruction::Ordinary(op) => perform(core, place, op, word, at),
    }
}

/// Executes one word.
#[tactic(auto, unfolding(crate::specs::Execution::one_word))]
fn one_word<C: Core>(core: &mut C, place: &mut Place, word: u64) -> Result<Next, Stop>
    ensures does { ended (state place.new (C.words core.new)) result
        ≡ one_word (state place.old (C.words core.old)) word }
    ensures keeps { outside place.new.space (C.words core.new) (C.rest core.new)
        ≡ outside place.old.space (C.words core.old) (C.rest core.old) }
{
    let at = effective_address(core, &place.space, word)?;
    carry_out(core, place, word, at)
}

/// Executes a word and all that follow it in the step.
#[tactic(auto, using(crate::proofs::ExecutionLaws::execution_laws))]
pub(crate) fn execute<C: Core>(
    core: &mut C,
    place: &mut Place,
    first: u64,
) -> Result<Option<Stop>, Stop>
    ensures does { ended (state place.new (C.words core.new)) result
        ≡ executed 63 (state place.old (C.words core.old)) first }
    ensures keeps { outside place.new.space (C.words core.new) (C.rest core.new)
        ≡ outside place.old.space (C.words core.old) (C.rest core.old) }
{
    // A budget counted by hand. A `for` was tried: the last word is then executed after it, and that second call of
    // `one_word` keeps the compiler from inlining it, which makes a step longer by a fifth (tests/speed/count.sh).
    let mut budget = FURTHER_WORDS;
    let mut word = first;
    loop {
        match one_word(core, place, word)? {
            Next::Done(stop) => return Ok(stop),
            Next::At(_) if budget == 0 => return Err(Stop::ExecutedWords),
            Next::At(address) => {
                budget -= 1;
                word = read(core, &place.space, address)?;
            }
        }
    }
}
