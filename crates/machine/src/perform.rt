ghost use Rattle.std.specs.Prelude.{◌≡◌, ℕ, ◌^◌, ◌<◌, List, IfSome, IfOk};
ghost use Rattle.instructions.specs.Narrow.{NarrowEffect};
ghost use Rattle.machine.specs.Endings.{ended};
ghost use Rattle.machine.specs.Execution.{operand_from, setting, storable, storing, applied, performed};
ghost use Rattle.machine.specs.Machine.{state};
ghost use Rattle.machine.specs.User.{user, outside};

use crate::located::Located;
use crate::next::Next;
use crate::place::Place;
use crate::reference::{read, write};
use crate::space::{ACCUMULATORS, Space};
use crate::special::call_word;
use instructions::{effect_of, operand_address};
use memory::Core;
use operations::{Effect, Inputs, Operation, accumulator};
use stops::Stop;

/// The operand, read if there is one to read. An instruction without one is given 0 and does not look at it.
fn read_operand<C: Core>(core: &C, space: &Space, from: Option<u64>) -> Result<u64, Stop>
    ensures value { result ≡ operand_from from (user space.now (C.words core.now)) }
    ensures narrow { IfOk result (λ w. w < 2 ^ 36) }
{
    from.map_or(Ok(0), |address| read(core, space, address))
}

/// Puts a word into accumulator `k`, if there is one to put.
#[tactic(auto, using(crate::proofs::UserLaws::user_laws))]
fn put(space: &mut Space, k: u64, w: Option<u64>)
    requires { (k < 16) × (IfSome w (λ v. v < 2 ^ 36)) }
    ensures after { (ws : List ℕ) → user space.new ws ≡ setting (user space.old ws) k w }
    ensures same_base { space.new.base ≡ space.old.base }
    ensures same_blocks { space.new.blocks ≡ space.old.blocks }
{
    if let Some(v) = w {
        space.accumulators[k as usize] = v;
    }
}

/// Stores a word in memory, if there is one to store.
fn store<C: Core>(core: &mut C, space: &mut Space, what: Option<(u64, u64)>) -> Result<(), Stop>
    requires { IfSome what (λ s. s.1 < 2 ^ 36) }
    ensures answer { result ≡ storable (user space.old (C.words core.old)) what }
    ensures after { user space.new (C.words core.new) ≡ storing (user space.old (C.words core.old)) what }
    ensures keeps { outside space.new (C.words core.new) (C.rest core.new)
        ≡ outside space.old (C.words core.old) (C.rest core.old) }
{
    // A match and no `map_or`: of what a closure borrows, nothing is known where the closure was not called.
    match what {
        Some((at, w)) => write(core, space, at, w),
        None => Ok(()),
    }
}

/// Carries an effect out: memory first, then A, then A + 1.
#[tactic(auto, unfolding(crate::specs::Execution::applied))]
fn apply<C: Core>(core: &mut C, place: &mut Place, a: u64, f: Effect) -> Result<Next, Stop>
    requires { (a < 16) × (NarrowEffect f) }
    ensures does { ended (state place.new (C.words core.new)) result
        ≡ applied (state place.old (C.words core.old)) a f }
    ensures keeps { outside place.new.space (C.words core.new) (C.rest core.new)
        ≡ outside place.old.space (C.words core.old) (C.rest core.old) }
{
    store(core, &mut place.space, f.store)?;
    put(&mut place.space, a, f.a);
    put(&mut place.space, (a + 1) % ACCUMULATORS, f.a1);
    place.status = f.status;
    Ok(Next::Done(f.stop))
}

/// Performs an ordinary instruction: reads its operand, works its effect out and carries it out.
#[tactic(auto, using(crate::proofs::UserLaws::user_laws), unfolding(crate::specs::Execution::performed))]
pub(crate) fn perform<C: Core>(
    core: &mut C,
    place: &mut Place,
    op: Operation,
    word: u64,
    at: Located,
) -> Result<Next, Stop>
    ensures does { ended (state place.new (C.words core.new)) result
        ≡ performed op (state place.old (C.words core.old)) word at }
    ensures keeps { outside place.new.space (C.words core.new) (C.rest core.new)
        ≡ outside place.old.space (C.words core.old) (C.rest core.old) }
{
    let field = accumulator(word);
    let ac = place.space.accumulators[field as usize];
    let next = place.space.accumulators[((field + 1) % ACCUMULATORS) as usize];
    let operand = read_operand(core, &place.space, operand_address(op, at.address, ac))?;
    let given = Inputs {
        field,
        ac,
        next,
        e: at.address,
        operand,
        flag_word: at.flag_word,
        call: call_word(word, at.address),
        status: place.status,
    };
    apply(core, place, field, effect_of(op, given))
}
