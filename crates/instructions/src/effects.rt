//! What each instruction does.

ghost use Rattle.std.specs.Prelude.{◌≡◌, ◌^◌, ◌<◌};
ghost use Rattle.instructions.specs.Effects.{effect_of};
ghost use Rattle.instructions.specs.Narrow.{NarrowEffect};
ghost use Rattle.instructions.specs.PushdownLaw.{PushThenPop};

use crate::bit_tests::test_effect;
use crate::booleans::boolean_effect;
use crate::calls::{monitor_call, not_installed};
use crate::compares::{
    aoj_effect, aos_effect, cai_effect, cam_effect, jump_effect, skip_effect, soj_effect,
    sos_effect,
};
use crate::division::idiv_effect;
use crate::half_words::half_word_effect;
use crate::jumps::{aobjn_effect, aobjp_effect, jfcl_effect, jrst_effect};
use crate::moves::{exch_effect, move_effect};
use crate::pushdown::{pop_effect, popj_effect, push_effect, pushj_effect};
use crate::results::wordless;
use crate::shifting::{jffo_effect, shift_effect};
use crate::subroutines::{jra_effect, jsa_effect, jsp_effect, jsr_effect};
use crate::sums::{add_effect, sub_effect};
use operations::{Effect, Inputs, Operation};

/// What an instruction does.
#[tactic(auto, using(crate::proofs::Pushdowns::push_then_pop), unfolding(crate::specs::Effects::effect_of))]
pub fn effect_of(op: Operation, given: Inputs) -> Effect
    ensures value { result ≡ effect_of op given }
    ensures narrow { given.ac < 2 ^ 36 → given.next < 2 ^ 36 → given.operand < 2 ^ 36 → given.e < 2 ^ 18 → NarrowEffect result }
    ensures push_then_pop { PushThenPop }
{
    // A match over every operation: the arms take different fields, and a table of functions would hide them.
    match op {
        Operation::MonitorCall => monitor_call(given),
        Operation::NotInstalled => not_installed(given),
        Operation::Nothing => wordless(given.status),
        Operation::Move(form, mode) => move_effect(form, mode, given),
        Operation::Idiv(mode) => idiv_effect(mode, given),
        Operation::Shift(shift) => shift_effect(shift, given),
        Operation::Jffo => jffo_effect(given),
        Operation::Exch => exch_effect(given),
        Operation::Aobjp => aobjp_effect(given),
        Operation::Aobjn => aobjn_effect(given),
        Operation::Jrst(restores) => jrst_effect(restores, given),
        Operation::Jfcl => jfcl_effect(given),
        Operation::Pushj => pushj_effect(given),
        Operation::Push => push_effect(given),
        Operation::Pop => pop_effect(given),
        Operation::Popj => popj_effect(given),
        Operation::Jsr => jsr_effect(given),
        Operation::Jsp => jsp_effect(given),
        Operation::Jsa => jsa_effect(given),
        Operation::Jra => jra_effect(given),
        Operation::Add(mode) => add_effect(mode, given),
        Operation::Sub(mode) => sub_effect(mode, given),
        Operation::Cai(condition) => cai_effect(condition, given),
        Operation::Cam(condition) => cam_effect(condition, given),
        Operation::Jump(condition) => jump_effect(condition, given),
        Operation::Skip(condition) => skip_effect(condition, given),
        Operation::Aoj(condition) => aoj_effect(condition, given),
        Operation::Aos(condition) => aos_effect(condition, given),
        Operation::Soj(condition) => soj_effect(condition, given),
        Operation::Sos(condition) => sos_effect(condition, given),
        Operation::Boolean(table, mode) => boolean_effect(table, mode, given),
        Operation::HalfWord(kind, mode) => half_word_effect(kind, mode, given),
        Operation::Test(from, change, when) => test_effect(from, change, when, given),
    }
}
