ghost use Rattle.std.specs.Prelude.{◌≡◌, ◌*◌, length, take};
ghost use Rattle.machine.specs.Steps.{state, ran, replied, run_of};
ghost use Rattle.packed.specs.Words.{packed_words};

use machine::{Place, Reply, run};
use packed::PackedCore;

/// Steps of a program in the bytes of its block. The lowest sixteen words are not the program's, nor are the
/// 72 bytes that hold them. The length of the bytes goes with the place's blocks, so a clause says it and no type.
pub(crate) fn run_block(bytes: &mut [u8], place: &mut Place, most: u64) -> Reply
    requires { (place.old.space.base ≡ 0) × (length bytes.old ≡ 4608 * place.old.space.blocks) }
    ensures does { ran (state place.new (packed_words bytes.new)) result.steps result.stop
        ≡ replied (run_of most (state place.old (packed_words bytes.old))) }
    ensures at_the_start { place.new.space.base ≡ place.old.space.base }
    ensures as_large { place.new.space.blocks ≡ place.old.space.blocks }
    ensures lowest { take 72 bytes.new ≡ take 72 bytes.old }
{
    run(&mut PackedCore::new(bytes), place, most)
}
