ghost use Rattle.std.specs.Prelude.{◌≡◌, ◌^◌, ◌<◌, ◌≤◌};
ghost use Rattle.machine.specs.Endings.{ended};
ghost use Rattle.machine.specs.Machine.{state};
ghost use Rattle.machine.specs.Transfer.{transferred};
ghost use Rattle.machine.specs.User.{outside};

use crate::place::Place;
use crate::reference::{read, write};
use memory::Core;
use stops::Stop;
use words::HALF_LIMIT;

/// Moves so many words, one by one, each read and then written.
#[tactic(auto, using(crate::proofs::TransferLaws::transfer_laws))]
pub(crate) fn transfer<C: Core>(
    core: &mut C,
    place: &mut Place,
    count: u64,
    from: u64,
    to: u64,
) -> Result<(), Stop>
    requires { (count ≤ 2 ^ 18) × (from < 2 ^ 18) × (to < 2 ^ 18) }
    ensures does { ended (state place.new (C.words core.new)) result
        ≡ transferred count from to (state place.old (C.words core.old)) }
    ensures keeps { outside place.new.space (C.words core.new) (C.rest core.new)
        ≡ outside place.old.space (C.words core.old) (C.rest core.old) }
{
    for k in 0..count {
        let w = read(core, &place.space, (from + k) % HALF_LIMIT)?;
        write(core, &mut place.space, (to + k) % HALF_LIMIT, w)?;
    }
    Ok(())
}
