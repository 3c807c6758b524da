ghost use Rattle.std.specs.Prelude.{◌≡◌, ℕ, List, None};
ghost use Rattle.machine.specs.Address.{located, effective};
ghost use Rattle.machine.specs.User.{user};

use crate::located::Located;
use crate::reference::read;
use crate::space::Space;
use logic::right;
use memory::Core;
use operations::{index, is_direct};
use stops::Stop;
use words::HALF_LIMIT;

/// How many address words one calculation may fetch.
const ADDRESS_WORDS: u64 = 64;

/// What one word gives; `last` is the word itself if it was fetched as an address word.
#[tactic(auto, using(crate::proofs::AddressLaws::locate_laws), unfolding(crate::specs::Address::located))]
fn locate(space: &Space, last: Option<u64>, word: u64) -> Located
    ensures { (ws : List ℕ) → result ≡ located last (user space.now ws) word }
{
    let own = right(word);
    match index(word) {
        0 => Located {
            address: own,
            flag_word: last,
        },
        register => {
            let added = space.accumulators[register as usize];
            Located {
                address: (own + right(added)) % HALF_LIMIT,
                flag_word: Some(added),
            }
        }
    }
}

/// The effective address of a word.
#[tactic(auto, using(crate::proofs::AddressLaws::address_laws))]
pub(crate) fn effective_address<C: Core>(
    core: &C,
    space: &Space,
    word: u64,
) -> Result<Located, Stop>
    ensures { result ≡ effective 64 None (user space.now (C.words core.now)) word }
{
    let mut last = None;
    let mut at = word;
    // A loop with a falling budget, which the address breaks out of, is a fixed form of this project (docs/DECISIONS.md).
    let mut budget = ADDRESS_WORDS;
    let found = loop {
        let here = locate(space, last, at);
        if is_direct(at) {
            break here;
        }
        if budget == 0 {
            return Err(Stop::AddressWords);
        }
        budget -= 1;
        at = read(core, space, here.address)?;
        last = Some(at);
    };
    Ok(found)
}
