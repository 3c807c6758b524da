ghost use Rattle.ka10.specs.Calls.{lent, RunsByBytes};
ghost use Rattle.ka10.specs.Numbers.{ReadAsWritten};
ghost use Rattle.packed.specs.Words.{packed_words};
ghost use Rattle.std.specs.Prelude.{◌≡◌, length};

use crate::admission::Request;
use crate::numbers::write_numbers;
use crate::program::run_in_core;
use memory::Core;
use packed::PackedCore;
use words::Refusal;

/// How many words a packed core has. By a core, whose `len` is the count's one definition.
fn word_count(bytes: &mut [u8]) -> u64
    ensures count { result ≡ length (packed_words bytes.old) }
    ensures same { bytes.new ≡ bytes.old }
{
    PackedCore::new(bytes).len()
}

/// Runs one program by bytes: up to `steps` steps of the program that `record` holds, in its place in the packed
/// core, with what came of it in `reply`. Where it is refused, nothing has changed.
#[tactic(auto, using(crate::proofs::Eights::call_laws))]
pub fn ka10_run(
    core: &mut [u8],
    base: u64,
    blocks: u64,
    steps: u64,
    record: &mut [u8],
    reply: &mut [u8],
) -> Result<(), Refusal>
    ensures runs { RunsByBytes base blocks steps (lent core.old «record».old reply.old) (lent core.new «record».new reply.new) result }
    ensures read_as_written { ReadAsWritten }
{
    let request = Request {
        base,
        blocks,
        steps,
    };
    let given = request.admit(word_count(core), record, reply.len())?;
    let left = run_in_core(core, &request, &given);
    write_numbers(&<[u64; 20]>::from(left.record), record);
    let done = left.reply;
    write_numbers(&[done.steps, done.stop.number(), done.stop.word()], reply);
    Ok(())
}

#[cfg(test)]
mod tests {
    use super::*;

    // The least refusal comes first, and nothing is written.
    #[test]
    fn a_core_of_one_pair_is_refused(rt: HostRuntime) {
        let mut core = [7; 9];
        let mut record = [0; 160];
        let mut reply = [9; 24];
        assert_eq!(rt;
            ka10_run(&mut core, 0, 0, 0, &mut record, &mut reply),
            Err(Refusal::CoreNotWholeBlocks)
        );
        assert_eq!(rt; core, [7; 9]);
        assert_eq!(rt; reply, [9; 24]);
    }

    // An XCT in accumulator 0 of itself: the 65th executed word is stop 5, and its step does not count.
    #[test]
    fn an_endless_chain_of_executed_words_stops(rt: HostRuntime) {
        let mut core = [0; 4608];
        let mut record = [0; 160];
        record[3] = 5;
        record[4] = 0x70;
        record[142] = 0x10;
        record[159] = 2;
        let mut reply = [9; 24];
        assert_eq!(rt;
            ka10_run(&mut core, 0, 1, 3, &mut record, &mut reply),
            Err(Refusal::AllowanceExceeded)
        );
        assert_eq!(rt; reply[15], 9);
        assert_eq!(rt;
            ka10_run(&mut core, 0, 1, 2, &mut record, &mut reply),
            Ok(())
        );
        assert_eq!(rt; reply[7], 0);
        assert_eq!(rt; reply[15], 5);
        assert_eq!(rt; record[151], 0);
    }
}
