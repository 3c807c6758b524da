ghost use Rattle.std.specs.Prelude.{◌≡◌, ◌+◌, ◌*◌, ◌^◌, ◌<◌, ◌≤◌, true, length};
ghost use Rattle.ka10.specs.Calls.{outcome, numbers_of, Ran};
ghost use Rattle.ka10.specs.Records.{good_record};
ghost use Rattle.packed.specs.Words.{packed_words};

use crate::admission::Request;
use crate::block::run_block;
use crate::records::Record;
use machine::{Place, Reply, Space};
use operations::Status;
use packed::BLOCK_BYTES;

/// What is to be written of a run: the program's record, and the machine's reply.
#[derive(Clone, Copy, PartialEq, Eq, Debug)]
pub struct Left {
    pub record: Record,
    pub reply: Reply,
}

/// The record of a program that has done so many steps more and has these accumulators and this status then.
fn record_after(given: &Record, space: &Space, status: Status, done: u64) -> Record
    requires { given.now.count + done < 2 ^ 64 }
    ensures { result ≡ record {
      accumulators = space.now.accumulators;
      pc = status.pc;
      flags = status.flags;
      count = given.now.count + done;
      allowance = given.now.allowance;
    } }
{
    Record {
        accumulators: space.accumulators,
        pc: status.pc,
        flags: status.flags,
        count: given.count + done,
        allowance: given.allowance,
    }
}

/// Makes a run in the bytes of the program's block, which is a core of its own with the program from its start
/// on. So nothing outside the block can change. The block's length goes with `blocks`, so a clause says it and no type.
fn run_program(block: &mut [u8], blocks: u64, steps: u64, given: &Record) -> Left
    requires block { (length block.old ≡ 4608 * blocks) × ((1 ≤ blocks) × (blocks ≤ 256)) }
    requires call { (good_record given.now ≡ true) × (steps ≤ 1000000) }
    ensures { Ran 0 blocks given.now (outcome given.now 0 blocks steps block.old) block.old block.new
        result.«record» (numbers_of result.reply.steps result.reply.stop) }
{
    let mut place = Place {
        space: Space {
            base: 0,
            blocks,
            accumulators: given.accumulators,
        },
        status: Status {
            pc: given.pc,
            flags: given.flags,
        },
    };
    let reply = run_block(block, &mut place, steps);
    Left {
        record: record_after(given, &place.space, place.status, reply.steps),
        reply,
    }
}

/// Makes a run in a packed core that has the program's block.
#[tactic(auto, using(crate::proofs::Lifting::block_laws))]
pub(crate) fn run_in_core(core: &mut [u8], request: &Request, given: &Record) -> Left
    requires block { (1 ≤ request.now.blocks) × (1024 * (request.now.base + request.now.blocks) ≤ length (packed_words core.old)) }
    requires call { (good_record given.now ≡ true) × (request.now.steps ≤ 1000000) }
    ensures { Ran request.now.base request.now.blocks given.now
        (outcome given.now request.now.base request.now.blocks request.now.steps core.old) core.old core.new
        result.«record» (numbers_of result.reply.steps result.reply.stop) }
{
    let start = BLOCK_BYTES * request.base as usize;
    let end = start + BLOCK_BYTES * request.blocks as usize;
    run_program(&mut core[start..end], request.blocks, request.steps, given)
}
