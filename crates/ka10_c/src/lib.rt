//! The static library for callers in C (include/ka10.h): `ka10_run` of the library `ka10`, exported under its name.

#![tactic(auto)]

ghost use Rattle.ka10.specs.Calls.{lent, RunsByNumber};
ghost use Rattle.ka10.specs.Numbers.{ReadAsWritten};

/// Runs one program by bytes: up to `steps` steps of the program that `record` holds, in its place in the packed
/// core, with what came of it in `reply`. The result is 0, or the number of the refusal, and then nothing has changed: C
/// knows no `Result`, so the answer goes out as a number.
#[unsafe(no_mangle)]
pub extern "C" fn ka10_run(
    core: &mut [u8],
    base: u64,
    blocks: u64,
    steps: u64,
    record: &mut [u8],
    reply: &mut [u8],
) -> u32
    ensures runs { RunsByNumber base blocks steps (lent core.old «record».old reply.old) (lent core.new «record».new reply.new) result }
    ensures read_as_written { ReadAsWritten }
{
    match ka10::ka10_run(core, base, blocks, steps, record, reply) {
        Ok(()) => 0,
        Err(refusal) => u64::from(refusal) as u32,
    }
}
