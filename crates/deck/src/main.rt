// Carries a supplier's deck through a packed core: reads it from standard input, stores it from address 0 on,
// reads it back, runs it in a place of its own, and says what it did.

#![tactic(auto)]

use anyhow::anyhow;
use decks::{accumulators, blocks_for, count_equal, read_deck, store};
use machine::{Place, Reply, Space, run};
use memory::Core;
use operations::{Status, USER};
use packed::{BLOCK_BYTES, PackedCore};
use std::io::Read;
use std::process::ExitCode;

/// Where a deck's program begins.
const START: u64 = 0o20;

/// How many steps it is given.
const MOST_STEPS: u64 = 1_000_000;

/// Runs the deck that the core holds, and prints how the run ended and which words of memory the program changed.
fn run_deck(
    rt: &HostRuntime,
    core: &mut PackedCore,
    blocks: u64,
    deck: &[u64],
) -> anyhow::Result<()> {
    // A program needs a block at least, and no core has more than 256.
    if blocks == 0 || blocks > 256 {
        return Ok(());
    }
    let space = Space {
        base: 0,
        blocks,
        accumulators: accumulators(deck),
    };
    let status = Status {
        pc: START,
        flags: USER,
    };
    let mut place = Place { space, status };
    let Reply { steps, stop } = run(core, &mut place, MOST_STEPS);
    let number = stop.number();
    let word = stop.word();
    let Status { pc, flags } = place.status;
    println!(rt; "run: {steps} steps, stop {number}: {stop}")?;
    println!(rt; "word {word:012o}, PC {pc:06o}, flags {flags:06o}")?;
    for (address, was) in deck.iter().enumerate().skip(16) {
        if let Ok(word) = core.read(address as u64)
            && word != *was
        {
            println!(rt; "{address:06o}: {word:012o} = {word}")?;
        }
    }
    Ok(())
}

fn carry(rt: &HostRuntime) -> anyhow::Result<()> {
    let heap = rt.alloc();
    let mut text = Vec::new(heap);
    rt.stdin().read_to_end(&mut text)?;
    let deck = read_deck(heap, text.as_slice())?;
    let count = deck.len();
    let blocks = blocks_for(count as u64);
    let size = blocks as usize * BLOCK_BYTES;
    println!(rt; "deck: {count} words, {blocks} blocks of 1024 words, {size} bytes")?;

    let mut bytes = vec![in heap; 0u8; size]?;
    let mut core = PackedCore::new(bytes.as_mut_slice());
    store(&mut core, deck.as_slice()).map_err(|refusal| anyhow!(
        "the core refused the deck: {refusal:?}"
    ))?;
    let equal = count_equal(&core, deck.as_slice());
    if let Some(pair) = bytes.first_chunk::<9>() {
        print!(rt; "first pair:")?;
        for byte in pair {
            print!(rt; " {byte:02x}")?;
        }
        println!(rt; "")?;
    }
    println!(rt; "read back: {equal} of {count} words are equal")?;
    let mut core = PackedCore::new(bytes.as_mut_slice());
    run_deck(rt, &mut core, blocks, deck.as_slice())
}

fn main(rt: HostRuntime) -> ExitCode {
    match carry(&rt) {
        Ok(()) => ExitCode::SUCCESS,
        Err(error) => {
            // if this cannot be written either, the exit status still tells
            let _ = eprintln!(rt; "deck: {error}");
            ExitCode::FAILURE
        }
    }
}
