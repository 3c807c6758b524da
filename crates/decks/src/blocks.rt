ghost use Rattle.std.specs.Prelude.{◌≡◌, ◌+◌, ◌*◌, ◌<◌, ◌≤◌};
ghost use Rattle.decks.specs.Blocks.{blocks_for};

use memory::BLOCK_WORDS;

/// How many whole blocks of 1,024 words this many words need: the least number of blocks that has room
/// for them all.
pub fn blocks_for(words: u64) -> u64
    ensures value { result ≡ blocks_for words }
    ensures room { words ≤ 1024 * result }
    ensures least { 1024 * result < words + 1024 }
{
    words.div_ceil(BLOCK_WORDS)
}
