ghost use Rattle.std.specs.Prelude.{◌+◌, ◌≤◌};
ghost use Rattle.words.specs.Word.{Narrow};

/// How many accumulators a program has: the words at its user addresses below this.
pub(crate) const ACCUMULATORS: u64 = 16;

/// What a program refers to: its block in core, and its accumulators.
#[derive(Drop, PartialEq, Eq, Debug)]
pub struct Space {
    pub base: u64,
    pub blocks: u64,
    pub accumulators: [u64; ACCUMULATORS as usize],
    ghost some: { 1 ≤ blocks },
    ghost near: { base + blocks ≤ 256 },
    ghost narrow: { Narrow accumulators },
}
