use stops::Stop;

/// The flag User: a user's program runs with it on, and cannot turn it off.
pub const USER: u64 = 0o010000;

/// Where a program is, and its flags, as a number as they stand in the left half of a PC word. A number and no set of
/// named flags: a status is taken with any bits, and hands on those that have no name.
#[derive(Clone, Copy, PartialEq, Eq, Debug)]
pub struct Status {
    pub pc: u64,
    pub flags: u64,
}

/// What an instruction is given: its accumulator field, the words of that accumulator and of the next,
/// its effective address, its operand, the word that flags may be taken from, the call that it makes
/// if it is one, and the status after it was fetched, whose `pc` is already the address of the next instruction.
/// An instruction without an operand is given 0 for it, and does not look at it.
#[derive(Clone, Copy, PartialEq, Eq, Debug)]
pub struct Inputs {
    pub field: u64,
    pub ac: u64,
    pub next: u64,
    pub e: u64,
    pub operand: u64,
    pub flag_word: Option<u64>,
    pub call: u64,
    pub status: Status,
}

/// What an instruction does: a store in memory, as address and word, new words of accumulators A and A + 1, the status
/// after it, and a stop if it makes one.
///
/// That the words of an effect are narrow is a fact of clauses and no field of this type: what an instruction does is
/// promised for wider inputs too, and one that hands such an input on writes a wider word.
#[derive(Clone, Copy, PartialEq, Eq, Debug)]
pub struct Effect {
    pub store: Option<(u64, u64)>,
    pub a: Option<u64>,
    pub a1: Option<u64>,
    pub status: Status,
    pub stop: Option<Stop>,
}
