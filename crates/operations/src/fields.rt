//! The fields of an instruction word. Each is read by a division and a remainder of its own: one function of a place and a
//! width would say at each call what stands here once.

ghost use Rattle.operations.specs.Fields.{opcode, accumulator, direct, index};
ghost use Rattle.std.specs.Prelude.{◌≡◌};

/// The code, which says what the instruction does.
pub fn opcode(word: u64) -> u64
    ensures { result ≡ opcode word }
{
    word / (1 << 27) % 512
}

/// The number of the accumulator that the instruction names.
pub fn accumulator(word: u64) -> u64
    ensures { result ≡ accumulator word }
{
    word / (1 << 23) % 16
}

/// Whether the address is the effective one as it stands, and not the place of a word to take it from.
pub fn is_direct(word: u64) -> bool
    ensures { result ≡ direct word }
{
    word / (1 << 22) % 2 == 0
}

/// The number of the index register. A number and no Option: it is the field as it stands in the word, where 0 means
/// none.
pub fn index(word: u64) -> u64
    ensures { result ≡ index word }
{
    word / (1 << 18) % 16
}
