ghost use Rattle.operations.specs.declared.operation.Instruction.TheVariants.{Ordinary};
ghost use Rattle.std.specs.Prelude.{◌≡◌};

use arithmetic::Condition;
use logic::{Change, HalfMove, SkipWhen};

/// Where an arithmetic or Boolean instruction has its operand and its result: the code's last two bits.
#[derive(Clone, Copy, PartialEq, Eq, Debug)]
pub enum Mode {
    /// The word at E; to the accumulator.
    Basic,
    /// The word 0,,E; to the accumulator.
    Immediate,
    /// The word at E; to E.
    Memory,
    /// The word at E; to the accumulator and to E.
    Both,
}

/// Where a move has its source and its destination: the code's last two bits. A type beside `Mode`, since in its last two
/// variants a move reads and stores otherwise than an arithmetic instruction does.
#[derive(Clone, Copy, PartialEq, Eq, Debug)]
pub enum MoveMode {
    /// From E to the accumulator.
    Basic,
    /// From the word 0,,E to the accumulator.
    Immediate,
    /// From the accumulator to E.
    Memory,
    /// From E to E, and to the accumulator too unless it is accumulator 0.
    Own,
}

/// What a full-word move makes of the word.
#[derive(Clone, Copy, PartialEq, Eq, Debug)]
pub enum Form {
    /// MOVE
    Full,
    /// MOVS: the halves exchanged.
    Swapped,
    /// MOVN
    Negated,
    /// MOVM
    Magnitude,
}

/// The shifts and rotations, of one word and of two.
#[derive(Clone, Copy, PartialEq, Eq, Debug)]
pub enum Shift {
    Ash,
    Rot,
    Lsh,
    Ashc,
    Rotc,
    Lshc,
}

/// What masks the bits of a test.
#[derive(Clone, Copy, PartialEq, Eq, Debug)]
pub enum MaskFrom {
    /// TR: the word 0,,E.
    Right,
    /// TL: the word E,,0.
    Left,
    /// TD: the word at E.
    Direct,
    /// TS: the word at E with its halves exchanged.
    Swapped,
}

/// An instruction that reads at most one word, stores at most one and changes at most two accumulators.
#[derive(Clone, Copy, PartialEq, Eq, Debug)]
pub enum Operation {
    MonitorCall,
    NotInstalled,
    /// Does nothing, but its address is worked out.
    Nothing,
    Move(Form, MoveMode),
    Idiv(Mode),
    Shift(Shift),
    Jffo,
    Exch,
    Aobjp,
    Aobjn,
    /// JRST. A yes or no, and no kind: whether it takes the flags from the last address level.
    Jrst(bool),
    Jfcl,
    Pushj,
    Push,
    Pop,
    Popj,
    Jsr,
    Jsp,
    Jsa,
    Jra,
    Add(Mode),
    Sub(Mode),
    Cai(Condition),
    Cam(Condition),
    Jump(Condition),
    Skip(Condition),
    Aoj(Condition),
    Aos(Condition),
    Soj(Condition),
    Sos(Condition),
    /// A Boolean function, by its truth table: the number's four bits are the function's answers, and no code for it.
    Boolean(u64, Mode),
    HalfWord(HalfMove, MoveMode),
    Test(MaskFrom, Change, SkipWhen),
}

/// How a word is executed.
#[derive(Clone, Copy, PartialEq, Eq, Debug)]
pub enum Instruction {
    /// A call of the user's own, codes 001 to 037: it is stored at 40, and the word at 41 is executed.
    UserCall,
    /// XCT: the word at E is executed.
    Execute,
    /// BLT
    BlockTransfer,
    Ordinary(Operation),
}

/// An operation is an instruction of the ordinary kind.
impl From<Operation> for Instruction {
    ghost from_gives = { λ operation instruction. instruction ≡ Ordinary operation };

    fn from(operation: Operation) -> Instruction {
        Instruction::Ordinary(operation)
    }
}
