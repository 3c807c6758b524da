//! The user address that an instruction reads as its operand.

ghost use Rattle.instructions.specs.Booleans.{read_by_table, without_operand};
ghost use Rattle.instructions.specs.HalfWords.{read_by_half_word, read_to_keep};
ghost use Rattle.instructions.specs.Moves.{read_by_move_mode};
ghost use Rattle.instructions.specs.Operands.{operand_at};
ghost use Rattle.instructions.specs.Results.{read_by_mode};
ghost use Rattle.instructions.specs.Tests.{read_by_mask};
ghost use Rattle.std.specs.Prelude.{◌≡◌};

use logic::{HalfMove, Other, left, right};
use operations::{MaskFrom, Mode, MoveMode, Operation};

/// The user address that an instruction reads as its operand, if it reads one.
#[tactic(auto, unfolding(crate::specs::Operands::operand_at))]
pub fn operand_address(op: Operation, e: u64, ac: u64) -> Option<u64>
    ensures { result ≡ operand_at op e ac }
{
    match op {
        Operation::Move(_, mode) => read_by_move_mode(mode, e),
        Operation::Idiv(mode) | Operation::Add(mode) | Operation::Sub(mode) => read_by_mode(
            mode, e,
        ),
        Operation::Boolean(table, mode) => read_by_table(table, mode, e),
        Operation::HalfWord(kind, mode) => read_by_half_word(kind, mode, e),
        Operation::Test(from, _, _) => read_by_mask(from, e),
        Operation::Exch
        | Operation::Push
        | Operation::Cam(_)
        | Operation::Skip(_)
        | Operation::Aos(_)
        | Operation::Sos(_) => Some(e),
        Operation::Pop | Operation::Popj => Some(right(ac)),
        Operation::Jra => Some(left(ac)),
        Operation::MonitorCall
        | Operation::NotInstalled
        | Operation::Nothing
        | Operation::Shift(_)
        | Operation::Jffo => None,
        Operation::Aobjp | Operation::Aobjn | Operation::Jrst(_) | Operation::Jfcl => None,
        Operation::Pushj | Operation::Jsr | Operation::Jsp | Operation::Jsa => None,
        Operation::Cai(_) | Operation::Jump(_) | Operation::Aoj(_) | Operation::Soj(_) => None,
    }
}

/// What arithmetic reads.
fn read_by_mode(mode: Mode, e: u64) -> Option<u64>
    ensures { result ≡ read_by_mode mode e }
{
    (mode != Mode::Immediate).then_some(e)
}

/// What a full-word move reads.
fn read_by_move_mode(mode: MoveMode, e: u64) -> Option<u64>
    ensures { result ≡ read_by_move_mode mode e }
{
    matches!(mode, MoveMode::Basic | MoveMode::Own).then_some(e)
}

/// Whether a Boolean function, by its truth table, does not look at the operand.
fn without_operand(table: u64) -> bool
    ensures { result ≡ without_operand table }
{
    matches!(table, 0 | 5 | 10 | 15)
}

/// What a Boolean function reads.
fn read_by_table(table: u64, mode: Mode, e: u64) -> Option<u64>
    ensures { result ≡ read_by_table table mode e }
{
    if without_operand(table % 16) {
        None
    } else {
        read_by_mode(mode, e)
    }
}

/// What a half-word move to memory reads, to keep the other half.
fn read_to_keep(other: Other, e: u64) -> Option<u64>
    ensures { result ≡ read_to_keep other e }
{
    (other == Other::Kept).then_some(e)
}

/// What a half-word move reads.
fn read_by_half_word(kind: HalfMove, mode: MoveMode, e: u64) -> Option<u64>
    ensures { result ≡ read_by_half_word kind mode e }
{
    match mode {
        MoveMode::Basic | MoveMode::Own => Some(e),
        MoveMode::Immediate => None,
        MoveMode::Memory => read_to_keep(kind.other, e),
    }
}

/// What a test reads.
fn read_by_mask(from: MaskFrom, e: u64) -> Option<u64>
    ensures { result ≡ read_by_mask from e }
{
    matches!(from, MaskFrom::Direct | MaskFrom::Swapped).then_some(e)
}
