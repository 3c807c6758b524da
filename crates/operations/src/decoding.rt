//! Which instruction a word is, by its code, which is read in octal.
//!
//! Below `decode`, each function reads one range of codes, and several give the same type. They have names of their own,
//! since a type has only one `From<u64>`. They are matches and no tables of functions: the arms take different fields.

ghost use Rattle.operations.specs.Decode.{decoded, call_of, comparison_of, exchange_of, full_word_of, jrst_of, move_of, shift_of, stack_of};
ghost use Rattle.std.specs.Prelude.{◌≡◌, ◌<◌, ◌≤◌};

use crate::fields::{accumulator, opcode};
use crate::operation::{Form, Instruction, MaskFrom, Mode, MoveMode, Operation, Shift};
use arithmetic::Condition;
use logic::{Change, HalfMove, SkipWhen};

/// The instruction that a word is. Its code alone decides, and for JRST the accumulator field too.
///
/// It is no `From<u64>`, since the conversions from a number take a code, and this takes a whole word.
#[tactic(auto, unfolding(crate::specs::Decode::decoded))]
pub fn decode(word: u64) -> Instruction
    ensures { result ≡ decoded word }
{
    let code = opcode(word);
    match code {
        ..=0o077 => call_of(code),
        0o100..=0o177 => Operation::NotInstalled.into(),
        0o200..=0o277 => full_word_of(code, accumulator(word)),
        0o300..=0o377 => comparison_of(code).into(),
        0o400..=0o477 => Operation::Boolean(code / 4 % 16, Mode::from(code)).into(),
        0o500..=0o577 => Operation::HalfWord(HalfMove::from(code), MoveMode::from(code)).into(),
        0o600..=0o677 => Operation::Test(
            MaskFrom::from(code),
            Change::from(code),
            SkipWhen::from(code),
        )
        .into(),
        _ => Operation::MonitorCall.into(),
    }
}

/// Codes 000 to 077.
fn call_of(code: u64) -> Instruction
    requires { code < 64 }
    ensures { result ≡ call_of code }
{
    match code {
        0o001..=0o037 => Instruction::UserCall,
        _ => Operation::MonitorCall.into(),
    }
}

/// Codes 200 to 277: moves, integer arithmetic, shifts, and jumps that save or restore.
fn full_word_of(code: u64, field: u64) -> Instruction
    requires { (128 ≤ code) × (code < 192) }
    ensures { result ≡ full_word_of code field }
{
    match code {
        0o200..=0o217 => move_of(code).into(),
        0o230..=0o233 => Operation::Idiv(Mode::from(code)).into(),
        0o240..=0o247 => shift_of(code).into(),
        0o250..=0o257 => exchange_of(code, field),
        0o260..=0o267 => stack_of(code).into(),
        0o270..=0o273 => Operation::Add(Mode::from(code)).into(),
        0o274..=0o277 => Operation::Sub(Mode::from(code)).into(),
        _ => Operation::NotInstalled.into(),
    }
}

/// Codes 200 to 217.
fn move_of(code: u64) -> Operation
    ensures { result ≡ move_of code }
{
    Operation::Move(Form::from(code), MoveMode::from(code))
}

/// Codes 240 to 247.
fn shift_of(code: u64) -> Operation
    ensures { result ≡ shift_of code }
{
    match code % 8 {
        0 => Operation::Shift(Shift::Ash),
        1 => Operation::Shift(Shift::Rot),
        2 => Operation::Shift(Shift::Lsh),
        3 => Operation::Jffo,
        4 => Operation::Shift(Shift::Ashc),
        5 => Operation::Shift(Shift::Rotc),
        6 => Operation::Shift(Shift::Lshc),
        _ => Operation::Nothing,
    }
}

/// Codes 250 to 257.
fn exchange_of(code: u64, field: u64) -> Instruction
    ensures { result ≡ exchange_of code field }
{
    match code % 8 {
        0 => Operation::Exch.into(),
        1 => Instruction::BlockTransfer,
        2 => Operation::Aobjp.into(),
        3 => Operation::Aobjn.into(),
        4 => jrst_of(field).into(),
        5 => Operation::Jfcl.into(),
        6 => Instruction::Execute,
        _ => Operation::Nothing.into(),
    }
}

/// JRST, code 254. Of its accumulator field, 8 and 4 ask for what only the monitor may do.
fn jrst_of(field: u64) -> Operation
    ensures { result ≡ jrst_of field }
{
    match field / 4 % 4 {
        0 => Operation::Jrst(field / 2 % 2 == 1),
        _ => Operation::MonitorCall,
    }
}

/// Codes 260 to 267.
fn stack_of(code: u64) -> Operation
    ensures { result ≡ stack_of code }
{
    match code % 8 {
        0 => Operation::Pushj,
        1 => Operation::Push,
        2 => Operation::Pop,
        3 => Operation::Popj,
        4 => Operation::Jsr,
        5 => Operation::Jsp,
        6 => Operation::Jsa,
        _ => Operation::Jra,
    }
}

/// Codes 300 to 377.
fn comparison_of(code: u64) -> Operation
    ensures { result ≡ comparison_of code }
{
    let condition = Condition::from(code);
    match code / 8 % 8 {
        0 => Operation::Cai(condition),
        1 => Operation::Cam(condition),
        2 => Operation::Jump(condition),
        3 => Operation::Skip(condition),
        4 => Operation::Aoj(condition),
        5 => Operation::Aos(condition),
        6 => Operation::Soj(condition),
        _ => Operation::Sos(condition),
    }
}
