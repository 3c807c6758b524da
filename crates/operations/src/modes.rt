//! What the low bits of a code say of the operand, in the same way for each instruction of a group.

ghost use Rattle.operations.specs.Decode.{form_of, mask_from_of, mode_of, move_mode_of};
ghost use Rattle.std.specs.Prelude.{◌≡◌};

use crate::operation::{Form, MaskFrom, Mode, MoveMode};

/// The mode of a code of arithmetic or of a Boolean function.
impl From<u64> for Mode {
    ghost from_gives = { λ code mode. mode ≡ mode_of code };

    fn from(code: u64) -> Mode {
        match code % 4 {
            0 => Mode::Basic,
            1 => Mode::Immediate,
            2 => Mode::Memory,
            _ => Mode::Both,
        }
    }
}

/// The mode of a move's code.
impl From<u64> for MoveMode {
    ghost from_gives = { λ code mode. mode ≡ move_mode_of code };

    fn from(code: u64) -> MoveMode {
        match code % 4 {
            0 => MoveMode::Basic,
            1 => MoveMode::Immediate,
            2 => MoveMode::Memory,
            _ => MoveMode::Own,
        }
    }
}

/// The form of a full-word move's code, of the codes 0o200 to 0o217.
impl From<u64> for Form {
    ghost from_gives = { λ code form. form ≡ form_of code };

    fn from(code: u64) -> Form {
        match code / 4 % 4 {
            0 => Form::Full,
            1 => Form::Swapped,
            2 => Form::Negated,
            _ => Form::Magnitude,
        }
    }
}

/// What masks the bits of a test, of the codes 0o600 to 0o677.
impl From<u64> for MaskFrom {
    ghost from_gives = { λ code from. from ≡ mask_from_of code };

    fn from(code: u64) -> MaskFrom {
        match code / 8 % 2 * 2 + code % 2 {
            0 => MaskFrom::Right,
            1 => MaskFrom::Left,
            2 => MaskFrom::Direct,
            _ => MaskFrom::Swapped,
        }
    }
}
