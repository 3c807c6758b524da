//! The half-word moves.

ghost use Rattle.std.specs.Prelude.{◌≡◌, ◌^◌, ◌<◌};
ghost use Rattle.logic.specs.HalfMoves.{Moves, half, half_move_of, moved_half, opposite, rest};

use crate::halves::{from_halves, left, right};
use words::HALF_LIMIT;

/// A half of a word.
#[derive(Clone, Copy, PartialEq, Eq, Debug)]
pub enum Half {
    /// The high 18 bits.
    Left,
    /// The low 18 bits.
    Right,
}

impl Half {
    fn opposite(self) -> Half
        ensures { result ≡ opposite self }
    {
        match self {
            Half::Left => Half::Right,
            Half::Right => Half::Left,
        }
    }

    /// This half of a word.
    fn of(self, w: u64) -> u64
        ensures { result ≡ half self w }
    {
        match self {
            Half::Left => left(w),
            Half::Right => right(w),
        }
    }
}

/// What becomes of the half of the destination that nothing is moved to.
#[derive(Clone, Copy, PartialEq, Eq, Debug)]
pub enum Other {
    /// It stays as it was.
    Kept,
    /// Each bit becomes 0.
    Zeros,
    /// Each bit becomes 1.
    Ones,
    /// Each bit becomes the highest bit of the half that is moved.
    Extended,
}

/// A move of a half of one word to a half of another.
#[derive(Clone, Copy, PartialEq, Eq, Debug)]
pub struct HalfMove {
    /// The half of the source that is moved.
    pub from: Half,
    /// The half of the destination that it is moved to.
    pub to: Half,
    /// What becomes of the destination's other half.
    pub other: Other,
}

/// The move that an instruction's code names, of the codes 0o500 to 0o577.
impl From<u64> for HalfMove {
    ghost from_gives = { λ code kind. kind ≡ half_move_of code };

    #[tactic(auto, unfolding(crate::specs::HalfMoves::half_move_of))]
    fn from(code: u64) -> HalfMove {
        let to = match code / 32 % 2 {
            0 => Half::Left,
            _ => Half::Right,
        };
        let from = match code / 4 % 2 {
            0 => to,
            _ => to.opposite(),
        };
        let other = match code / 8 % 4 {
            0 => Other::Kept,
            1 => Other::Zeros,
            2 => Other::Ones,
            _ => Other::Extended,
        };
        HalfMove { from, to, other }
    }
}

/// The destination after a half of the source is moved to it.
#[tactic(auto, using(crate::proofs::HalfMoveLaws::move_laws), unfolding(crate::specs::HalfMoves::moved_half))]
pub fn move_half(kind: HalfMove, source: u64, destination: u64) -> u64
    ensures value { result ≡ moved_half kind source destination }
    ensures narrow { result < 2 ^ 36 }
    ensures moves { Moves kind source destination result }
{
    let moved = kind.from.of(source);
    let other = rest(kind.other, moved, kind.to.opposite().of(destination));
    match kind.to {
        Half::Left => from_halves(moved, other),
        Half::Right => from_halves(other, moved),
    }
}

/// What the other half becomes, where `moved` is the half that is moved and `stood` what stood there.
fn rest(other: Other, moved: u64, stood: u64) -> u64
    ensures { result ≡ rest other moved stood }
{
    match other {
        Other::Kept => stood,
        Other::Zeros => 0,
        Other::Ones => HALF_LIMIT - 1,
        Other::Extended => {
            let negative = moved / (HALF_LIMIT / 2) % 2 == 1;
            if negative { HALF_LIMIT - 1 } else { 0 }
        }
    }
}
