ghost use Rattle.shifts.specs.Arithmetic.{moved_beside, overflows};
ghost use Rattle.shifts.specs.Logical.{shifted};
ghost use Rattle.shifts.specs.Rotations.{exchanged, turned};
ghost use Rattle.shifts.specs.declared.distances.Distance.TheVariants.{Left, Right};
ghost use Rattle.std.specs.Prelude.{◌≡◌, ◌-◌, ◌*◌, ◌/◌, ◌%◌, ◌^◌, ◌<◌, ◌≤◌, if◌then◌else◌};

use crate::distances::Distance;

/// A number of `WIDTH` bits, which it keeps however it moves. Two words side by side have 72.
///
/// The processor moves 64 bits at a time, so a number that fits them is moved as a `u64`: which of the two it is, is known
/// of each width before the program runs.
#[derive(Clone, Copy)]
pub(crate) struct Bits<const WIDTH: u64> {
    pub(crate) number: u128,
    ghost width: { (0 < WIDTH) × (WIDTH ≤ 72) },
    ghost narrow: { number < 2 ^ WIDTH },
}

impl<const WIDTH: u64> Bits<WIDTH> {
    /// The lowest bits of a longer number.
    pub(crate) fn low(longer: u128) -> Self
        requires { (0 < WIDTH) × (WIDTH ≤ 72) }
        ensures { result.number ≡ longer % 2 ^ WIDTH }
    {
        Bits {
            number: longer % (1 << WIDTH),
        }
    }

    /// Shifted, with 0s in the places that fall empty.
    pub(crate) fn shift(&self, by: Distance) -> Self
        ensures { result.number ≡ shifted WIDTH self.now.number by }
    {
        match by {
            Distance::Left(n) => self.shift_left(n),
            Distance::Right(n) => self.shift_right(n),
        }
    }

    /// Past the width nothing is left; `unbounded_shl` says so too, but counts in u32.
    fn shift_left(&self, n: u64) -> Self
        ensures { result.number ≡ self.now.number * 2 ^ n % 2 ^ WIDTH }
    {
        Self::low(if n >= WIDTH {
            0
        } else if WIDTH < 64 {
            u128::from((self.number as u64) << n)
        } else {
            self.number << n
        })
    }

    /// Past the width nothing is left here either.
    fn shift_right(&self, n: u64) -> Self
        ensures { result.number ≡ self.now.number / 2 ^ n }
    {
        Bits {
            number: if n < WIDTH { self.without_low(n) } else { 0 },
        }
    }

    /// The bits that are left when so many are taken off at the right.
    fn without_low(&self, n: u64) -> u128
        requires { n ≤ WIDTH }
        ensures { result ≡ self.now.number / 2 ^ n }
    {
        if WIDTH < 64 {
            u128::from(self.number as u64 >> n)
        } else {
            self.number >> n
        }
    }

    /// Rotated. To the right by some places is to the left by the rest of the width.
    pub(crate) fn turn(&self, by: Distance) -> Self
        ensures { result.number ≡ turned WIDTH self.now.number by }
    {
        match by {
            Distance::Left(n) => self.turn_left(n % WIDTH),
            Distance::Right(n) => self.turn_left(WIDTH - n % WIDTH),
        }
    }

    /// What passes the left end comes in at the right.
    #[tactic(auto, using(crate::proofs::Turning::turned_parts))]
    fn turn_left(&self, n: u64) -> Self
        requires { n ≤ WIDTH }
        ensures { result.number ≡ exchanged (WIDTH - n) n self.now.number }
    {
        Bits {
            number: self.shift_left(n).number + self.without_low(WIDTH - n),
        }
    }

    /// The bits beside a sign moved, and Overflow, which come as a pair as from `ash`.
    pub(crate) fn move_beside(&self, minus: bool, by: Distance) -> (Self, bool)
        ensures moved { result.0.number ≡ moved_beside WIDTH minus self.now.number by }
        ensures overflow { result.1 ≡ overflows WIDTH minus self.now.number by }
    {
        match by {
            Distance::Left(n) => (self.shift_left(n), self.loses(minus, n)),
            Distance::Right(n) => (self.move_right(minus, n), false),
        }
    }

    /// Whether a bit that differs from the sign is lost to the left.
    #[tactic(auto, using(crate::proofs::Beside::lost))]
    fn loses(&self, minus: bool, n: u64) -> bool
        ensures { result ≡ overflows WIDTH minus self.now.number (Left n) }
    {
        if n <= WIDTH {
            self.without_low(WIDTH - n) != Self::signs(minus, n)
        } else {
            // the last bit lost is a 0 that came in at the right
            minus || self.number != 0
        }
    }

    /// To the right, with the sign in the places that fall empty.
    #[tactic(auto, using(crate::proofs::Beside::right_parts))]
    fn move_right(&self, minus: bool, n: u64) -> Self
        ensures { result.number ≡ moved_beside WIDTH minus self.now.number (Right n) }
    {
        let moved_in = Self::signs(minus, WIDTH) - Self::signs(minus, WIDTH.saturating_sub(n));
        Bits {
            number: self.shift_right(n).number + moved_in,
        }
    }

    /// As many bits as there are places, each equal to the sign.
    fn signs(minus: bool, places: u64) -> u128
        requires { (places ≤ WIDTH) × (WIDTH ≤ 72) }
        ensures { result ≡ (if minus then 2 ^ places - 1 else 0) }
    {
        if !minus {
            0
        } else if WIDTH < 64 {
            u128::from((1u64 << places) - 1)
        } else {
            (1 << places) - 1
        }
    }
}
