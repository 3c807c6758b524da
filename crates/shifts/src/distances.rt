ghost use Rattle.shifts.specs.Distance.{places};
ghost use Rattle.std.specs.Prelude.{◌≡◌};

/// Which way, and how many places, a shift or a rotation moves its word. No `Result`, since neither way is an error, and no
/// `Either`, which would say left and right but not that the numbers are places.
#[derive(Clone, Copy, PartialEq, Eq, Debug)]
pub enum Distance {
    Left(u64),
    Right(u64),
}

impl Distance {
    /// How many places, whichever way.
    pub(crate) fn places(self) -> u64
        ensures { result ≡ places self }
    {
        match self {
            Distance::Left(n) | Distance::Right(n) => n,
        }
    }
}
