ghost use Rattle.stops.specs.Stops.{state_number};
ghost use Rattle.std.specs.Prelude.{◌≡◌};

/// The state of a place.
#[derive(Clone, Copy, PartialEq, Eq, Debug)]
pub enum State {
    /// No program was loaded, or it was retired.
    Empty = 0,
    /// The program may run.
    Ready = 1,
    /// The program made a call that is to be answered first.
    Waiting = 2,
    /// The program ended by a fault of its own.
    Ended = 3,
}

/// The number by which the state is known outside.
impl From<State> for u64 {
    ghost from_gives = { λ state n. n ≡ state_number state };

    fn from(state: State) -> u64 {
        state as u64
    }
}
