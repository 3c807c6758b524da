ghost use Rattle.words.specs.Refusals.{number_of};
ghost use Rattle.std.specs.Prelude.{◌≡◌};

/// Why a call was turned down. A refused call changes nothing; where several refusals apply, the one
/// with the least number is given.
#[derive(Clone, Copy, PartialEq, Eq, Debug)]
pub enum Refusal {
    /// The core's length is not a multiple of 1,024 from 1,024 up.
    CoreNotWholeBlocks = 1,
    /// A draft already has eight places.
    TooManyPlaces = 2,
    /// A place has no blocks, or reaches past the core.
    PlaceOutsideCore = 3,
    /// A place overlaps an earlier one.
    PlacesOverlap = 4,
    /// An allowance is above 1,000,000,000,000 steps.
    AllowanceTooLarge = 5,
    /// A record or a reply has the wrong length, or a record holds what no place can have.
    BadRecord = 6,
    /// No place has this number.
    NoSuchPlace = 7,
    /// The place's state does not allow the call.
    WrongState = 8,
    /// An image is longer than its place, or a start or a user address lies outside the place.
    AddressOutsidePlace = 9,
    /// A number given as a word is not below 2^36.
    NotAWord = 10,
    /// A run is not of 1 to 1,000,000 steps, or a skip is not 0 or 1.
    BadStepsOrSkip = 11,
    /// A run would bring the count of steps above the allowance.
    AllowanceExceeded = 12,
    /// An address of a core is not below the core's length.
    AddressOutsideCore = 13,
}

/// The number by which the refusal is known outside.
impl From<Refusal> for u64 {
    ghost from_gives = { λ refusal n. n ≡ number_of refusal };

    fn from(refusal: Refusal) -> u64 {
        refusal as u64
    }
}
