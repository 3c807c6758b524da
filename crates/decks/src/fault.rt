ghost use Rattle.decks.specs.Faults.{fault_words, error_words};
ghost use Rattle.decks.specs.declared.fault.DeckFault.TheVariants.{NoMemory};
ghost use Rattle.std.specs.Prelude.{◌≡◌, Some};

use std::alloc::AllocFailed;
use std::error::Error;
use std::fmt;

/// What can be wrong with a deck.
#[derive(Clone, Copy, PartialEq, Eq, Debug)]
pub enum DeckFault {
    /// A character is neither an octal digit, nor a blank, nor part of a comment.
    NotOctal,
    /// A number has a thirteenth digit.
    TooManyDigits,
    /// A 262,145th word begins.
    TooManyWords,
    /// The allocator has no room for the words.
    NoMemory,
}

/// The first fault of a deck, with its line. Lines count from 1.
#[derive(Clone, Copy, PartialEq, Eq, Debug)]
pub struct DeckError {
    pub line: u64,
    pub fault: DeckFault,
}

// Both are written out, since a derived `Display` does not state its words.
impl fmt::Display for DeckFault {
    ghost output = { λ fault. Some (fault_words fault) };

    fn fmt<W: fmt::Write>(&self, f: &mut fmt::Formatter<W>) -> fmt::Result {
        f.write_str(match self {
            DeckFault::NotOctal => "not an octal digit",
            DeckFault::TooManyDigits => "more than twelve digits",
            DeckFault::TooManyWords => "more than 262144 words",
            DeckFault::NoMemory => "no memory for the words",
        })
    }
}

impl fmt::Display for DeckError {
    ghost output = { λ e. Some (error_words e) };

    fn fmt<W: fmt::Write>(&self, f: &mut fmt::Formatter<W>) -> fmt::Result {
        write!(f, "line {}: {}", self.line, self.fault)
    }
}

impl Error for DeckFault {}

impl Error for DeckError {}

/// A word that finds no room.
impl From<AllocFailed<u64>> for DeckFault {
    ghost from_gives = { λ _ r. r ≡ NoMemory };

    fn from(_refused: AllocFailed<u64>) -> DeckFault {
        DeckFault::NoMemory
    }
}
