ghost use Rattle.decks.specs.Signs.{sign_of};
ghost use Rattle.std.specs.Prelude.{◌≡◌};

/// What a character is to the reader of a deck.
#[derive(Clone, Copy, PartialEq, Eq, Debug)]
pub(crate) enum Sign {
    /// An octal digit, by its value.
    Digit(u8),
    /// A space, a tab or a carriage return.
    Blank,
    NewLine,
    /// What begins a comment.
    Hash,
    Other,
}

impl From<u8> for Sign {
    ghost from_gives = { λ c sign. sign ≡ sign_of c };

    fn from(c: u8) -> Sign {
        match c {
            b'0'..=b'7' => Sign::Digit(c - b'0'),
            b' ' | b'\t' | b'\r' => Sign::Blank,
            b'\n' => Sign::NewLine,
            b'#' => Sign::Hash,
            _ => Sign::Other,
        }
    }
}
