ghost use Rattle.decks.specs.Deck.{deck_of, Answers};
ghost use Rattle.decks.specs.Laws.{OnlyWords, ReadsBack};
ghost use Rattle.decks.specs.Reader.{newlines};
ghost use Rattle.std.specs.Prelude.{◌≡◌, ◌+◌, ◌-◌, ◌^◌, min};

use crate::fault::DeckError;
use crate::reader::Reader;
use std::alloc::Global;

/// The words of a deck, by address, or its first fault.
///
/// A deck is text: octal numbers of up to twelve digits, any number of them on a line, separated by
/// spaces, tabs and carriage returns. A `#` begins a comment that runs to the end of its line.
pub fn read_deck(heap: Global, text: &[u8]) -> Result<Vec<u64>, DeckError>
    ensures reads { Answers (deck_of text.now) result }
    ensures words { OnlyWords result }
    ensures back { ReadsBack text.now result }
{
    let mut reader = Reader::new(heap);
    for (k, &c) in text.iter().enumerate() {
        reader.step(c).map_err(|fault| DeckError {
            line: line_at_end(&text[..k]),
            fault,
        })?;
    }
    reader.end().map_err(|fault| DeckError {
        line: line_at_end(text),
        fault,
    })
}

/// The line that what comes after this much of a text stands on. Only a fault asks for it, so no character is looked at
/// for it before.
fn line_at_end(text: &[u8]) -> u64
    ensures { result ≡ min (newlines text.now + 1) (2 ^ 64 - 1) }
{
    // A sum and no `filter` with `count`: the compiler then looks at several characters at a time.
    let mut ended = 0u64;
    for &c in text {
        ended += u64::from(c == b'\n');
    }
    // This one saturates, since a text can have as many newlines as a number can count. All of it is read then, and only
    // memory can fail.
    ended.saturating_add(1)
}
