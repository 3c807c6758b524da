ghost use Rattle.std.specs.Prelude.{◌≡◌, ◌≤◌, true, length, vec_items, IfOk};
ghost use Rattle.decks.specs.Sound.{SoundIn, SoundIn-prop};
ghost use Rattle.words.specs.Word.{are_words};

use crate::fault::DeckFault;
use crate::signs::Sign;
use memory::CORE_LIMIT;
use std::alloc::Global;

/// What the reader of a deck stands in.
#[derive(Clone, Copy, PartialEq, Eq, Debug)]
enum Mode {
    /// Between words.
    Between,
    /// In a number that has this value and this many digits so far.
    Number { value: u64, digits: u64 },
    Comment,
}

/// How far the reading of a deck has come.
#[derive(Drop)]
pub(crate) struct Reader {
    /// The words that are complete.
    words: Vec<u64>,
    mode: Mode,
    ghost only_words: { are_words (vec_items words) ≡ true },
    ghost sound: { SoundIn mode (length (vec_items words)) } by { SoundIn-prop mode (length (vec_items words)) },
}

impl Reader {
    ghost use Rattle.decks.specs.Reader.{reading, Goes, Ends};
    ghost use Rattle.decks.specs.Deck.{begun, words_in};

    /// At the start of a text.
    pub(crate) fn new(heap: Global) -> Reader
        ensures { reading 1 result ≡ begun }
    {
        Reader {
            words: Vec::new(heap),
            mode: Mode::Between,
        }
    }

    /// Reads one character more. A number or a comment goes on up to what ends it.
    #[tactic(auto, using(crate::proofs::Sounds::sounds))]
    pub(crate) fn step(&mut self, c: u8) -> Result<(), DeckFault>
        ensures { Goes c self.old self.new result }
    {
        match (self.mode, Sign::from(c)) {
            (Mode::Between, Sign::Digit(d)) => {
                if self.words.len() as u64 >= CORE_LIMIT {
                    return Err(DeckFault::TooManyWords);
                }
                self.mode = Mode::Number {
                    value: u64::from(d),
                    digits: 1,
                };
            }
            (Mode::Number { value, digits }, Sign::Digit(d)) => {
                if digits >= 12 {
                    return Err(DeckFault::TooManyDigits);
                }
                self.mode = Mode::Number {
                    value: 8 * value + u64::from(d),
                    digits: digits + 1,
                };
            }
            (Mode::Number { value, .. }, Sign::Blank | Sign::NewLine) => {
                self.words.push(value)?;
                self.mode = Mode::Between;
            }
            (Mode::Number { value, .. }, Sign::Hash) => {
                self.words.push(value)?;
                self.mode = Mode::Comment;
            }
            (Mode::Between, Sign::Hash) => self.mode = Mode::Comment,
            (Mode::Comment, Sign::NewLine) => self.mode = Mode::Between,
            (Mode::Between, Sign::Blank | Sign::NewLine) | (Mode::Comment, _) => {}
            (_, Sign::Other) => return Err(DeckFault::NotOctal),
        }
        Ok(())
    }

    /// The words, at the end of the text.
    #[tactic(auto, using(crate::proofs::Sounds::sounds))]
    pub(crate) fn end(mut self) -> Result<Vec<u64>, DeckFault>
        ensures ends { Ends (words_in self.mode self.words.items) result }
        ensures few { IfOk result (λ v. length v.items ≤ 262144) }
        ensures words { IfOk result (λ v. are_words v.items ≡ true) }
    {
        if let Mode::Number { value, .. } = self.mode {
            self.words.push(value)?;
        }
        Ok(self.words)
    }
}
