ghost use Rattle.std.specs.Prelude.{◌^◌, ◌<◌};

/// Where an address calculation ended: the effective address, and the word that JRST takes flags from, if
/// the last level had one.
// The executed word is passed beside it: what is located may be the address of a later word.
#[derive(Clone, Copy, PartialEq, Eq, Debug)]
pub struct Located {
    pub address: u64,
    pub flag_word: Option<u64>,
    ghost narrow: { address < 2 ^ 18 },
}
