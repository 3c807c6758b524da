ghost use Rattle.std.specs.Prelude.{◌≡◌, ℕ, ◌≤◌, ◌==◌, List, length};
ghost use Rattle.memory.specs.Access.{ChecksAddress, ChecksWrite, Reads, Writes};
ghost use Rattle.words.specs.Word.{Narrow};

use words::{HALF_LIMIT, Refusal, check_word};

/// No core has an address from here on: an address is a half of a word.
pub const CORE_LIMIT: u64 = HALF_LIMIT;

/// A block, by which places lie in a core, has this many words.
pub const BLOCK_WORDS: u64 = 1024;

/// A memory of 36-bit words. Its meaning is a list of words, by address, whose length never changes. An address and a word
/// are two parameters and no struct, since each may be any number.
///
/// The cores over lent numbers and over lent bytes are not one generic type: they differ in how a word lies in what is
/// lent, and their bodies say little else.
pub trait Core {
    /// The words, by address.
    ghost words: { Self → List ℕ };

    /// The kind of what else the core stands on.
    ghost Rest: { Type 0 };

    /// What else the core stands on: what is lent to it, and all of that which is no word of it. No
    /// call changes it.
    ghost rest: { Self → Rest };

    ghost short: { (c : Self) → length (words c) ≤ 262144 };

    ghost narrow: { (c : Self) → Narrow (words c) };

    /// How many words there are.
    fn len(&self) -> u64
        ensures { result ≡ length (words self.now) };

    /// Whether there are none.
    fn is_empty(&self) -> bool
        ensures { result ≡ (length (words self.now) == 0) }
    {
        self.len() == 0
    }

    /// The word at `a`.
    fn read(&self, a: u64) -> Result<u64, Refusal>
        ensures { Reads (words self.now) a result };

    /// Refuses an address that is not there.
    fn check_address(&self, a: u64) -> Result<(), Refusal>
        ensures { ChecksAddress (words self.now) a result }
    {
        if a >= self.len() {
            return Err(Refusal::AddressOutsideCore);
        }
        Ok(())
    }

    /// Refuses what no core writes: a number that is no word, and then any word at an address that is not there. A core's
    /// `write` begins with it, but for one that leaves the test of the address to a core below.
    fn check_write(&self, a: u64, w: u64) -> Result<(), Refusal>
        ensures { ChecksWrite (words self.now) a w result }
    {
        check_word(w)?;
        self.check_address(a)
    }

    /// Puts the word `w` at `a`.
    fn write(&mut self, a: u64, w: u64) -> Result<(), Refusal>
        ensures does { Writes (words self.old) a w (words self.new) result }
        ensures keeps { rest self.new ≡ rest self.old };
}
