ghost use Rattle.decks.specs.Storing.{Stores, Begins, holds_at, agreeing};
ghost use Rattle.std.specs.Prelude.{◌≡◌, length};

use memory::Core;
use words::{Refusal, all_words};

/// Puts `words[k]` at address k, for each k. It refuses before it writes anything, so that a core never
/// holds a part of a program.
pub fn store<C: Core>(core: &mut C, words: &[u64]) -> Result<(), Refusal>
    ensures does { Stores (C.Core.words core.old) words.now (C.Core.words core.new) result }
    ensures keeps { C.Core.rest core.new ≡ C.Core.rest core.old }
{
    if !all_words(words) {
        return Err(Refusal::NotAWord);
    }
    if words.len() as u64 > core.len() {
        return Err(Refusal::AddressOutsideCore);
    }
    for (a, w) in words.iter().enumerate() {
        core.write(a as u64, *w)?;
    }
    Ok(())
}

/// Whether the core has a word at `a` that is `w`.
fn holds<C: Core>(core: &C, a: u64, w: u64) -> bool
    ensures { result ≡ holds_at (C.Core.words core.now) a w }
{
    core.read(a) == Ok(w)
}

/// For how many of the words the core has the same word at the same address: for all of them exactly
/// when the core begins with these words.
pub fn count_equal<C: Core>(core: &C, words: &[u64]) -> u64
    ensures value { result ≡ agreeing (C.Core.words core.now) words.now }
    ensures all { Begins (C.Core.words core.now) words.now → result ≡ length words.now }
    ensures only { result ≡ length words.now → Begins (C.Core.words core.now) words.now }
{
    words
        .iter()
        .enumerate()
        .filter(|&(a, &w)| holds(core, a as u64, w))
        .count() as u64
}
