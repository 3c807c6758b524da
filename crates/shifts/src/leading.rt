ghost use Rattle.std.specs.Prelude.{◌≡◌, ◌<◌};
ghost use Rattle.shifts.specs.Leading.{zeros_ahead, FirstOneAt};
ghost use Rattle.shifts.specs.Specimens.{LeadingSpecimens};

use words::WORD_LIMIT;

/// JFFO: how many 0s stand to the left of the word's first 1, and 0 where the word has no 1.
#[tactic(auto, using(crate::proofs::Zeros::specimens), unfolding(crate::specs::Leading::zeros_ahead))]
pub fn first_one(w: u64) -> u64
    ensures value { result ≡ zeros_ahead w }
    ensures within { result < 36 }
    ensures first { FirstOneAt w result }
    ensures specimens { LeadingSpecimens }
{
    let word = w % WORD_LIMIT;
    if word == 0 {
        0
    } else {
        // a u64 has 28 bits above a word's
        u64::from(word.leading_zeros()) - 28
    }
}
