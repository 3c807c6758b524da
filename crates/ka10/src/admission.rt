ghost use Rattle.ka10.specs.Calls.{whole_blocks, in_core, good_steps, admitted, Fit};
ghost use Rattle.std.specs.Prelude.{◌≡◌, IfOk};

use crate::numbers::read_numbers;
use crate::records::{RECORD_BYTES, Record};
use memory::BLOCK_WORDS;
use words::Refusal;

/// A reply has this many bytes.
const REPLY_BYTES: usize = 24;

/// One call may ask for so many steps.
const MOST_STEPS: u64 = 1_000_000;

/// What a caller asks for: so many steps of the program in the place of so many blocks from block `base` on. `ka10_run`
/// takes the three one by one, since that is the exported signature.
#[derive(Clone, Copy, PartialEq, Eq, Debug)]
pub struct Request {
    pub base: u64,
    pub blocks: u64,
    pub steps: u64,
}

/// Whether a core of so many words is whole blocks, one at least.
fn whole_blocks(words: u64) -> bool
    ensures { result ≡ whole_blocks words }
{
    words >= BLOCK_WORDS && words % BLOCK_WORDS == 0
}

impl Request {
    /// Whether the place lies in a core of so many words.
    fn is_in_core(&self, words: u64) -> bool
        ensures { result ≡ in_core words self.now.base self.now.blocks }
    {
        let most = words / BLOCK_WORDS;
        (1..=most).contains(&self.blocks) && self.base <= most - self.blocks
    }

    /// Whether a run may be of so many steps.
    fn has_good_steps(&self) -> bool
        ensures { result ≡ good_steps self.now.steps }
    {
        (1..=MOST_STEPS).contains(&self.steps)
    }

    /// The record that a run is made with, or the first refusal that applies.
    #[tactic(auto, using(std::proofs::lemmas::Bool::Decides::nat_tests), unfolding(crate::specs::Calls::admitted))]
    pub(crate) fn admit(
        &self,
        words: u64,
        bytes: &[u8],
        reply_length: usize,
    ) -> Result<Record, Refusal>
        ensures tests { result ≡ admitted words self.now.base self.now.blocks self.now.steps bytes.now reply_length }
        ensures fits { IfOk result (Fit words self.now.base self.now.blocks self.now.steps bytes.now reply_length) }
    {
        if !whole_blocks(words) {
            return Err(Refusal::CoreNotWholeBlocks);
        }
        if !self.is_in_core(words) {
            return Err(Refusal::PlaceOutsideCore);
        }
        if reply_length != REPLY_BYTES {
            return Err(Refusal::BadRecord);
        }
        let bytes = bytes.as_array::<RECORD_BYTES>().ok_or(Refusal::BadRecord)?;
        let given = Record::from(read_numbers(bytes));
        if !given.is_good() {
            return Err(Refusal::BadRecord);
        }
        if !self.has_good_steps() {
            return Err(Refusal::BadStepsOrSkip);
        }
        if given.count + self.steps > given.allowance {
            return Err(Refusal::AllowanceExceeded);
        }
        Ok(given)
    }
}
