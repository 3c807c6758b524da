//! The test instructions, which change the accumulator's bits under a mask and may skip.

ghost use Rattle.std.specs.Prelude.{◌≡◌, ◌^◌, ◌<◌, Decides};
ghost use Rattle.logic.specs.Masks.{Changes, Skips, change_of, changed_by, skip_when_of, skips_when};

use words::{WORD_LIMIT, complement};

/// What becomes of the masked bits of the accumulator.
#[derive(Clone, Copy, PartialEq, Eq, Debug)]
pub enum Change {
    /// Each stays as it was.
    Unchanged,
    /// Each becomes 0.
    Zeros,
    /// Each becomes the other of 0 and 1.
    Complement,
    /// Each becomes 1.
    Ones,
}

/// When the next instruction is skipped, by the accumulator's masked bits as they were.
#[derive(Clone, Copy, PartialEq, Eq, Debug)]
pub enum SkipWhen {
    /// It is not skipped, whatever the bits are.
    Never,
    /// It is skipped if every masked bit is 0.
    AllMaskedEqualZero,
    /// It is skipped, whatever the bits are.
    Always,
    /// It is skipped if some masked bit is 1.
    NotAllMaskedEqualZero,
}

/// The change that an instruction's code names, of the codes 0o600 to 0o677.
impl From<u64> for Change {
    ghost from_gives = { λ code change. change ≡ change_of code };

    #[tactic(auto, unfolding(crate::specs::Masks::change_of))]
    fn from(code: u64) -> Change {
        match code / 16 % 4 {
            0 => Change::Unchanged,
            1 => Change::Zeros,
            2 => Change::Complement,
            _ => Change::Ones,
        }
    }
}

/// The test that an instruction's code names, of the codes 0o600 to 0o677.
impl From<u64> for SkipWhen {
    ghost from_gives = { λ code when. when ≡ skip_when_of code };

    #[tactic(auto, unfolding(crate::specs::Masks::skip_when_of))]
    fn from(code: u64) -> SkipWhen {
        match code / 2 % 4 {
            0 => SkipWhen::Never,
            1 => SkipWhen::AllMaskedEqualZero,
            2 => SkipWhen::Always,
            _ => SkipWhen::NotAllMaskedEqualZero,
        }
    }
}

/// The accumulator with its masked bits changed.
#[tactic(auto, using(crate::proofs::BitLaws::words_below, crate::proofs::MaskLaws::change_law), unfolding(crate::specs::Masks::changed_by))]
pub fn changed(change: Change, ac: u64, mask: u64) -> u64
    ensures value { result ≡ changed_by change ac mask }
    ensures narrow { result < 2 ^ 36 }
    ensures changes { Changes change ac mask result }
{
    let a = ac % WORD_LIMIT;
    match change {
        Change::Unchanged => a,
        Change::Zeros => a & complement(mask),
        Change::Complement => a ^ mask % WORD_LIMIT,
        Change::Ones => a | mask % WORD_LIMIT,
    }
}

/// Whether the next instruction is skipped, where `ac` is the accumulator before any change.
#[tactic(auto, using(crate::proofs::MaskLaws::skip_law), unfolding(crate::specs::Masks::skips_when))]
pub fn skips(when: SkipWhen, ac: u64, mask: u64) -> bool
    ensures value { result ≡ skips_when when ac mask }
    ensures decides { Decides result (Skips when ac mask) }
{
    let masked = ac % WORD_LIMIT & mask % WORD_LIMIT;
    match when {
        SkipWhen::Never => false,
        SkipWhen::AllMaskedEqualZero => masked == 0,
        SkipWhen::Always => true,
        SkipWhen::NotAllMaskedEqualZero => masked != 0,
    }
}
