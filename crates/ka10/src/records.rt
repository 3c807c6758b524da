ghost use Rattle.ka10.specs.Records.{record_in, record_numbers, good_flags, good_record};
ghost use Rattle.std.specs.Prelude.{◌≡◌};

use operations::USER;
use words::{HALF_LIMIT, all_words};

/// Overflow, Carry 0, Carry 1, Floating Overflow, Byte Interrupt, User, Floating Underflow and No Divide.
const LISTED_FLAGS: u64 = 0o770140;

/// A record has this many bytes.
pub(crate) const RECORD_BYTES: usize = 160;

const MOST_ALLOWANCE: u64 = 1_000_000_000_000;

/// A program between two runs: its accumulators, its PC and flags, how many steps it has done and how many
/// it may do.
#[derive(Clone, Copy, PartialEq, Eq, Debug)]
pub struct Record {
    pub accumulators: [u64; 16],
    pub pc: u64,
    pub flags: u64,
    pub count: u64,
    pub allowance: u64,
}

impl From<[u64; 20]> for Record {
    ghost from_gives = { λ numbers made. made ≡ record_in numbers };

    fn from(numbers: [u64; 20]) -> Record {
        let mut accumulators = [0; 16];
        accumulators.copy_from_slice(&numbers[..16]);
        Record {
            accumulators,
            pc: numbers[16],
            flags: numbers[17],
            count: numbers[18],
            allowance: numbers[19],
        }
    }
}

impl From<Record> for [u64; 20] {
    ghost from_gives = { λ given numbers. numbers ≡ record_numbers given };

    fn from(given: Record) -> [u64; 20] {
        let mut numbers = [0; 20];
        numbers[..16].copy_from_slice(&given.accumulators);
        numbers[16..].copy_from_slice(&[given.pc, given.flags, given.count, given.allowance]);
        numbers
    }
}

/// Whether all flags are listed ones, and User is on.
fn good_flags(flags: u64) -> bool
    ensures { result ≡ good_flags flags }
{
    flags & LISTED_FLAGS == flags && flags & USER == USER
}

impl Record {
    /// Whether a program can be so.
    pub(crate) fn is_good(&self) -> bool
        ensures { result ≡ good_record self.now }
    {
        all_words(&self.accumulators)
            && self.pc < HALF_LIMIT
            && good_flags(self.flags)
            && self.count <= self.allowance
            && self.allowance <= MOST_ALLOWANCE
    }
}
