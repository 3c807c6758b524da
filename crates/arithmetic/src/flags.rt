ghost use Rattle.std.specs.Prelude.{◌≡◌, ◌^◌, ◌<◌};
ghost use Rattle.arithmetic.specs.Flags.{flags_after, raised, FlagsLaw};

/// The flag Overflow, bit 0 of the flags: a sum did not fit a word.
pub const OVERFLOW: u64 = 0o400000;
/// The flag Carry 0, bit 1 of the flags: there was a carry out of bit 0.
pub const CARRY_0: u64 = 0o200000;
/// The flag Carry 1, bit 2 of the flags: there was a carry out of bit 1.
pub const CARRY_1: u64 = 0o100000;

/// The flags after a sum with these carries. A sum sets flags and clears none: a program clears them itself. The carries
/// are all that counts of the sum, so its word is not asked for.
pub fn flags_after(flags: u64, carry0: bool, carry1: bool) -> u64
    ensures value { result ≡ flags_after flags carry0 carry1 }
    ensures half { flags < 2 ^ 18 → result < 2 ^ 18 }
    ensures law { FlagsLaw flags carry0 carry1 result }
{
    let with_overflow = raise(carry0 != carry1, OVERFLOW, flags);
    let with_carry0 = raise(carry0, CARRY_0, with_overflow);
    raise(carry1, CARRY_1, with_carry0)
}

/// The flags with one more raised, if it is to be.
pub fn raise(set: bool, flag: u64, flags: u64) -> u64
    ensures { result ≡ raised set flag flags }
{
    if set { flags | flag } else { flags }
}
