//! The shifts and rotations of the PDP-10 (KA10) on 36-bit words, and the count of leading zeros.
//! Every function takes the low 36 bits of each word that it is given. Two words are two parameters and no `WordPair`, since
//! each may be any number.

#![tactic(auto)]

mod arithmetic;
mod bits;
mod distances;
mod effective_address;
mod leading;
mod logical;
mod pair;
mod rotation;

pub use arithmetic::{ash, ashc};
pub use distances::Distance;
pub use effective_address::distance;
pub use leading::first_one;
pub use logical::{lsh, lshc};
pub use pair::WordPair;
pub use rotation::{rot, rotc};

#[cfg(test)]
mod tests {
    use super::*;

    #[test]
    fn one_word(rt: HostRuntime) {
        assert_eq!(rt; lsh(0o777777_777777, 0o777756), 0o777777);
        assert_eq!(rt; rot(1, 0o777777), 0o400000_000000);
        assert_eq!(rt; first_one(1), 0o43);
        let (least, lost) = ash(0o777777_777777, 35);
        let (same, overflow) = ash(0o777777_777777, 36);
        assert_eq!(rt; least, same);
        assert!(rt; !lost && overflow);
    }

    #[test]
    fn two_words(rt: HostRuntime) {
        let carried = lshc(0, 0o400000_000000, 1);
        assert_eq!(rt; (carried.first, carried.second), (1, 0));
        let turned = rotc(0, 1, 0o777777);
        assert_eq!(rt; (turned.first, turned.second), (0o400000_000000, 0));
        let (scaled, overflow) = ashc(0o777777_777777, 0, 0o777777);
        assert_eq!(rt;
            (scaled.first, scaled.second),
            (0o777777_777777, 0o600000_000000)
        );
        assert!(rt; !overflow);
    }
}
