use crate::{
    CARRY_0, CARRY_1, Condition, Division, OVERFLOW, add, divide, flags_after, holds, negate,
};

/// −1.
const ONES: u64 = 0o777777_777777;
/// −2^35.
const LEAST: u64 = 0o400000_000000;
/// 2^35 − 1.
const GREATEST: u64 = 0o377777_777777;

#[test]
fn sums_carry(rt: HostRuntime) {
    assert_eq!(rt; add(GREATEST, 1, false), (LEAST, false, true));
    assert_eq!(rt; add(ONES, ONES, false), (0o777777_777776, true, true));
    assert_eq!(rt; negate(0), (0, true, true));
    assert_eq!(rt; negate(LEAST), (LEAST, false, true));
}

#[test]
fn carries_raise_flags(rt: HostRuntime) {
    assert_eq!(rt; flags_after(1, true, true), CARRY_0 + CARRY_1 + 1);
    assert_eq!(rt;
        flags_after(CARRY_0, false, true),
        OVERFLOW + CARRY_0 + CARRY_1
    );
}

#[test]
fn minus_one_is_less_than_zero(rt: HostRuntime) {
    assert!(rt; holds(Condition::Less, ONES, 0));
    assert!(rt; !holds(Condition::from(0o307), ONES, 0));
}

#[test]
fn divisions_drop_the_fraction(rt: HostRuntime) {
    let minus_seven = ONES - 6;
    assert_eq!(rt;
        divide(minus_seven, 2),
        Some(Division {
            quotient: ONES - 2,
            remainder: ONES,
        })
    );
    assert_eq!(rt; divide(LEAST, 1), None);
}
