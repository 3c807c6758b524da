use crate::*;

#[test]
fn halves_change_places(rt: HostRuntime) {
    assert_eq!(rt; swap(0o123456_654321), 0o654321_123456);
}

#[test]
fn a_table_gives_the_bits_of_its_number(rt: HostRuntime) {
    assert_eq!(rt; boolean(0o02, 0b0011, 0b0101), 0b0010);
    assert_eq!(rt; boolean(0o11, 0b0011, 0b0101), 0o777777_777771);
}

#[test]
fn a_negative_half_is_extended(rt: HostRuntime) {
    assert_eq!(rt;
        move_half(HalfMove::from(0o570), 0o400000, 5),
        0o777777_400000
    );
    assert_eq!(rt;
        move_half(HalfMove::from(0o504), 0o123456, 5),
        0o123456_000005
    );
}

#[test]
fn masked_bits_are_cleared_after_the_test(rt: HostRuntime) {
    assert!(rt; skips(SkipWhen::from(0o626), 0b0110, 0b0011));
    assert_eq!(rt; changed(Change::from(0o626), 0b0110, 0b0011), 0b0100);
}
