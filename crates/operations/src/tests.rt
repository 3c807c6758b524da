use crate::*;
use arithmetic::Condition;
use logic::{Change, SkipWhen};

#[test]
fn fields_stand_where_the_octal_digits_say(rt: HostRuntime) {
    // MOVE 17,@123(5)
    let word = 0o200765_000123;
    assert_eq!(rt; opcode(word), 0o200);
    assert_eq!(rt; accumulator(word), 0o17);
    assert!(rt; !is_direct(word));
    assert_eq!(rt; index(word), 5);
}

#[test]
fn codes_are_decoded(rt: HostRuntime) {
    // 0 is no call of the user's, and 001 is
    assert_eq!(rt; decode(0), Instruction::Ordinary(Operation::MonitorCall));
    assert_eq!(rt; decode(0o001000_000000), Instruction::UserCall);
    // MOVNM
    assert_eq!(rt;
        decode(0o212000_000000),
        Instruction::Ordinary(Operation::Move(Form::Negated, MoveMode::Memory))
    );
    // SOJG
    assert_eq!(rt;
        decode(0o367000_000000),
        Instruction::Ordinary(Operation::Soj(Condition::Greater))
    );
    // TLZE
    assert_eq!(rt;
        decode(0o623000_000000),
        Instruction::Ordinary(Operation::Test(
            MaskFrom::Left,
            Change::Zeros,
            SkipWhen::AllMaskedEqualZero
        ))
    );
}

#[test]
fn the_accumulator_field_of_a_jrst_counts(rt: HostRuntime) {
    assert_eq!(rt;
        decode(0o254000_000000),
        Instruction::Ordinary(Operation::Jrst(false))
    );
    // JRST 2,
    assert_eq!(rt;
        decode(0o254100_000000),
        Instruction::Ordinary(Operation::Jrst(true))
    );
    // JRST 4,
    assert_eq!(rt;
        decode(0o254200_000000),
        Instruction::Ordinary(Operation::MonitorCall)
    );
}
