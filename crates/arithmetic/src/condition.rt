ghost use Rattle.arithmetic.specs.Condition.{biased_of, holds_of, condition_of, ComparisonLaw, CodeLaw};
ghost use Rattle.std.specs.Prelude.{◌≡◌};

use crate::signed::signed;

/// What a comparison asks of two signed words.
#[derive(Clone, Copy, PartialEq, Eq, Debug)]
pub enum Condition {
    Never,
    Less,
    Equal,
    LessOrEqual,
    Always,
    GreaterOrEqual,
    NotEqual,
    Greater,
}

/// Whether the condition holds between the signed values of two words.
#[tactic(auto, using(crate::proofs::ConditionLaws::condition_laws), unfolding(crate::specs::Condition::holds_of))]
pub fn holds(condition: Condition, x: u64, y: u64) -> bool
    ensures value { result ≡ holds_of condition x y }
    ensures law { ComparisonLaw condition x y result }
{
    let left = signed(x);
    let right = signed(y);
    match condition {
        Condition::Never => false,
        Condition::Less => left < right,
        Condition::Equal => left == right,
        Condition::LessOrEqual => left <= right,
        Condition::Always => true,
        Condition::GreaterOrEqual => left >= right,
        Condition::NotEqual => left != right,
        Condition::Greater => left > right,
    }
}

/// The condition that the lowest three bits of an instruction's code ask for.
impl From<u64> for Condition {
    ghost from_gives = { λ code condition. condition ≡ condition_of code };

    #[tactic(auto, using(crate::proofs::ConditionLaws::code_law), unfolding(crate::specs::Condition::condition_of))]
    fn from(code: u64) -> Condition
        ensures value { result ≡ condition_of code }
        ensures law { CodeLaw code result }
    {
        match code % 8 {
            0 => Condition::Never,
            1 => Condition::Less,
            2 => Condition::Equal,
            3 => Condition::LessOrEqual,
            4 => Condition::Always,
            5 => Condition::GreaterOrEqual,
            6 => Condition::NotEqual,
            _ => Condition::Greater,
        }
    }
}
