//! The sixteen Boolean functions.

ghost use Rattle.std.specs.Prelude.{◌≡◌, ◌^◌, ◌<◌};
ghost use Rattle.words.specs.Bits.{complement};
ghost use Rattle.logic.specs.Boolean.{ByTable, boolean_of};

use words::{WORD_LIMIT, complement};

/// The Boolean function of the operand and the accumulator that `table` names by its truth table: of the table's four
/// bits the highest is the result where both bits are 0, the next where only the accumulator's is 1, then where only
/// the operand's is, and the lowest where both are.
///
/// The table is a number, since its bits are the answers, and of any number the low four are taken: an enum of sixteen
/// names would ask callers for more.
#[tactic(auto, using(crate::proofs::BooleanLaws::boolean_laws), unfolding(crate::specs::Boolean::boolean_of))]
pub fn boolean(table: u64, operand: u64, ac: u64) -> u64
    ensures value { result ≡ boolean_of table operand ac }
    ensures narrow { result < 2 ^ 36 }
    ensures by_table { ByTable table operand ac result }
{
    let m = operand % WORD_LIMIT;
    let a = ac % WORD_LIMIT;
    let not_m = complement(operand);
    let not_a = complement(ac);
    match table % 16 {
        0 => 0,
        1 => m & a,
        2 => m & not_a,
        3 => m,
        4 => a & not_m,
        5 => a,
        6 => m ^ a,
        7 => m | a,
        8 => not_a & not_m,
        9 => complement(m ^ a),
        10 => not_a,
        11 => m | not_a,
        12 => not_m,
        13 => a | not_m,
        14 => not_a | not_m,
        _ => WORD_LIMIT - 1,
    }
}
