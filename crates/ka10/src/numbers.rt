ghost use Rattle.std.specs.Prelude.{◌≡◌, ◌*◌, length};
ghost use Rattle.ka10.specs.Numbers.{numbers, encoded, Wide};

use crate::records::RECORD_BYTES;
use std::array;

/// The twenty numbers of a record's bytes, eight for each.
pub(crate) fn read_numbers(bytes: &[u8; RECORD_BYTES]) -> [u64; 20]
    ensures { result ≡ numbers bytes.now }
{
    let (eights, _) = bytes.as_chunks::<8>();
    array::from_fn(|k| u64::from_be_bytes(eights[k]))
}

/// Writes numbers into a buffer that has just the room for them. Its length goes with `given`, so a clause says it and no
/// type.
pub(crate) fn write_numbers(given: &[u64], bytes: &mut [u8])
    requires { length bytes.old ≡ 8 * length given.now }
    ensures bytes { bytes.new ≡ encoded given.now }
    ensures wide { Wide given.now }
{
    // By index, since the contract of `as_chunks_mut` does not say what the buffer holds in the end. Taking one chunk alone
    // at a time, by `split_first_chunk_mut`, would be no shorter.
    for (i, n) in given.iter().enumerate() {
        bytes[8 * i..8 * i + 8].copy_from_slice(&n.to_be_bytes());
    }
}
