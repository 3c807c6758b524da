ghost use Rattle.std.specs.Prelude.{◌≡◌, ◌*◌, ◌/◌, ◌^◌, ◌<◌, length, slice_index};
ghost use Rattle.packed.specs.Layout.{even_at, odd_at, unpack, put_word};

use words::WORD_LIMIT;

/// The first word of a pair: four bytes and the high half of the fifth.
#[tactic(auto, unfolding(crate::specs::Layout::even))]
fn even_word(pair: &[u8; 9]) -> u64
    ensures { result ≡ even_at pair.now 0 }
{
    let [a, b, c, d, e, ..] = *pair;
    u64::from_be_bytes([0, 0, 0, a, b, c, d, e]) / 0x10
}

/// The second: the low half of the fifth byte and the four after it. The two differ in which half of the shared byte
/// is theirs.
#[tactic(auto, unfolding(crate::specs::Layout::odd))]
fn odd_word(pair: &[u8; 9]) -> u64
    ensures { result ≡ odd_at pair.now 0 }
{
    let [.., e, f, g, h, i] = *pair;
    u64::from_be_bytes([0, 0, 0, e, f, g, h, i]) % WORD_LIMIT
}

/// Word `a` of these bytes.
pub(crate) fn get_word(bytes: &[u8], a: u64) -> u64
    requires { a < 2 * (length bytes.now / 9) }
    ensures { result ≡ slice_index (unpack bytes.now) a }
{
    let (pairs, _) = bytes.as_chunks::<9>();
    let pair = &pairs[(a / 2) as usize];
    if a % 2 == 0 {
        even_word(pair)
    } else {
        odd_word(pair)
    }
}

/// Puts `w` at word `a`. The byte that the two words of a pair share keeps the other's half.
pub(crate) fn put_word(bytes: &mut [u8], a: u64, w: u64)
    requires { (a < 2 * (length bytes.old / 9)) × (w < 2 ^ 36) }
    ensures { bytes.new ≡ put_word bytes.old a w }
{
    // By index, since the contract of `as_chunks_mut` does not say what the bytes are in the end, and one chunk alone,
    // by `first_chunk_mut`, would be no shorter.
    let p = (a / 2 * 9) as usize;
    let shared = u64::from(bytes[p + 4]);
    if a % 2 == 0 {
        let five = (w * 0x10 + shared % 0x10).to_be_bytes();
        bytes[p..p + 5].copy_from_slice(&five[3..]);
    } else {
        let five = (shared / 0x10 * WORD_LIMIT + w).to_be_bytes();
        bytes[p + 4..p + 9].copy_from_slice(&five[3..]);
    }
}
