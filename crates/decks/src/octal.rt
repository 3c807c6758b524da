ghost use Rattle.decks.specs.Octal.{octal};
ghost use Rattle.std.specs.Prelude.{◌≡◌};

use std::array;

/// The twelve octal digits of the low 36 bits of `w`, as characters, highest first.
pub fn octal_digits(w: u64) -> [u8; 12]
    ensures { result ≡ octal 12 w }
{
    // Below the digit at a place are three bits for each place after it.
    array::from_fn(|place| b'0' + ((w >> (33 - 3 * place)) % 8) as u8)
}
