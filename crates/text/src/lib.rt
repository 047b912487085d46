// Text in a lent buffer: bytes, and numbers in decimal. What has no room in the buffer is left out. `laid`, which both functions
// promise, needs the buffer and the place.

#![tactic(auto)]

ghost use Rattle.std.specs.Prelude.{◌≡◌};
ghost use Rattle.meaning.specs.Listing.{decimal};
ghost use Rattle.text.specs.Writing.{laid, Counted};

// The digits of a number of 64 bits are no more than these.
const MOST_DIGITS: usize = 20;

// Writes the bytes from `at` on. The C interface needs the loop: with `copy_from_slice` its library asks for memmove from outside.
pub fn put(out: &mut [u8], at: usize, bytes: &[u8])
    ensures { out.new ≡ laid out.old at bytes.now }
{
    if out.len() <= at {
        return;
    }
    let room = out.len() - at;
    for i in 0..bytes.len() {
        if i == room {
            return;
        }
        out[at + i] = bytes[i];
    }
}

// Writes a number in decimal from `at` on, and answers how many digits it has.
#[tactic(auto, using(crate::proofs::Digits::all_counted, crate::proofs::Digits::all_written))]
pub fn put_decimal(out: &mut [u8], at: usize, number: u64) -> usize
    ensures counted { Counted (decimal number) result }
    ensures out_after { out.new ≡ laid out.old at (decimal number) }
{
    // The last digit is written first; the number runs out before the places do. A digit is below 10, so `as u8` loses nothing.
    let mut digits = [0u8; MOST_DIGITS];
    let mut rest = number;
    for first in (0..MOST_DIGITS).rev() {
        if rest < 10 {
            digits[first] = b'0' + rest as u8;
            put(out, at, &digits[first..]);
            return MOST_DIGITS - first;
        }
        digits[first] = b'0' + (rest % 10) as u8;
        rest = rest / 10;
    }
    unreachable!()
}
