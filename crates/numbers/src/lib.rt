// Bytes of a slice, and numbers of two bytes and of up to four, low byte first. A byte beyond the end reads as 0.

#![tactic(auto)]

ghost use Rattle.std.specs.Prelude.{min};
ghost use Rattle.meaning.specs.Graph.{byte_at, number_at};
ghost use Rattle.numbers.specs.Reads.{Reads};

// The byte at i.
#[tactic(auto, unfolding(meaning::specs::Graph::byte_at))]
pub fn byte(s: &[u8], i: usize) -> u32
    ensures { Reads (byte_at s.now i) 1 result }
{
    s.get(i).map_or(0, |b| u32::from(*b))
}

// The number of two bytes at i.
pub fn pair(s: &[u8], i: usize) -> u32
    ensures { Reads (number_at s.now i 2) 2 result }
{
    number(s, i, 2)
}

// The number of `size` bytes from i on, and of no more than four.
pub fn number(s: &[u8], i: usize, size: usize) -> u32
    ensures { Reads (number_at s.now i (min size 4)) (min size 4) result }
{
    let Some(rest) = s.get(i..) else {
        return 0;
    };
    let mut number: u32 = 0;
    for j in (0..size.min(4)).rev() {
        number = byte(rest, j) + 256 * number;
    }
    number
}
