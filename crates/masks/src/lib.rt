// Sets as masks: number j is a member when bit j is 1. A set of operations is a `Set`; a set of controls (literals, values, a
// word) is a u32. Every function takes any input.

#![tactic(auto)]

ghost use Rattle.std.specs.Prelude.{◌≡◌, not, ◌&&◌, ◌||◌, ◌^◌, eqb, ltb};
ghost use Rattle.machine.specs.Sets.{has, any_below, count_below, first_below, mask_below};
ghost use Rattle.masks.specs.Width.{set_width};

// A set of operations.
pub type Set = u32;

// The set m has the member j; nothing at or above the width is one.
pub fn has(m: Set, j: usize) -> bool
    ensures { result ≡ has m j }
{
    j < 32 && m >> j & 1 == 1
}

// The set m, and j with it where `on` holds; nothing at or above the width can join.
pub fn with(m: Set, j: usize, on: bool) -> Set
    ensures { result ≡ mask_below set_width (λ i. has m i || (on && eqb j i)) }
{
    if j < 32 { m | Set::from(on) << j } else { m }
}

// The set of all numbers below n, as far as the width.
pub fn below(n: usize) -> Set
    ensures { result ≡ mask_below set_width (λ j. ltb j n) }
{
    if n < 32 { (1 << n) - 1 } else { Set::MAX }
}

// How many members the set m has.
pub fn count(m: Set) -> u32
    ensures { result ≡ count_below set_width (has m) }
{
    m.count_ones()
}

// The lowest member of the set m, and the width where it has none. No Option: `lowest`'s promise `first_below` needs the width.
pub fn lowest(m: Set) -> u32
    ensures { result ≡ first_below set_width (has m) }
{
    m.trailing_zeros()
}

// Every member of m is below n.
pub fn fits(m: u32, n: usize) -> bool
    ensures { result ≡ ltb m (2 ^ n) }
{
    32 <= n || m >> n == 0
}

// A number below n is a member of both sets.
pub fn share(a: u32, b: u32, n: usize) -> bool
    ensures { result ≡ any_below n (λ j. has a j && has b j) }
{
    a & b & below(n) != 0
}

// A number below n is a member of a and not of b.
pub fn lacks(a: u32, b: u32, n: usize) -> bool
    ensures { result ≡ any_below n (λ j. has a j && not (has b j)) }
{
    a & !b & below(n) != 0
}
