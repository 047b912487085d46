// Sets of literals: one mask of the controls named on the true side, one of those on the false side.
ghost use Rattle.std.specs.Prelude.{◌≡◌};
ghost use Rattle.meaning.specs.Graph.{names, misnamed, lacks};
ghost use Rattle.parts.specs.Fields.{literals_of};

use parts::Literals;

// The set names control x, on either side.
pub(crate) fn names(l: Literals, x: usize) -> bool
    ensures { result ≡ names (literals_of l) x }
{
    masks::has(l.on_true, x) | masks::has(l.on_false, x)
}

// A mask has a bit not below c, or both masks share a bit.
pub(crate) fn misnamed(l: Literals, c: usize) -> bool
    ensures { result ≡ misnamed (literals_of l) c }
{
    !masks::fits(l.on_true, c)
        | !masks::fits(l.on_false, c)
        | masks::share(l.on_true, l.on_false, c)
}

// A literal of l, of a control below c, is neither in m nor in k.
pub(crate) fn lacks(c: usize, l: Literals, m: Literals, k: Literals) -> bool
    ensures { result ≡ lacks c (literals_of l) (literals_of m) (literals_of k) }
{
    masks::lacks(l.on_true, m.on_true | k.on_true, c)
        | masks::lacks(l.on_false, m.on_false | k.on_false, c)
}
