// A table that is to be judged for a taken graph, of that graph's edition, as its type says.
ghost use Rattle.std.specs.Prelude.{◌≡◌};

use parts::Table;
use reader::TakenGraph;

#[derive(Clone, Copy)]
pub(crate) struct Claim<'a> {
    pub taken: TakenGraph<'a>,
    pub table: Table<'a>,
    pub ghost edition: { table.edition ≡ taken.graph.edition },
}
