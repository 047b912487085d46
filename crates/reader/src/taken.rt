// A graph of a known edition that passes refusals 6 to 11 and is within its edition's maxima, as its type says. `take` makes it
// from a file.
ghost use Rattle.std.specs.Prelude.{◌≡◌, true};
ghost use Rattle.machine.specs.Refusals.{judge};
ghost use Rattle.meaning.specs.Graph.{known, content_lines};
ghost use Rattle.meaning.specs.Answers.{is_taken};
ghost use Rattle.meaning.proofs.Taken.{Within};
ghost use Rattle.parts.specs.Fields.{graph_in};

use parts::Graph;

#[derive(Clone, Copy)]
pub struct TakenGraph<'a> {
    pub graph: Graph<'a>,
    pub ghost of_known: { known graph.edition ≡ true },
    pub ghost passes: { is_taken (judge (content_lines (graph_in graph))) ≡ true },
    pub ghost within: { Within (graph_in graph) },
}
