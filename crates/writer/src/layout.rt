// A graph that passes 2, 3 and 5, and where its parts will stand in its file, as the type says.
ghost use Rattle.meaning.proofs.Writer.{Listed};
ghost use Rattle.parts.specs.Fields.{graph_in};
ghost use Rattle.writer.specs.Promise.{StartsOf};

use parts::{Graph, Starts};

#[derive(Clone, Copy)]
pub(crate) struct Layout<'a> {
    pub graph: Graph<'a>,
    pub starts: Starts,
    pub ghost listed: { Listed (graph_in graph) },
    pub ghost stands: { StartsOf (graph_in graph) starts },
}
