// The reader of graph files: refusals 1 to 11.

#![tactic(auto)]

mod content;
mod header;
mod sets;
mod taken;

ghost use Rattle.std.specs.Prelude.{◌≡◌, IfOk};
ghost use Rattle.machine.specs.Refusals.{judge};
ghost use Rattle.meaning.specs.Graph.{content, content_lines};
ghost use Rattle.meaning.specs.Answers.{graph_verdict, reader};
ghost use Rattle.parts.specs.Fields.{graph_in};
ghost use Rattle.refusals.specs.Faults.{verdict_of};
ghost use Rattle.reader.specs.Reading.{values_of, Holds};

use parts::{Counts, Graph};
use refusals::Fault;
pub use taken::TakenGraph;

// Refusals 6 to 11 of a graph, the lower number first, then the lower place.
pub fn judge(graph: &Graph) -> Result<(), Fault>
    ensures { verdict_of result ≡ judge (content_lines (graph_in graph.now)) }
{
    content::classes(graph)?;
    content::paths(graph)?;
    content::producers(graph)?;
    content::branches(graph)?;
    content::arcs_fit(graph)?;
    content::arcs_join(graph)
}

// The graph of a file that passes refusals 1 to 11.
pub fn take<'a>(file: &'a [u8]) -> Result<TakenGraph<'a>, Fault>
    ensures verdict { verdict_of result ≡ graph_verdict file.now }
    ensures graph { IfOk result (λ taken. Holds file.entry taken) }
{
    header::header(file)?;
    let graph = Graph::of(file);
    judge(&graph)?;
    Ok(TakenGraph { graph })
}

// A graph file is taken with its counts, or refused with a number and a place.
pub fn read_graph(file: &[u8]) -> Result<Counts, Fault>
    ensures { values_of result ≡ reader file.now }
{
    take(file)?;
    Ok(Counts::of_header(file))
}
