// The writer of graph files: a graph, an edition and lists in which every field is one byte, becomes the one file that holds it,
// or is refused by 2, 3, 5 to 11 or 14.

#![tactic(auto)]

mod layout;

ghost use Rattle.std.specs.Prelude.{◌≡◌, ◌+◌, ◌^◌, ◌<◌, length, IfOk};
ghost use Rattle.machine.specs.Refusals.{judge};
ghost use Rattle.meaning.specs.TableFile.{bytes_of};
ghost use Rattle.meaning.specs.Writer.{graph_header, graph_file, list_lines};
ghost use Rattle.parts.specs.Fields.{graph_in};
ghost use Rattle.refusals.specs.Faults.{verdict_of};
ghost use Rattle.text.specs.Writing.{laid};
ghost use Rattle.writer.specs.Promise.{StartsOf, Promised};

use crate::layout::Layout;
use parts::{Graph, HEADER_BYTES, Starts};
use refusals::{Fault, Refusal, refuse_if};

// Refusals 2, 3 and 5: the edition, the numbers of whole records, and a list that ends inside a record.
fn judge_lists(graph: &Graph) -> Result<(), Fault>
    ensures { verdict_of result ≡ judge (list_lines (graph_in graph.now)) }
{
    refuse_if(!parts::known(graph.edition), Refusal::Unmarked)?;
    let counts = graph.counts();
    refuse_if(counts.too_many(graph.edition), Refusal::Overfull)?;
    refuse_if(graph.torn(), Refusal::Length)
}

// Where the operations, the controls and the arcs will stand in the file, and where it will end. Plainer apart from
// `Starts::of_header`: that goes by a header's counts, this by the lists' lengths, and their bounds differ.
fn starts_of(graph: &Graph) -> Starts
    requires { 16 + length graph.now.limits.now + length graph.now.operations.now
        + length graph.now.controls.now + length graph.now.arcs.now < 2 ^ 16 }
    ensures { StartsOf (graph_in graph.now) result }
{
    let operations = HEADER_BYTES + graph.limits.len();
    let controls = operations + graph.operations.len();
    let arcs = controls + graph.controls.len();
    Starts {
        operations,
        controls,
        arcs,
        end: arcs + graph.arcs.len(),
    }
}

// A number in two bytes, the low byte first. It is below 2 ^ 16, so `as u16` loses nothing.
#[tactic(auto, unfolding(meaning::specs::TableFile::bytes_of))]
fn pair(number: usize) -> [u8; 2]
    requires { number < 2 ^ 16 }
    ensures { result ≡ bytes_of 2 number }
{
    (number as u16).to_le_bytes()
}

impl<'a> Layout<'a> {
    // Where the parts of a graph will stand, or refusal 2, 3 or 5.
    fn of(graph: &Graph<'a>) -> Result<Layout<'a>, Fault>
        ensures verdict { verdict_of result ≡ judge (list_lines (graph_in graph.now)) }
        ensures graph { IfOk result (λ layout. graph_in layout.graph ≡ graph_in graph.now) }
    {
        judge_lists(graph)?;
        let starts = starts_of(graph);
        Ok(Layout {
            graph: *graph,
            starts,
        })
    }

    // The header: mark, edition, counts, and where each part stands. `as u8` loses nothing where 2 and 3 have passed.
    fn header(&self) -> [u8; 16]
        ensures { result ≡ graph_header (graph_in self.now.graph) }
    {
        let counts = self.graph.counts();
        let [arcs_low, arcs_high] = pair(counts.arcs);
        let [limits_low, limits_high] = pair(HEADER_BYTES);
        let [operations_low, operations_high] = pair(self.starts.operations);
        let [controls_low, controls_high] = pair(self.starts.controls);
        let [arcs_at_low, arcs_at_high] = pair(self.starts.arcs);
        [
            b'H',
            b'S',
            self.graph.edition as u8,
            counts.operations as u8,
            counts.classes as u8,
            counts.controls as u8,
            arcs_low,
            arcs_high,
            limits_low,
            limits_high,
            operations_low,
            operations_high,
            controls_low,
            controls_high,
            arcs_at_low,
            arcs_at_high,
        ]
    }

    // Writes the file, as far as the output goes: the header and then the parts, each where it stands. Plainer so than in a loop
    // over the parts and their places: each call names its part.
    fn put(&self, output: &mut [u8])
        ensures { output.new ≡ laid output.old 0 (graph_file (graph_in self.now.graph)) }
    {
        let header = self.header();
        text::put(output, 0, &header);
        text::put(output, HEADER_BYTES, self.graph.limits);
        text::put(output, self.starts.operations, self.graph.operations);
        text::put(output, self.starts.controls, self.graph.controls);
        text::put(output, self.starts.arcs, self.graph.arcs);
    }
}

// A graph becomes its one file at the front of the output, and the file's length is the answer, or it gets the refusal that it and
// the room ask for.
pub fn write(graph: &Graph, output: &mut [u8]) -> Result<usize, Fault>
    ensures { Promised (graph_in graph.now) output.old result output.new }
{
    let layout = Layout::of(graph)?;
    reader::judge(graph)?;
    let length = layout.starts.end;
    refuse_if(output.len() < length, Refusal::Room)?;
    layout.put(output);
    Ok(length)
}
