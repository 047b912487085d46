// Refusals 6 to 11: for each a test of one place, and the first place at fault. They know a graph alone, no file. Tests over two
// kinds of places are labelled loops that end at the first fault, where `break` yields the refusal and the place: document 01 names
// that form, so neither `first_fault` nor `for`, which yields no value, stands there. The conditions of a test are joined by
// & and |, since each is a look at a few bytes; but `stray` reads another operation only where it has to.
ghost use Rattle.std.specs.Prelude.{◌≡◌};
ghost use Rattle.meaning.specs.Graph.{stray_path, follows_join, unordered};
ghost use Rattle.parts.specs.Fields.{graph_in, IsArc};
ghost use Rattle.refusals.specs.Faults.{verdict_of};
ghost use Rattle.reader.specs.Reading.{fault_at, verdict_at};

use crate::sets::{lacks, misnamed, names};
use parts::{Arc, Graph};
use refusals::{Fault, Refusal, first_fault};

// The class of operation j is not below the number of classes.
fn classless(graph: &Graph, j: usize) -> bool
    ensures { result ≡ fault_at 6 (graph_in graph.now) j }
{
    graph.limits.len() <= graph.operation(j).class
}

// Refusal 6: the first operation whose class is not below the number of classes.
pub(crate) fn classes(graph: &Graph) -> Result<(), Fault>
    ensures { verdict_of result ≡ verdict_at 6 (graph_in graph.now) }
{
    first_fault(Refusal::Class, graph.operation_count(), |j| {
        classless(graph, j)
    })
}

// The path of operation j has a bit that is no control, or names a control on both sides.
fn mispathed(graph: &Graph, j: usize) -> bool
    ensures { result ≡ fault_at 7 (graph_in graph.now) j }
{
    misnamed(graph.operation(j).path, graph.controls.len())
}

// Refusal 7: the first operation with masks at fault.
pub(crate) fn paths(graph: &Graph) -> Result<(), Fault>
    ensures { verdict_of result ≡ verdict_at 7 (graph_in graph.now) }
{
    first_fault(Refusal::Path, graph.operation_count(), |j| {
        mispathed(graph, j)
    })
}

// Refusal 8: the first control whose operation is not below the number of operations or that of an earlier control. A file
// has few controls.
pub(crate) fn producers(graph: &Graph) -> Result<(), Fault>
    ensures { verdict_of result ≡ verdict_at 8 (graph_in graph.now) }
{
    let mut b = 0;
    'controls: loop {
        if b == graph.controls.len() {
            break 'controls Ok(());
        }
        let fault = Fault {
            refusal: Refusal::Producer,
            place: b,
        };
        if graph.operation_count() <= graph.producer(b) {
            break 'controls Err(fault);
        }
        let mut d = 0;
        'earlier: loop {
            if d == b {
                break 'earlier;
            }
            if graph.producer(d) == graph.producer(b) {
                break 'controls Err(fault);
            }
            d += 1;
        }
        b += 1;
    }
}

// The path of operation j names control x without all literals of the path of x's operation, or j is that operation.
fn stray(graph: &Graph, j: usize, x: usize) -> bool
    ensures { result ≡ stray_path (graph_in graph.now) j x }
{
    let above = graph.producer(x);
    let own = graph.operation(j).path;
    names(own, x)
        && (lacks(graph.controls.len(), graph.operation(above).path, own, own) | (above == j))
}

// Refusal 9: the first operation whose path is stray at a control.
pub(crate) fn branches(graph: &Graph) -> Result<(), Fault>
    ensures { verdict_of result ≡ verdict_at 9 (graph_in graph.now) }
{
    let mut j = 0;
    'operations: loop {
        if j == graph.operation_count() {
            break 'operations Ok(());
        }
        let mut x = 0;
        'controls: loop {
            if x == graph.controls.len() {
                break 'controls;
            }
            if stray(graph, j, x) {
                break 'operations Err(Fault {
                    refusal: Refusal::Branch,
                    place: j,
                });
            }
            x += 1;
        }
        j += 1;
    }
}

// An arc is a follow arc with literals.
fn follows_join(arc: Arc) -> bool
    ensures { (g : _) (a : _) → IsArc g a arc → result ≡ follows_join g a }
{
    let joins = arc.joins;
    arc.kind.is_follow() & !((joins.on_true == 0) & (joins.on_false == 0))
}

// (target, source) of arc a is not above that of the arc before.
fn unordered(graph: &Graph, a: usize) -> bool
    ensures { result ≡ unordered (graph_in graph.now) a }
{
    if a == 0 {
        return false;
    }
    let last = graph.arc(a - 1);
    let own = graph.arc(a);
    !((last.target, last.source) < (own.target, own.source))
}

// Arc a does not lead to a later operation of the graph, is of no kind, has masks at fault, or is out of order.
fn unfit(graph: &Graph, a: usize) -> bool
    ensures { result ≡ fault_at 10 (graph_in graph.now) a }
{
    let arc = graph.arc(a);
    (arc.target <= arc.source)
        | (graph.operation_count() <= arc.target)
        | arc.kind.is_unknown()
        | misnamed(arc.joins, graph.controls.len())
        | follows_join(arc)
        | unordered(graph, a)
}

// Refusal 10: the first arc that is unfit.
pub(crate) fn arcs_fit(graph: &Graph) -> Result<(), Fault>
    ensures { verdict_of result ≡ verdict_at 10 (graph_in graph.now) }
{
    first_fault(Refusal::Arc, graph.arc_count(), |a| unfit(graph, a))
}

// A literal of the path of arc a's source is neither in its target's path nor on the arc.
fn unjoined(graph: &Graph, a: usize) -> bool
    ensures { result ≡ fault_at 11 (graph_in graph.now) a }
{
    let arc = graph.arc(a);
    lacks(
        graph.controls.len(),
        graph.operation(arc.source).path,
        graph.operation(arc.target).path,
        arc.joins,
    )
}

// Refusal 11: the first arc that leaves a side of its source unjoined.
pub(crate) fn arcs_join(graph: &Graph) -> Result<(), Fault>
    ensures { verdict_of result ≡ verdict_at 11 (graph_in graph.now) }
{
    first_fault(Refusal::Join, graph.arc_count(), |a| unjoined(graph, a))
}
