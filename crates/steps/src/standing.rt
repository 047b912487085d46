// What a state's values decide in a graph: the literals that are lost, the operations that are settled, and the arcs that wait.

#![tactic(auto)]

ghost use Rattle.std.specs.Prelude.{◌≡◌, ℕ, ◌||◌};
ghost use Rattle.machine.specs.Sets.{has};
ghost use Rattle.meaning.specs.Graph.{limit};
ghost use Rattle.meaning.specs.Steps.{lost, excluded};
ghost use Rattle.parts.specs.Fields.{graph_in, literals_of, state_of, IsArc};
ghost use Rattle.steps.specs.Moves.{produced, waiting, demanding, Pulled, eight, joined, IsSorted};

use crate::Class;
use masks::Set;
use parts::{Arc, Graph, Literals, State};

// The controls whose operation is in the set: of the operations done, the controls resolved.
pub(crate) fn produced(graph: &Graph, set: Set) -> u32
    ensures { result ≡ produced (graph_in graph.now) set }
{
    let mut found = 0;
    for b in 0..graph.controls.len() {
        found = masks::with(found, b, masks::has(set, graph.producer(b)));
    }
    found
}

// What the arcs say of their targets: which are held back, and which are demanded.
#[derive(Clone, Copy)]
pub(crate) struct Pulls {
    pub held: Set,
    pub demanded: Set,
}

// The first eight classes: their limits, and no operation yet. Measured: with `std::array::from_fn`, `sorted` takes twice the time;
// and by index, since no proof knows what is written through `iter_mut`.
fn empty_classes(graph: &Graph) -> [Class; 8]
    ensures { result ≡ eight (λ k. record { members = 0; limit = limit (graph_in graph.now) k }) }
{
    let mut classes = [Class {
        members: 0,
        limit: 0,
    }; 8];
    for k in 0..graph.limits.len().min(8) {
        classes[k] = Class {
            members: 0,
            limit: graph.limit(k),
        };
    }
    classes
}

// Adds operation j to its class, if that is one of the first eight.
#[tactic(auto, using(crate::proofs::Eights::set_past), unfolding(crate::specs::Moves::joined))]
fn join(classes: &mut [Class; 8], class: usize, j: usize)
    ensures { classes.new ≡ joined classes.old «class» j }
{
    if class < 8 {
        classes[class].members = masks::with(classes[class].members, j, true);
    }
}

// What the operations say: which are excluded, and which each of the first eight classes has.
#[derive(Clone, Copy)]
pub(crate) struct Sorted {
    pub excluded: Set,
    pub classes: [Class; 8],
}

// A state of a graph, and the controls that are resolved in it.
#[derive(Clone, Copy)]
pub(crate) struct Standing<'a> {
    graph: &'a Graph<'a>,
    state: State,
    resolved: u32,
    ghost known: { resolved ≡ produced (graph_in graph.now) state.done },
}

impl<'a> Standing<'a> {
    // A state, and what its operations done resolve.
    pub(crate) fn of(graph: &'a Graph<'a>, state: State) -> Standing<'a>
        ensures { (result.graph.now ≡ graph.now) × (result.state ≡ state) }
    {
        Standing {
            graph,
            state,
            resolved: produced(graph, state.done),
        }
    }

    // One of these literals is lost.
    fn lost(&self, l: Literals) -> bool
        ensures { let s = self.now.state in result ≡ lost (graph_in self.now.graph.now) s.done s.values (literals_of l) }
    {
        let values = self.state.values;
        self.resolved & (l.on_true & !values | l.on_false & values) != 0
    }

    // Operation j is done or excluded.
    #[tactic(auto, unfolding(meaning::specs::Steps::excluded))]
    pub(crate) fn settled(&self, j: usize) -> bool
        ensures { let s = self.now.state in result ≡ (has s.done j || excluded (graph_in self.now.graph.now) s.done s.values j) }
    {
        masks::has(self.state.done, j) | self.lost(self.graph.operation(j).path)
    }

    // The arc holds its target back: it is not void and its source is not done.
    #[tactic(auto, unfolding(meaning::specs::Steps::void, crate::specs::Moves::waiting))]
    fn waits(&self, arc: Arc) -> bool
        ensures { let s = self.now.state in (a : ℕ) → IsArc (graph_in self.now.graph.now) a arc → result ≡ waiting (graph_in self.now.graph.now) s.done s.values a }
    {
        !self.lost(arc.joins) & !masks::has(self.state.done, arc.source)
    }

    // The arc demands its target: it is a follow arc whose source is done and whose target is not. Measured: few arcs are follow
    // arcs, and others leave at once; with `Graph::arc` as it is, a schedule of the largest graph takes 59 us for 77.
    #[tactic(auto, using(parts::proofs::PartLaws::follow_is), unfolding(crate::specs::Moves::demanding))]
    fn demands(&self, arc: Arc) -> bool
        ensures { (a : ℕ) → IsArc (graph_in self.now.graph.now) a arc → result ≡ demanding (graph_in self.now.graph.now) self.now.state.done a }
    {
        if !arc.kind.is_follow() {
            return false;
        }
        let done = self.state.done;
        masks::has(done, arc.source) & !masks::has(done, arc.target)
    }

    // What the arcs say.
    pub(crate) fn pulls(&self) -> Pulls
        ensures { Pulled (graph_in self.now.graph.now) (state_of self.now.state) result }
    {
        let mut held = 0;
        let mut demanded = 0;
        for a in 0..self.graph.arc_count() {
            let arc = self.graph.arc(a);
            held = masks::with(held, arc.target, self.waits(arc));
            demanded = masks::with(demanded, arc.target, self.demands(arc));
        }
        Pulls { held, demanded }
    }

    // What the operations say.
    pub(crate) fn sorted(&self) -> Sorted
        ensures { let s = self.now.state in IsSorted (graph_in self.now.graph.now) s.done s.values result }
    {
        let mut excluded = 0;
        let mut classes = empty_classes(self.graph);
        for j in 0..self.graph.operation_count() {
            let operation = self.graph.operation(j);
            excluded = masks::with(excluded, j, self.lost(operation.path));
            join(&mut classes, operation.class, j);
        }
        Sorted { excluded, classes }
    }
}
