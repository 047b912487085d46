// What a clock may do in a state, asked once for a state; legal steps in ascending order; what a step leads to, asked once
// for a step.

#![tactic(auto)]

mod standing;

ghost use Rattle.std.specs.Prelude.{◌≡◌, ◌<◌};
ghost use Rattle.meaning.specs.Graph.{Graph as Content};
ghost use Rattle.meaning.specs.Steps.{machine_of, same, before};
ghost use Rattle.masks.specs.Width.{set_width};
ghost use Rattle.parts.specs.Fields.{graph_in, state_of};
ghost use Rattle.steps.specs.Moves.{step_count, moves_in, roomy, fits, allows, next_of, raised};
ghost use Rattle.steps.specs.Forks.{word_count, fork_of, fallen, falls};

use crate::standing::{Standing, produced};
use masks::Set;
use parts::Graph;
pub use parts::State;

// The start: nothing is done.
pub fn start() -> State
    ensures { (g : Content) → state_of result ≡ (machine_of g).start }
{
    State { values: 0, done: 0 }
}

// Both states are the same. All who compare states ask here: it promises what `==` computes, in the definitions' words.
#[tactic(auto, unfolding(meaning::specs::Steps::same))]
pub fn same(a: State, b: State) -> bool
    ensures { result ≡ same (state_of a) (state_of b) }
{
    a == b
}

// State a comes before state b in the rows of one cycle. All who order states ask here, as for `same`.
#[tactic(auto, unfolding(meaning::specs::Steps::before))]
pub fn before(a: State, b: State) -> bool
    ensures { result ≡ before (state_of a) (state_of b) }
{
    a < b
}

// How many words there are: a word says how every branch test of a run falls. None where a mask cannot hold them.
#[tactic(auto, unfolding(crate::specs::Forks::word_count, crate::specs::Moves::step_count, meaning::specs::Graph::control_count))]
pub fn word_count(graph: &Graph) -> u32
    ensures { result ≡ word_count (graph_in graph.now) }
{
    step_count(graph.controls.len())
}

// No run of legal steps is longer.
pub fn horizon(graph: &Graph) -> usize
    ensures { result ≡ (machine_of (graph_in graph.now)).horizon }
{
    graph.operation_count()
}

// A class: its operations, and how many of them one step may have.
#[derive(Clone, Copy)]
pub struct Class {
    pub members: Set,
    pub limit: u8,
}

// What a clock may do in a state: how many steps there are, legal or not; the operations not done, those that a dependency
// holds back, those excluded, and those that a follow arc demands; how many classes there are, and the first eight. The rule of
// fixed memory needs an array with the count beside it.
#[derive(Clone, Copy)]
pub struct Moves {
    pub steps: Set,
    pub undone: Set,
    pub held: Set,
    pub excluded: Set,
    pub demanded: Set,
    pub class_count: usize,
    pub classes: [Class; 8],
}

// What a step leads to: the controls that it begins, the operations done afterwards, and the values that stay.
#[derive(Clone, Copy)]
pub struct Fork {
    pub begun: u32,
    pub done: Set,
    pub kept: u32,
}

// Every operation is done or excluded.
pub fn complete(graph: &Graph, s: State) -> bool
    ensures { result ≡ (machine_of (graph_in graph.now)).complete (state_of s) }
{
    let standing = Standing::of(graph, s);
    (0..graph.operation_count()).all(|j| standing.settled(j))
}

// How many sets of n things there are: steps of operations, words of controls. None where a mask cannot hold them: the promises of
// `moves_in` and `word_count` need the 0.
#[tactic(auto, using(masks::proofs::Bits::one_bit), unfolding(crate::specs::Moves::step_count))]
fn step_count(n: usize) -> Set
    ensures { result ≡ step_count n }
{
    if n < 32 { 1 << n } else { 0 }
}

// What a clock may do in a state. The promises of `complete`, `moves_in` and `fork_of` speak of a graph and a state apart.
pub fn moves_in(graph: &Graph, s: State) -> Moves
    ensures { result ≡ moves_in (graph_in graph.now) (state_of s) }
{
    let n = graph.operation_count();
    let all = masks::below(n);
    let standing = Standing::of(graph, s);
    let pulls = standing.pulls();
    let sorted = standing.sorted();
    let classes = sorted.classes;
    Moves {
        steps: step_count(n),
        undone: all & !s.done,
        held: all & pulls.held,
        excluded: sorted.excluded,
        demanded: all & pulls.demanded,
        class_count: graph.limits.len().min(8),
        classes,
    }
}

// The number x raised at j: j joins, and below j are the members of low alone.
fn raised(x: Set, j: u32, low: Set) -> Set
    requires { j < set_width }
    ensures { result ≡ raised x j low }
{
    (x >> j | 1) << j | low & ((1 << j) - 1)
}

impl Class {
    // The step has no more members of the class than its limit.
    fn roomy(self, step: Set) -> bool
        ensures { result ≡ roomy self step }
    {
        masks::count(step & self.members) <= u32::from(self.limit)
    }
}

impl Moves {
    // No class has more members in the step than its limit.
    #[tactic(auto, unfolding(crate::specs::Moves::fits))]
    fn fits(&self, step: Set) -> bool
        ensures { result ≡ fits self.now step }
    {
        self.classes
            .iter()
            .take(self.class_count)
            .all(|class| class.roomy(step))
    }

    // The moves allow the step. The limits come last: the other tests are cheap.
    pub fn allows(&self, step: Set) -> bool
        ensures { result ≡ allows self.now step }
    {
        let fresh = (step != 0) & (step < self.steps) & (step & !self.undone == 0);
        let ready = fresh & (step & self.held == 0) & (step & self.excluded == 0);
        ready & (self.demanded & !step == 0) && self.fits(step)
    }

    // The least step that the moves allow from a number on. An allowed step that is raised at j is least with only what is
    // demanded below j; and if that breaks a limit, so does every other step that is raised at j, since limits are monotone.
    // So there is one test for each free operation.
    pub fn step_from(&self, from: Set) -> Option<Set>
        ensures { result ≡ next_of self.now from }
    {
        if self.steps <= from {
            return None;
        }
        if self.allows(from) {
            return Some(from);
        }
        let low = self.demanded;
        // Plainer so: the members leave the set, the lowest first, and no index is counted.
        let mut free = self.undone & !self.held & !self.excluded & !from;
        while free != 0 {
            let j = masks::lowest(free);
            let next = raised(from, j, low);
            if self.allows(next) {
                return Some(next);
            }
            free = free & !(1 << j);
        }
        None
    }
}

// What a step in a state leads to.
pub fn fork_of(graph: &Graph, s: State, step: Set) -> Fork
    ensures { result ≡ fork_of (graph_in graph.now) (state_of s) step }
{
    let resolved = produced(graph, s.done);
    Fork {
        begun: produced(graph, step) & !resolved,
        done: (s.done | step) & masks::below(graph.operation_count()),
        kept: resolved & s.values,
    }
}

impl Fork {
    // The word says nothing but how the controls begun fall.
    pub fn falls(self, word: u32) -> bool
        ensures { result ≡ falls self word }
    {
        word & !self.begun == 0
    }

    // The next state where the controls begun fall as the word says.
    #[tactic(auto, unfolding(crate::specs::Forks::fallen))]
    pub fn fallen(self, word: u32) -> State
        ensures { state_of result ≡ fallen self word }
    {
        State {
            values: self.kept | self.begun & word,
            done: self.done,
        }
    }
}
