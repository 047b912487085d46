// The schedule's rows: the states of all words side by side, cycle by cycle, with the chosen step of each. The rule of fixed memory
// needs room for sixteen, whatever the words are. `as usize` on a u32: usize has no From<u32>.
ghost use Rattle.std.specs.Prelude.{◌≡◌, ◌<◌};
ghost use Rattle.machine.specs.Machine.{leads, finish, best};
ghost use Rattle.meaning.specs.Steps.{machine_of};
ghost use Rattle.parts.specs.Fields.{graph_in, state_of};
ghost use Rattle.scheduler.specs.Slots.{Holds};
ghost use Rattle.scheduler.specs.Search.{Held};
ghost use Rattle.scheduler.specs.Rows.{Choosing, Attaining, CycleAsks, CycleGives, PlanAsks, PlanGives};

use crate::key::Key;
use crate::search::next_step;
use crate::slots::Slots;
use crate::table::Rows;
use masks::Set;
use parts::{Row, State};
use reader::TakenGraph;

// A graph with slots that hold every reachable state of it. Plainer so: its methods' clauses say that they do, since a ghost field
// takes a fact with one proof at most, and this one's proofs have data in them, the slot of a state and the steps to it.
#[derive(Clone, Copy)]
pub(crate) struct Settled<'a> {
    pub taken: &'a TakenGraph<'a>,
    pub slots: &'a Slots<'a>,
}

impl Settled<'_> {
    // The number that is held with a state.
    fn number_of(&self, s: State) -> u32
        requires values_bound { s.values < 16 }
        requires held { Held self.now.slots.now.slots.now (state_of s) }
        ensures { Holds self.now.slots.now.slots.now (state_of s) result }
    {
        self.slots.find(Key::of(s)).unwrap()
    }

    // The step leads, however its controls fall, to states that are held with numbers up to the bound.
    fn attains(&self, s: State, step: Set, bound: u32) -> bool
        requires { Attaining (graph_in self.now.taken.now.graph) self.now.slots.now.slots.now (state_of s) step bound }
        ensures { let M = machine_of (graph_in self.now.taken.now.graph) in result ≡ leads M (finish M bound) (state_of s) step }
    {
        let fork = steps::fork_of(&self.taken.graph, s, step);
        for word in 0..=fork.begun {
            if fork.falls(word) && bound < self.number_of(fork.fallen(word)) {
                return false;
            }
        }
        true
    }

    // The smallest step that attains the remaining number of an unfinished state.
    fn chosen(&self, s: State) -> Set
        requires { Choosing (graph_in self.now.taken.now.graph) self.now.slots.now.slots.now (state_of s) }
        ensures { result ≡ best (machine_of (graph_in self.now.taken.now.graph)) (state_of s) }
    {
        let moves = steps::moves_in(&self.taken.graph, s);
        let bound = self.number_of(s) - 1;
        let mut from = 0;
        while let Some(step) = next_step(&moves, from) {
            if self.attains(s, step, bound) {
                return step;
            }
            from = step + 1;
        }
        // One of the steps attains it.
        unreachable!()
    }

    // Goes one cycle on in the states of all words, and lays the rows of that cycle: of each unfinished state, on its own word.
    #[tactic(auto, unfolding(meaning::specs::TableFile::most_rows))]
    fn cycle(&self, past: u32, states: &mut [State; 16], rows: &mut Rows)
        requires { CycleAsks (graph_in self.now.taken.now.graph) self.now.slots.now.slots.now past states.old rows.old }
        ensures { CycleGives (graph_in self.now.taken.now.graph) past states.new rows.old rows.new }
    {
        let words = steps::word_count(&self.taken.graph);
        for word in 0..words {
            let s = states[word as usize];
            if !steps::complete(&self.taken.graph, s) {
                let step = self.chosen(s);
                if s.values == word {
                    rows.lay(Row {
                        cycle: past + 1,
                        state: s,
                        step,
                    });
                }
                states[word as usize] = steps::fork_of(&self.taken.graph, s, step).fallen(word);
            }
        }
    }

    // Counts the rows of a schedule of so many cycles, and writes those that have room in the buffer.
    pub(crate) fn plan(&self, cycles: u32, table: &mut [u8]) -> u32
        requires { PlanAsks (graph_in self.now.taken.now.graph) self.now.slots.now.slots.now cycles }
        ensures { PlanGives (graph_in self.now.taken.now.graph) table.old table.new result }
    {
        let mut states = [steps::start(); 16];
        let mut rows = Rows {
            table,
            edition: self.taken.graph.edition,
            count: 0,
        };
        for past in 0..cycles {
            self.cycle(past, &mut states, &mut rows);
        }
        rows.count
    }
}
