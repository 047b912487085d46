// The search: every reachable state is met once, and stored with its remaining number. Plainer with the graph and the slots apart:
// the one is only read, the other is written.
ghost use Rattle.parts.specs.Fields.{graph_in, state_of};
ghost use Rattle.scheduler.specs.Search.{NextStep, Ready, SettledTo, Branching, BranchedTo};

use crate::key::Key;
use crate::slots::Slots;
use masks::Set;
use parts::State;
use reader::TakenGraph;
use steps::Moves;

// The number that stands for a missing one. Plainer so than an option: it is above all others, so that least and worst are minima
// and maxima of numbers, and a slot holds it in the same six bits.
const MISSING: u32 = 63;

// The least legal step from a number on. All who go through the steps of a state ask here. Plainer so than an iterator of its own:
// the next step from a number on is what `step_from` promises, and either walk adds two lines to it.
pub(crate) fn next_step(moves: &Moves, from: Set) -> Option<Set>
    ensures { NextStep moves.now from result }
{
    moves.step_from(from)
}

// Meets a state and all that is reachable from it, and gives its number; nothing where more states are reachable than slots.
#[cycle(settle)]
pub(crate) fn settle(taken: &TakenGraph, slots: &mut Slots, s: State) -> Option<u32>
    requires { Ready (graph_in taken.now.graph) slots.old.slots.now (state_of s) }
    ensures { SettledTo (graph_in taken.now.graph) slots.old.slots.now slots.new.slots.now (state_of s) result }
{
    let key = Key::of(s);
    if let Some(number) = slots.find(key) {
        return Some(number);
    }
    if steps::complete(&taken.graph, s) {
        return slots.insert(key, 0);
    }
    let moves = steps::moves_in(&taken.graph, s);
    let mut least = MISSING;
    let mut from = 0;
    while let Some(step) = next_step(&moves, from) {
        let worst = settle_after(taken, slots, s, step)?;
        least = least.min(worst + 1);
        from = step + 1;
    }
    slots.insert(key, least)
}

// Settles the states that a step leads to, however its controls fall, and gives the worst of their numbers.
#[cycle(settle)]
fn settle_after(taken: &TakenGraph, slots: &mut Slots, s: State, step: Set) -> Option<u32>
    requires { Branching (graph_in taken.now.graph) slots.old.slots.now (state_of s) step }
    ensures { BranchedTo (graph_in taken.now.graph) slots.old.slots.now slots.new.slots.now (state_of s) step result }
{
    let fork = steps::fork_of(&taken.graph, s, step);
    let mut worst: u32 = 0;
    for word in 0..=fork.begun {
        if fork.falls(word) {
            worst = worst.max(settle(taken, slots, fork.fallen(word))?);
        }
    }
    Some(worst)
}
