// The exact scheduler: the shortest table of a graph, in work slots and a table buffer that the caller lends. The C interface lends
// graph, slots and table apart, and `Promised` speaks of each. `as usize` on a u32: usize has no From<u32>.

#![tactic(auto)]

mod key;
mod rows;
mod search;
mod slots;
mod table;

ghost use Rattle.std.specs.Prelude.{◌≡◌, length, replicate};
ghost use Rattle.parts.specs.Fields.{graph_in};
ghost use Rattle.scheduler.specs.Rows.{PlanAsks};
ghost use Rattle.scheduler.specs.Promise.{Promised, FillGives, LayAsks, LayGives, SolveGives};

use crate::rows::Settled;
use crate::search::settle;
use crate::slots::Slots;
use crate::table::put_header;
use reader::TakenGraph;
use refusals::{Fault, Refusal, refuse_if};

// A schedule whose table was written: its cycles, the rows of the table, and the reachable states.
#[derive(Clone, Copy, PartialEq, Eq)]
pub struct Scheduled {
    pub cycles: u32,
    pub rows: usize,
    pub states: usize,
}

// Writes the rows behind the place of the header, and counts them; or refusal 14. A buffer with room for any table gets them at
// once; else they are counted first, with an empty buffer, since one that is too short stays as it is.
fn fill(settled: &Settled, cycles: u32, table: &mut [u8]) -> Result<u32, Fault>
    requires { PlanAsks (graph_in settled.now.taken.now.graph) settled.now.slots.now.slots.now cycles }
    ensures { FillGives (graph_in settled.now.taken.now.graph) table.old table.new result }
{
    let edition = settled.taken.graph.edition;
    if table.len() < parts::row_start(edition, parts::most_rows(edition)) {
        let rows = settled.plan(cycles, &mut []);
        refuse_if(table.len() < parts::row_start(edition, rows), Refusal::Room)?;
    }
    Ok(settled.plan(cycles, table))
}

// The table of a graph whose reachable states are all held, the start with the given number; or refusal 13 or 14.
fn lay(settled: &Settled, number: u32, table: &mut [u8]) -> Result<Scheduled, Fault>
    requires { LayAsks (graph_in settled.now.taken.now.graph) settled.now.slots.now.slots.now number }
    ensures { LayGives (graph_in settled.now.taken.now.graph) settled.now.slots.now.used table.old table.new result }
{
    refuse_if(
        steps::horizon(&settled.taken.graph) < number as usize,
        Refusal::Unschedulable,
    )?;
    let rows = fill(settled, number, table)?;
    put_header(table, settled.taken.graph.edition, number, rows);
    Ok(Scheduled {
        cycles: number,
        rows: rows as usize,
        states: settled.slots.used,
    })
}

// Settles the start, in slots of which none is in use, and lays the table; or refusal 12, 13 or 14.
fn settle_and_lay(
    taken: &TakenGraph,
    slots: &mut Slots,
    table: &mut [u8],
) -> Result<Scheduled, Fault>
    requires { slots.old.slots.now ≡ replicate (length slots.old.slots.now) 0 }
    ensures { SolveGives (graph_in taken.now.graph) (length slots.old.slots.now) table.old table.new result }
{
    let number = settle(taken, slots, steps::start()).ok_or(Fault {
        refusal: Refusal::Slots,
        place: 0,
    })?;
    lay(&Settled { taken, slots }, number, table)
}

// The schedule of a graph that passes refusals 1 to 11. The slots are all 0 afterwards.
fn solve(taken: &TakenGraph, slots: &mut [u64], table: &mut [u8]) -> Result<Scheduled, Fault>
    ensures answered { SolveGives (graph_in taken.now.graph) (length slots.old) table.old table.new result }
    ensures cleared { slots.new ≡ replicate (length slots.old) 0 }
{
    let answer = settle_and_lay(taken, &mut Slots::cleared(slots), table);
    slots.fill(0);
    answer
}

// Any graph file gets the smallest of its shortest tables, or the refusal that its bytes, the slots and the room ask for.
pub fn schedule(graph: &[u8], slots: &mut [u64], table: &mut [u8]) -> Result<Scheduled, Fault>
    ensures { Promised graph.now slots.old table.old result slots.new table.new }
{
    let taken = reader::take(graph)?;
    solve(&taken, slots, table)
}
