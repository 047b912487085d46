// What makes a table sound: refusals 17 to 20 of a table that is judged for a taken graph, and with 15 and 16 its verdict.
// `as usize` on a u32: usize has no From<u32>.
ghost use Rattle.std.specs.Prelude.{◌≡◌, suc, ◌^◌, ◌&&◌, ltb, [], ◌∷◌};
ghost use Rattle.machine.specs.Sets.{any_below, list_below};
ghost use Rattle.machine.specs.Refusals.{judge};
ghost use Rattle.machine.specs.Tables.{follows, continues, sound_lines};
ghost use Rattle.meaning.specs.Answers.{table_lines};
ghost use Rattle.meaning.specs.Steps.{machine_of, legal, same};
ghost use Rattle.meaning.specs.TableFile.{rows_of, table_in};
ghost use Rattle.parts.specs.Fields.{graph_in, state_of, row_of, IsRow};
ghost use Rattle.refusals.specs.Faults.{verdict_of};
ghost use Rattle.steps.specs.Forks.{word_count, fallen};
ghost use Rattle.checker.specs.Rows.{came_from, covered, unfounded, row_lines, gap_line};
ghost use Rattle.checker.specs.Claims.{graph_of, file_of};

use crate::claim::Claim;
use crate::rows::{cycles, has_row, last_cycle, layout, order};
use parts::{Graph, Row, State};
use refusals::{Fault, Refusal, first_fault, refuse_if};
use steps::Fork;

// Some word leads by the fork to this state.
fn leads(graph: &Graph, fork: Fork, s: State) -> bool
    ensures { result ≡ any_below (word_count (graph_in graph.now)) (λ w. same (fallen fork w) (state_of s)) }
{
    (0..steps::word_count(graph)).any(|w| steps::same(fork.fallen(w), s))
}

impl<'a> Claim<'a> {
    // Row i + 1 of the table.
    fn row(&self, i: u32) -> Row
        ensures { IsRow (graph_of self.now) (file_of self.now) (suc i) result }
    {
        self.table.row(i)
    }

    // The state is complete, or the table has a row for it at cycle t.
    fn covered(&self, t: u32, s: State) -> bool
        ensures { result ≡ covered (graph_of self.now) (file_of self.now) t (state_of s) }
    {
        steps::complete(&self.taken.graph, s) || has_row(&self.table, t, s)
    }

    // The row of another state, one cycle later, may come from row i + 1.
    fn comes_from(&self, i: u32, p: Row) -> bool
        ensures { let g = graph_of self.now in
            result ≡ came_from g (file_of self.now) (suc i) (row_of g p) }
    {
        let graph = &self.taken.graph;
        let q = self.row(i);
        q.cycle + 1 == p.cycle && leads(graph, steps::fork_of(graph, q.state, q.step), p.state)
    }

    // Row i + 1 is the start at cycle 1, or a next state of a row one cycle earlier.
    fn follows(&self, i: u32) -> bool
        ensures { let g = graph_of self.now in
            result ≡ follows (machine_of g) (table_in g (file_of self.now)) (suc i) }
    {
        let p = self.row(i);
        let starts = (p.cycle == 1) & steps::same(steps::start(), p.state);
        starts || (0..self.table.row_count()).any(|j| self.comes_from(j, p))
    }

    // Every next state of row i + 1 is complete or has a row in the next cycle.
    fn continues(&self, i: u32) -> bool
        ensures { let g = graph_of self.now in
            result ≡ continues (machine_of g) (table_in g (file_of self.now)) (suc i) }
    {
        let graph = &self.taken.graph;
        let p = self.row(i);
        let t = p.cycle + 1;
        let fork = steps::fork_of(graph, p.state, p.step);
        (0..steps::word_count(graph)).all(|w| self.covered(t, fork.fallen(w)))
    }

    // The row's step is legal in its state.
    fn lawful(&self, p: Row) -> bool
        ensures { result ≡ legal (graph_of self.now) (state_of p.state) p.step }
    {
        steps::moves_in(&self.taken.graph, p.state).allows(p.step)
    }

    // Row i + 1 is complete, or it does not follow.
    fn unfounded(&self, i: u32) -> bool
        ensures { result ≡ unfounded (graph_of self.now) (file_of self.now) i }
    {
        steps::complete(&self.taken.graph, self.row(i).state) || !self.follows(i)
    }

    // Refusals 17 and 18 of row i + 1.
    fn row_sound(&self, i: u32) -> Result<(), Fault>
        ensures { verdict_of result ≡ judge (row_lines (graph_of self.now) (file_of self.now) i) }
    {
        let place = i as usize + 1;
        let stray = self.unfounded(i);
        if stray {
            return Err(Fault {
                refusal: Refusal::Unfounded,
                place,
            });
        }
        let broken = !self.lawful(self.row(i));
        if broken {
            return Err(Fault {
                refusal: Refusal::Illegal,
                place,
            });
        }
        Ok(())
    }

    // Refusals 17 and 18, row by row.
    fn rows_sound(&self) -> Result<(), Fault>
        ensures { verdict_of result
            ≡ judge (list_below (rows_of (file_of self.now)) (row_lines (graph_of self.now) (file_of self.now))) }
    {
        for i in 0..self.table.row_count() {
            self.row_sound(i)?;
        }
        Ok(())
    }

    // The start, at place 0, or a next state of the row at a place, counted from 1, is unfinished and has no row. No row stands
    // at a place that is no u32.
    fn breaks(&self, place: usize) -> bool
        ensures { result ≡ (ltb place (2 ^ 32) && (gap_line (graph_of self.now) (file_of self.now)).fault place) }
    {
        let Ok(place) = u32::try_from(place) else {
            return false;
        };
        if place == 0 {
            return !self.covered(1, steps::start());
        }
        !self.continues(place - 1)
    }

    // Refusal 19: the first place that breaks off.
    fn gapless(&self) -> Result<(), Fault>
        ensures { verdict_of result ≡ judge (gap_line (graph_of self.now) (file_of self.now) ∷ []) }
    {
        let places = self.table.row_count() as usize + 1;
        first_fault(Refusal::Gap, places, |place| self.breaks(place))
    }

    // Refusals 17 to 20.
    fn sound(&self) -> Result<(), Fault>
        ensures { let g = graph_of self.now in
            verdict_of result ≡ judge (sound_lines (machine_of g) (table_in g (file_of self.now))) }
    {
        self.rows_sound()?;
        self.gapless()?;
        let last = last_cycle(&self.table);
        refuse_if(cycles(&self.table) != last, Refusal::Cycles)
    }

    // Refusals 15 to 20, the lower number first, but 17 and 18 row by row.
    pub(crate) fn judge(&self) -> Result<(), Fault>
        ensures { verdict_of result ≡ judge (table_lines (graph_of self.now) (file_of self.now)) }
    {
        layout(&self.table)?;
        order(&self.table)?;
        self.sound()
    }
}
