// The checker of table files, and the rows of one cycle. The C interface lends a graph and a table apart, so the public functions
// take both as bytes. `as usize` on a u32: usize has no From<u32>.

#![tactic(auto)]

mod claim;
mod rows;
mod sound;

ghost use Rattle.std.specs.Prelude.{◌≡◌};
ghost use Rattle.meaning.specs.Answers.{checker, rows_of_cycle};
ghost use Rattle.checker.specs.Checked.{values_of, part_of, Lies};

use claim::Claim;
use parts::Table;
use refusals::Fault;

// What the checker answers of a table that it accepts.
#[derive(Clone, Copy, PartialEq, Eq)]
pub struct Acceptance {
    pub cycles: u32,
    pub rows: usize,
}

// A table file is accepted for a graph file, with its cycles and rows, or one of them is refused with a number and a place.
pub fn check(graph: &[u8], table: &[u8]) -> Result<Acceptance, Fault>
    ensures { values_of result ≡ checker graph.now table.now }
{
    let taken = reader::take(graph)?;
    let table = Table {
        edition: taken.graph.edition,
        bytes: table,
    };
    Claim { taken, table }.judge()?;
    Ok(Acceptance {
        cycles: rows::cycles(&table),
        rows: table.row_count() as usize,
    })
}

// Where the rows of one cycle stand in a table: from a byte on, up to and without another.
#[derive(Clone, Copy, PartialEq, Eq)]
pub struct Span {
    pub start: usize,
    pub end: usize,
}

// The span of the rows of one cycle. Where graph or table is refused, the empty one at the table's front; where the cycle is
// 0 or above the table's, the empty one at its end. No Option: `span_of`'s promise `rows_of_cycle` needs both.
pub fn span_of(graph: &[u8], table: &[u8], cycle: u32) -> Span
    ensures { part_of result ≡ rows_of_cycle graph.now table.now cycle }
{
    let Ok(accepted) = check(graph, table) else {
        return Span { start: 0, end: 0 };
    };
    let end = table.len();
    if (cycle == 0) | (accepted.cycles < cycle) {
        return Span { start: end, end };
    }
    let table = Table {
        edition: parts::edition(graph),
        bytes: table,
    };
    Span {
        start: rows::cycle_start(&table, cycle),
        end: rows::cycle_start(&table, cycle + 1),
    }
}

// The rows of one cycle, as the part of the lent table in which they stand.
pub fn rows_of<'a>(graph: &[u8], table: &'a [u8], cycle: u32) -> &'a [u8]
    ensures { Lies (rows_of_cycle graph.now table.now cycle) table.entry result }
{
    let span = span_of(graph, table, cycle);
    &table[span.start..span.end]
}
