// The checker and the query on tables for each refusal number, on pairs of faults, on tables with stray bits and on accepted
// ones, among them two that the scheduler would not write. What they answer is held to the file stdout.

#![tactic(auto)]

use checker::Acceptance;
use std::io;

// Case A: compare 0 decides control 0; add 1 on its true side, add 2 on its false side; both classes have the limit 1.
const GRAPH: [u8; 28] =
    *b"HS\x01\x03\x02\x01\x00\x00\x10\x00\x12\x00\x1b\x00\x1c\x00\x01\x01\x00\x00\x00\x01\x01\x00\x01\x00\x01\x00";

// Its table of two cycles and three rows: cycle, values, done, step.
const TABLE: [u8; 32] =
    *b"HT\x01\x02\x03\x00\x08\x00\x01\x00\x00\x00\x00\x01\x00\x00\x02\x00\x01\x00\x00\x04\x00\x00\x02\x01\x01\x00\x00\x02\x00\x00";

// What the checker says of a table for a graph; both come apart, as `check` and `span_of` take them.
fn show(rt: &impl Print, graph: &[u8], table: &[u8]) -> io::Result<()> {
    match checker::check(graph, table) {
        Ok(Acceptance { cycles, rows }) => println!(rt; "accepted {cycles} {rows}"),
        Err(fault) => println!(rt; "{fault}"),
    }
}

// Where the rows of one cycle begin and end, and their bytes.
fn query(rt: &impl Print, graph: &[u8], table: &[u8], cycle: u32) -> io::Result<()> {
    let span = checker::span_of(graph, table, cycle);
    print!(rt; "part {} {}", span.start, span.end)?;
    for byte in checker::rows_of(graph, table, cycle) {
        print!(rt; " {byte}")?;
    }
    println!(rt)
}

// A byte that is set to another. Plainer so than a library for these lines, which another program has too.
type Change = (usize, u8);

// So many bytes of A's table, and zeros past its end, with some bytes changed.
fn cut(rt: &impl Print, length: usize, changes: &[Change]) -> io::Result<()> {
    let mut room = [0u8; 3088];
    room[..32].copy_from_slice(&TABLE);
    for (i, x) in changes {
        if let Some(byte) = room.get_mut(*i) {
            *byte = *x;
        }
    }
    match room.get(..length) {
        Some(table) => plain(rt, table),
        None => Ok(()),
    }
}

// The whole table with some bytes changed.
fn changed(rt: &impl Print, changes: &[Change]) -> io::Result<()> {
    cut(rt, 32, changes)
}

// A table for A that is given as it stands.
fn plain(rt: &impl Print, table: &[u8]) -> io::Result<()> {
    show(rt, &GRAPH, table)
}

// Tables that are accepted too: P6, and a first step that decides nothing, with three cycles.
fn accepted(rt: &impl Print) -> io::Result<()> {
    plain(
        rt,
        b"HT\x01\x02\x02\x00\x08\x00\x01\x00\x00\x00\x00\x03\x00\x00\x02\x00\x03\x00\x00\x04\x00\x00",
    )?;
    plain(
        rt,
        b"HT\x01\x03\x03\x00\x08\x00\x01\x00\x00\x00\x00\x02\x00\x00\x02\x00\x02\x00\x00\x01\x00\x00\x03\x00\x03\x00\x00\x04\x00\x00",
    )
}

// 15: too short, mark, edition, offset, length, 385 rows; 384 rows are not too many.
fn layout_refusals(rt: &impl Print) -> io::Result<()> {
    cut(rt, 0, &[])?;
    cut(rt, 7, &[])?;
    changed(rt, &[(0, 0x49)])?;
    changed(rt, &[(1, 0x53)])?;
    changed(rt, &[(2, 2)])?;
    changed(rt, &[(6, 16)])?;
    changed(rt, &[(7, 1)])?;
    cut(rt, 31, &[])?;
    cut(rt, 33, &[])?;
    changed(rt, &[(4, 2)])?;
    cut(rt, 3088, &[(4, 0x81), (5, 1)])?;
    cut(rt, 3080, &[(4, 0x80), (5, 1)])
}

// 16 to 18.
fn row_refusals(rt: &impl Print) -> io::Result<()> {
    // 16 at rows 2 and 3: by cycle, values, done, and two rows alike
    changed(rt, &[(16, 0)])?;
    changed(rt, &[(24, 1), (25, 0)])?;
    changed(rt, &[(25, 0)])?;
    changed(rt, &[(17, 1), (25, 0)])?;
    // 17 at rows 1, 2 and 3: no start, cycle 0, no row one cycle earlier, no next state, complete
    changed(rt, &[(8, 0)])?;
    changed(rt, &[(8, 2)])?;
    changed(rt, &[(10, 2)])?;
    changed(rt, &[(18, 3)])?;
    changed(rt, &[(24, 3)])?;
    changed(rt, &[(26, 3)])?;
    changed(rt, &[(26, 7)])?;
    // 18 at rows 1, 2 and 3: too many, excluded, empty, done already
    changed(rt, &[(13, 6)])?;
    changed(rt, &[(21, 2)])?;
    changed(rt, &[(21, 0)])?;
    changed(rt, &[(29, 4)])?;
    changed(rt, &[(29, 1)])
}

// 19 and 20.
fn end_refusals(rt: &impl Print) -> io::Result<()> {
    // 19 at the start and at rows 1 and 2
    cut(rt, 8, &[(4, 0), (3, 0)])?;
    cut(rt, 24, &[(4, 2)])?;
    plain(
        rt,
        b"HT\x01\x02\x02\x00\x08\x00\x01\x00\x00\x00\x00\x02\x00\x00\x02\x00\x02\x00\x00\x01\x00\x00",
    )?;
    // 20
    changed(rt, &[(3, 3)])?;
    changed(rt, &[(3, 1)])?;
    changed(rt, &[(3, 0)])
}

// Stray bits in values, done and step.
fn stray_bits(rt: &impl Print) -> io::Result<()> {
    changed(rt, &[(9, 0x80)])?;
    changed(rt, &[(25, 3)])?;
    changed(rt, &[(12, 0x80)])?;
    changed(rt, &[(28, 0x80)])?;
    changed(rt, &[(15, 0x80)])?;
    changed(rt, &[(31, 0x80)])
}

// Pairs: the lower number first, but 17 and 18 row by row.
fn pairs(rt: &impl Print) -> io::Result<()> {
    cut(rt, 33, &[(16, 0)])?;
    changed(rt, &[(16, 0), (10, 2)])?;
    changed(rt, &[(26, 3), (21, 2)])?;
    changed(rt, &[(10, 2), (13, 6)])?;
    changed(rt, &[(13, 6), (26, 3)])?;
    changed(rt, &[(13, 6), (3, 3)])?;
    cut(rt, 24, &[(4, 2), (3, 3)])
}

// The graph first.
fn graph_first(rt: &impl Print) -> io::Result<()> {
    show(rt, b"", &TABLE)?;
    show(rt, &GRAPH, b"")?;
    show(
        rt,
        b"HS\x01\x01\x01\x00\x00\x00\x10\x00\x11\x00\x14\x00\x14\x00\x01\x01\x00\x00",
        &TABLE,
    )?;
    // no operations: the table without rows is accepted
    show(
        rt,
        b"HS\x01\x00\x00\x00\x00\x00\x10\x00\x10\x00\x10\x00\x10\x00",
        b"HT\x01\x00\x00\x00\x08\x00",
    )
}

// The rows of a cycle; none for 0, for a cycle above the table's, and where graph or table is refused.
fn queries(rt: &impl Print) -> io::Result<()> {
    query(rt, &GRAPH, &TABLE, 1)?;
    query(rt, &GRAPH, &TABLE, 2)?;
    query(rt, &GRAPH, &TABLE, 0)?;
    query(rt, &GRAPH, &TABLE, 3)?;
    query(rt, &GRAPH, &TABLE, 0xffff_ffff)?;
    query(rt, b"", &TABLE, 1)?;
    query(rt, &GRAPH, b"HT\x01\x00\x00\x00\x08\x00", 1)
}

fn main(rt: HostRuntime) -> io::Result<()> {
    cut(&rt, 32, &[])?;
    accepted(&rt)?;
    layout_refusals(&rt)?;
    row_refusals(&rt)?;
    end_refusals(&rt)?;
    stray_bits(&rt)?;
    pairs(&rt)?;
    graph_first(&rt)?;
    queries(&rt)
}
