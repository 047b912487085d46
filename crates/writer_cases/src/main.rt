// The writer on lists for each refusal number, on pairs of faults, and on outputs of different room. Each line has its answer,
// after a success the numbers that the reader gives for the file, and the output's bytes where they are few. All is held to the file
// stdout.

#![tactic(auto)]

use parts::Graph;
use std::io;

// A graph that is taken, of 50 bytes. Operation 0 decides control 0; 1, on its true side, decides control 1; 2 stands on both
// true sides, 3 on the false side of control 0, 4 on none. Arcs 1 to 2, 2 to 4 by both true sides, and 3 to 4 by the false side.
const GRAPH: Graph<'static> = Graph {
    edition: 1,
    limits: b"\x01\x01",
    operations: &OPERATIONS,
    controls: b"\x00\x01",
    arcs: &ARCS,
};

const OPERATIONS: [u8; 15] = *b"\x00\x00\x00\x01\x01\x00\x01\x03\x00\x01\x00\x01\x00\x00\x00";

const ARCS: [u8; 15] = *b"\x01\x02\x00\x00\x00\x02\x04\x00\x03\x00\x03\x04\x00\x00\x01";

// What the reader says of a file.
fn print_reading(rt: &impl Print, file: &[u8]) -> io::Result<()> {
    match reader::read_graph(file) {
        Err(fault) => print!(rt; ", {fault}"),
        Ok(counts) => print!(rt;
            ", read {} {} {} {}",
            counts.operations, counts.classes, counts.controls, counts.arcs
        ),
    }
}

fn write(rt: &impl Print, graph: &Graph, output: &mut [u8]) -> io::Result<()> {
    match writer::write(graph, output) {
        Err(fault) => print!(rt; "{fault}")?,
        Ok(length) => {
            print!(rt; "written {length}")?;
            if let Some(file) = output.get(..length) {
                print_reading(rt, file)?;
            }
        }
    }
    if output.len() < 64 {
        print!(rt; ":")?;
        for byte in output.iter() {
            print!(rt; " {byte}")?;
        }
    }
    println!(rt)
}

// Into an output of so many sevens.
fn into(rt: &impl Print, graph: &Graph, room: usize) -> io::Result<()> {
    let mut sevens = [7u8; 1484];
    match sevens.get_mut(..room) {
        Some(output) => write(rt, graph, output),
        None => Ok(()),
    }
}

// A list of 15 bytes with the byte at i set to x. Plainer as two numbers: no case changes more than one byte.
fn changed(list: [u8; 15], i: usize, x: u8) -> [u8; 15] {
    let mut other = list;
    if let Some(byte) = other.get_mut(i) {
        *byte = x;
    }
    other
}

// The graph with a byte of its operations changed, with other controls, or with a byte of its arcs changed. Plainer so than with the
// list as an argument: a case says by its name what it changes.
fn operation(rt: &impl Print, i: usize, x: u8, room: usize) -> io::Result<()> {
    let operations = changed(OPERATIONS, i, x);
    into(
        rt,
        &Graph {
            operations: &operations,
            ..GRAPH
        },
        room,
    )
}

fn control(rt: &impl Print, controls: &[u8], room: usize) -> io::Result<()> {
    into(rt, &Graph { controls, ..GRAPH }, room)
}

fn arc(rt: &impl Print, i: usize, x: u8, room: usize) -> io::Result<()> {
    let arcs = changed(ARCS, i, x);
    into(
        rt,
        &Graph {
            arcs: &arcs,
            ..GRAPH
        },
        room,
    )
}

// The first n bytes, or all.
fn front<'a>(bytes: &'a [u8], n: usize) -> &'a [u8] {
    bytes.get(..n).unwrap_or(bytes)
}

// Lists of zeros of these lengths. Plainer so: each case below is one line of numbers.
fn zeros(
    rt: &impl Print,
    edition: u32,
    operations: usize,
    limits: usize,
    controls: usize,
    arcs: usize,
    room: usize,
) -> io::Result<()> {
    let all = [0u8; 1484];
    let graph = Graph {
        edition,
        limits: front(&all, limits),
        operations: front(&all, operations),
        controls: front(&all, controls),
        arcs: front(&all, arcs),
    };
    into(rt, &graph, room)
}

// Case A, with two bytes of room past the file, with none, and with one byte too few; all four lists; nothing at all.
fn successes(rt: &impl Print) -> io::Result<()> {
    let case_a = Graph {
        operations: b"\x00\x00\x00\x01\x01\x00\x01\x00\x01",
        controls: b"\x00",
        arcs: b"",
        ..GRAPH
    };
    into(rt, &case_a, 30)?;
    into(rt, &case_a, 28)?;
    into(rt, &case_a, 27)?;
    operation(rt, 0, 0, 52)?;
    zeros(rt, 1, 0, 0, 0, 0, 18)?;
    zeros(rt, 1, 0, 0, 0, 0, 15)
}

// 2, 3 and 5.
fn list_refusals(rt: &impl Print) -> io::Result<()> {
    // 2, whatever the lists are
    zeros(rt, 0, 0, 0, 0, 0, 16)?;
    zeros(rt, 2, 76, 9, 5, 1386, 16)?;
    // 3: 25 whole operations and a piece, 9 limits, 5 controls, 277 whole arcs and a piece
    zeros(rt, 1, 75, 1, 0, 0, 20)?;
    zeros(rt, 1, 76, 1, 0, 0, 20)?;
    zeros(rt, 1, 0, 9, 0, 0, 20)?;
    zeros(rt, 1, 3, 1, 5, 0, 20)?;
    zeros(rt, 1, 0, 0, 0, 1385, 20)?;
    zeros(rt, 1, 0, 0, 0, 1386, 20)?;
    // 5: 24 whole operations and a piece, 276 whole arcs and a piece, pieces alone
    zeros(rt, 1, 73, 1, 0, 0, 20)?;
    zeros(rt, 1, 74, 1, 0, 0, 20)?;
    zeros(rt, 1, 0, 0, 0, 1381, 20)?;
    zeros(rt, 1, 0, 0, 0, 1384, 20)?;
    zeros(rt, 1, 1, 0, 0, 0, 20)?;
    zeros(rt, 1, 0, 0, 0, 4, 20)?;
    // 24 operations are no such fault
    zeros(rt, 1, 72, 1, 0, 0, 100)
}

// 6 to 11.
fn content_refusals(rt: &impl Print) -> io::Result<()> {
    // 6
    operation(rt, 12, 2, 50)?;
    // 7: a bit that is no control, a control on both sides
    operation(rt, 1, 4, 50)?;
    operation(rt, 10, 1, 50)?;
    // 8: no operation, named before
    control(rt, b"\x05\x01", 50)?;
    control(rt, b"\x00\x00", 50)?;
    // 9: its own control, a literal missing
    operation(rt, 1, 1, 50)?;
    operation(rt, 7, 2, 50)?;
    // 10: source, kind, order
    arc(rt, 0, 2, 50)?;
    arc(rt, 7, 2, 50)?;
    arc(rt, 10, 2, 50)?;
    // 11
    arc(rt, 1, 3, 50)?;
    arc(rt, 14, 0, 50)
}

// 3 before 5, 5 before 6, 6 and 11 before 14, the lower place; then the room alone.
fn pairs(rt: &impl Print) -> io::Result<()> {
    zeros(rt, 1, 75, 1, 0, 1, 0)?;
    zeros(rt, 1, 4, 0, 0, 0, 0)?;
    operation(rt, 12, 2, 49)?;
    arc(rt, 14, 0, 0)?;
    control(rt, b"\x05\x06", 0)?;
    operation(rt, 0, 0, 49)?;
    operation(rt, 0, 0, 0)
}

fn main(rt: HostRuntime) -> io::Result<()> {
    successes(&rt)?;
    list_refusals(&rt)?;
    content_refusals(&rt)?;
    pairs(&rt)
}
