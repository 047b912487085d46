// The reader on files for each refusal number, on pairs of faults, on the largest file and on the empty input.
// What it answers is held to the file stdout.

#![tactic(auto)]

use parts::Counts;
use std::io;

// A graph that is taken. Two classes; operation 0 decides control 0; 1, on its true side, decides control 1; 2 stands on both
// true sides, 3 on the false side of control 0, 4 on none. Arcs 1 to 2, 2 to 4 by both true sides, and 3 to 4 by the false
// side.
const GRAPH: [u8; 50] =
    *b"HS\x01\x05\x02\x02\x03\x00\x10\x00\x12\x00\x21\x00\x23\x00\x01\x01\x00\x00\x00\x01\x01\x00\x01\x03\x00\x01\x00\x01\x00\x00\x00\x00\x01\x01\x02\x00\x00\x00\x02\x04\x00\x03\x00\x03\x04\x00\x00\x01";

// The header of the largest file: 24 operations, 8 classes, 4 controls, 276 arcs.
const LARGEST: [u8; 16] = *b"HS\x01\x18\x08\x04\x14\x01\x10\x00\x18\x00\x60\x00\x64\x00";

// What the reader says of a file.
fn show(rt: &impl Print, file: &[u8]) -> io::Result<()> {
    match reader::read_graph(file) {
        Ok(
            Counts {
                operations,
                classes,
                controls,
                arcs,
            },
        ) => println!(rt; "taken {operations} {classes} {controls} {arcs}"),
        Err(fault) => println!(rt; "{fault}"),
    }
}

// What the reader says of the first `length` bytes. Plainer with the length apart: it is what a case is about.
fn show_front(rt: &impl Print, room: &[u8], length: usize) -> io::Result<()> {
    match room.get(..length) {
        Some(file) => show(rt, file),
        None => Ok(()),
    }
}

// A byte that is set to another. Plainer so than a library for these lines, which another program has too.
type Change = (usize, u8);

// So many bytes of the graph, and zeros past its end, with some bytes changed.
fn cut(rt: &impl Print, length: usize, changes: &[Change]) -> io::Result<()> {
    let mut room = [0u8; 64];
    room[..50].copy_from_slice(&GRAPH);
    for (i, x) in changes {
        if let Some(byte) = room.get_mut(*i) {
            *byte = *x;
        }
    }
    show_front(rt, &room, length)
}

// The whole graph with some bytes changed.
fn changed(rt: &impl Print, changes: &[Change]) -> io::Result<()> {
    cut(rt, 50, changes)
}

// Every arc between 24 operations, by target and then by source.
fn all_arcs(arcs: &mut [u8]) {
    let ends = (1..24u8).flat_map(|target| (0..target).map(move |source| (source, target)));
    for (arc, (source, target)) in arcs.chunks_exact_mut(5).zip(ends) {
        if let [first, second, ..] = arc {
            *first = source;
            *second = target;
        }
    }
}

// The largest file, and one byte more.
fn largest(rt: &impl Print) -> io::Result<()> {
    let mut room = [0u8; 1481];
    room[..16].copy_from_slice(&LARGEST);
    room[96..100].copy_from_slice(&[0, 1, 2, 3]);
    all_arcs(&mut room[100..1480]);
    show_front(rt, &room, 1480)?;
    show_front(rt, &room, 1481)
}

// 1 to 5.
fn header_refusals(rt: &impl Print) -> io::Result<()> {
    // 1, on the empty input too
    cut(rt, 0, &[])?;
    cut(rt, 15, &[])?;
    // 2
    changed(rt, &[(0, 0x49)])?;
    changed(rt, &[(1, 0x54)])?;
    changed(rt, &[(2, 2)])?;
    // 3
    changed(rt, &[(3, 25)])?;
    changed(rt, &[(4, 9)])?;
    changed(rt, &[(5, 5)])?;
    changed(rt, &[(6, 21), (7, 1)])?;
    // 4
    changed(rt, &[(8, 17)])?;
    changed(rt, &[(11, 1)])?;
    changed(rt, &[(12, 34)])?;
    changed(rt, &[(14, 34)])?;
    // 5
    cut(rt, 49, &[])?;
    cut(rt, 51, &[])?;
    cut(rt, 16, &[])
}

// 6 to 9.
fn content_refusals(rt: &impl Print) -> io::Result<()> {
    // 6
    changed(rt, &[(18, 2)])?;
    changed(rt, &[(30, 255)])?;
    // 7: a bit that is no control, a control on both sides
    changed(rt, &[(19, 4)])?;
    changed(rt, &[(29, 8)])?;
    changed(rt, &[(28, 1)])?;
    // 8: no operation, named before
    changed(rt, &[(33, 5)])?;
    changed(rt, &[(34, 5)])?;
    changed(rt, &[(34, 0)])?;
    // 9: its own control, a literal missing, and with the other side of it
    changed(rt, &[(19, 1)])?;
    changed(rt, &[(25, 2)])?;
    changed(rt, &[(25, 2), (26, 1)])
}

// 10 and 11.
fn arc_refusals(rt: &impl Print) -> io::Result<()> {
    // 10: source, target, kind, masks, follow arc with literals, order
    changed(rt, &[(35, 2)])?;
    changed(rt, &[(36, 5)])?;
    changed(rt, &[(37, 2)])?;
    changed(rt, &[(38, 4)])?;
    changed(rt, &[(42, 1)])?;
    changed(rt, &[(44, 1)])?;
    changed(rt, &[(45, 2)])?;
    changed(rt, &[(45, 1)])?;
    changed(rt, &[(47, 2)])?;
    // 11
    changed(rt, &[(36, 3)])?;
    changed(rt, &[(43, 1)])?;
    changed(rt, &[(49, 0)])
}

// Pairs: the lower number first, then the lower place.
fn pairs(rt: &impl Print) -> io::Result<()> {
    cut(rt, 15, &[(0, 0)])?;
    changed(rt, &[(0, 0), (3, 25)])?;
    changed(rt, &[(3, 25), (8, 17)])?;
    cut(rt, 49, &[(8, 17)])?;
    changed(rt, &[(8, 17), (18, 2)])?;
    cut(rt, 49, &[(18, 2)])?;
    changed(rt, &[(30, 2), (19, 4)])?;
    changed(rt, &[(19, 4), (33, 5)])?;
    changed(rt, &[(34, 0), (19, 1)])?;
    changed(rt, &[(25, 2), (35, 2)])?;
    changed(rt, &[(47, 2), (36, 3)])?;
    changed(rt, &[(18, 2), (30, 2)])?;
    changed(rt, &[(28, 1), (19, 4)])
}

fn main(rt: HostRuntime) -> io::Result<()> {
    cut(&rt, 50, &[])?;
    header_refusals(&rt)?;
    content_refusals(&rt)?;
    arc_refusals(&rt)?;
    pairs(&rt)?;
    largest(&rt)
}
