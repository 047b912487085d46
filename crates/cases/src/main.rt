// Runs document 01's cases that are not marked P: each graph is scheduled with 4,096 slots, and its answer printed.

#![tactic(auto)]

use scheduler::Scheduled;
use std::io;

// Schedules a graph and prints its answer behind its name.
fn run(rt: &impl Print, name: &str, graph: &[u8]) -> io::Result<()> {
    let mut slots = [0u64; 4096];
    let mut table = [0u8; 3080];
    match scheduler::schedule(graph, &mut slots, &mut table) {
        Ok(
            Scheduled {
                cycles,
                rows,
                states,
            },
        ) => println!(rt; "{name}: cycles {cycles} rows {rows} states {states}"),
        Err(fault) => println!(rt; "{name}: {fault}"),
    }
}

const J: [u8; 42] = [
    72, 83, 1, 4, 3, 1, 2, 0, 16, 0, 19, 0, 31, 0, 32, 0, 1, 1, 1, 0, 0, 0, 1, 1, 0, 1, 0, 1, 2, 0,
    0, 0, 1, 3, 0, 1, 0, 2, 3, 0, 0, 1,
];

const J_TWO_ADDERS: [u8; 42] = [
    72, 83, 1, 4, 3, 1, 2, 0, 16, 0, 19, 0, 31, 0, 32, 0, 1, 2, 1, 0, 0, 0, 1, 1, 0, 1, 0, 1, 2, 0,
    0, 0, 1, 3, 0, 1, 0, 2, 3, 0, 0, 1,
];

const J_WITHOUT_LITERAL: [u8; 42] = [
    72, 83, 1, 4, 3, 1, 2, 0, 16, 0, 19, 0, 31, 0, 32, 0, 1, 1, 1, 0, 0, 0, 1, 1, 0, 1, 0, 1, 2, 0,
    0, 0, 1, 3, 0, 0, 0, 2, 3, 0, 0, 1,
];

const K: [u8; 45] = [
    72, 83, 1, 5, 3, 1, 2, 0, 16, 0, 19, 0, 34, 0, 35, 0, 1, 1, 1, 0, 0, 0, 1, 1, 0, 1, 1, 0, 2, 0,
    1, 1, 0, 1, 0, 1, 2, 1, 0, 0, 3, 4, 0, 0, 0,
];

const CHAIN_OF_24: [u8; 204] = [
    72, 83, 1, 24, 1, 0, 23, 0, 16, 0, 17, 0, 89, 0, 89, 0, 1, 0, 0, 0, 0, 0, 0, 0, 0, 0, 0, 0, 0,
    0, 0, 0, 0, 0, 0, 0, 0, 0, 0, 0, 0, 0, 0, 0, 0, 0, 0, 0, 0, 0, 0, 0, 0, 0, 0, 0, 0, 0, 0, 0, 0,
    0, 0, 0, 0, 0, 0, 0, 0, 0, 0, 0, 0, 0, 0, 0, 0, 0, 0, 0, 0, 0, 0, 0, 0, 0, 0, 0, 0, 0, 1, 0, 0,
    0, 1, 2, 0, 0, 0, 2, 3, 0, 0, 0, 3, 4, 0, 0, 0, 4, 5, 0, 0, 0, 5, 6, 0, 0, 0, 6, 7, 0, 0, 0, 7,
    8, 0, 0, 0, 8, 9, 0, 0, 0, 9, 10, 0, 0, 0, 10, 11, 0, 0, 0, 11, 12, 0, 0, 0, 12, 13, 0, 0, 0,
    13, 14, 0, 0, 0, 14, 15, 0, 0, 0, 15, 16, 0, 0, 0, 16, 17, 0, 0, 0, 17, 18, 0, 0, 0, 18, 19, 0,
    0, 0, 19, 20, 0, 0, 0, 20, 21, 0, 0, 0, 21, 22, 0, 0, 0, 22, 23, 0, 0, 0,
];

const OF_25: [u8; 92] = [
    72, 83, 1, 25, 1, 0, 0, 0, 16, 0, 17, 0, 92, 0, 92, 0, 1, 0, 0, 0, 0, 0, 0, 0, 0, 0, 0, 0, 0,
    0, 0, 0, 0, 0, 0, 0, 0, 0, 0, 0, 0, 0, 0, 0, 0, 0, 0, 0, 0, 0, 0, 0, 0, 0, 0, 0, 0, 0, 0, 0, 0,
    0, 0, 0, 0, 0, 0, 0, 0, 0, 0, 0, 0, 0, 0, 0, 0, 0, 0, 0, 0, 0, 0, 0, 0, 0, 0, 0, 0, 0, 0, 0,
];

const CLASS_AND_PATH: [u8; 26] = [
    72, 83, 1, 3, 1, 0, 0, 0, 16, 0, 17, 0, 26, 0, 26, 0, 1, 0, 1, 0, 0, 0, 0, 1, 0, 0,
];

const NO_UNITS: [u8; 20] = [
    72, 83, 1, 1, 1, 0, 0, 0, 16, 0, 17, 0, 20, 0, 20, 0, 0, 0, 0, 0,
];

fn main(rt: HostRuntime) -> io::Result<()> {
    run(&rt, "J", &J)?;
    run(&rt, "J, class 1 at limit 2", &J_TWO_ADDERS)?;
    run(
        &rt,
        "J, the first arc without its literal",
        &J_WITHOUT_LITERAL,
    )?;
    run(&rt, "K", &K)?;
    run(&rt, "a chain of 24", &CHAIN_OF_24)?;
    run(&rt, "25 operations", &OF_25)?;
    run(&rt, "class bad at 2, path bad at 0", &CLASS_AND_PATH)?;
    run(
        &rt,
        "an unconditional operation in a class of limit 0",
        &NO_UNITS,
    )
}
