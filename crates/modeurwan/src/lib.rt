// The C interface of the library; include/modeurwan.h declares it. An answer is a number (0 for success), a place and counts.

#![tactic(auto)]

ghost use Rattle.std.specs.Prelude.{◌≡◌, Err};
ghost use Rattle.meaning.specs.Graph.{graph_of};
ghost use Rattle.meaning.specs.Answers.{reader, checker, rows_of_cycle};
ghost use Rattle.checker.specs.Checked.{values_of as checking_of};
ghost use Rattle.reader.specs.Reading.{values_of as reading_of};
ghost use Rattle.refusals.specs.Faults.{fault_verdict};
ghost use Rattle.writer.specs.Promise.{values_of as writing_of};
ghost use Rattle.modeurwan.specs.Numbers.{number_of, place_of, reading_numbers, answer_numbers, Schedules, part_numbers, writing_numbers, Writes};

use parts::Graph;
use refusals::Fault;

// The number of a success, and a count or a place that there is not. The C interface needs numbers for both, a struct for each kind
// of answer, graph and table apart, and a usize for a u32, which is no From.
const SUCCESS: usize = 0;

const NONE: usize = 0;

#[repr(C)]
#[derive(Clone, Copy)]
pub struct ModeurwanReading {
    pub number: usize,
    pub place: usize,
    pub operations: usize,
    pub classes: usize,
    pub controls: usize,
    pub arcs: usize,
}

#[repr(C)]
#[derive(Clone, Copy)]
pub struct ModeurwanAnswer {
    pub number: usize,
    pub place: usize,
    pub cycles: usize,
    pub rows: usize,
    pub states: usize,
}

#[repr(C)]
#[derive(Clone, Copy)]
pub struct ModeurwanPart {
    pub start: usize,
    pub end: usize,
}

#[repr(C)]
#[derive(Clone, Copy)]
pub struct ModeurwanWriting {
    pub number: usize,
    pub place: usize,
    pub length: usize,
}

// The number and the place of a fault.
fn numbers(fault: Fault) -> (usize, usize)
    ensures { result ≡ (number_of (fault_verdict fault), place_of (fault_verdict fault)) }
{
    (fault.refusal.number() as usize, fault.place)
}

impl From<Fault> for ModeurwanReading {
    ghost from_gives = { λ fault r. r ≡ reading_numbers (reading_of (Err fault)) };

    fn from(fault: Fault) -> ModeurwanReading {
        let (number, place) = numbers(fault);
        ModeurwanReading {
            number,
            place,
            operations: NONE,
            classes: NONE,
            controls: NONE,
            arcs: NONE,
        }
    }
}

impl From<Fault> for ModeurwanAnswer {
    ghost from_gives = { λ fault r. r ≡ answer_numbers (checking_of (Err fault)) };

    fn from(fault: Fault) -> ModeurwanAnswer {
        let (number, place) = numbers(fault);
        ModeurwanAnswer {
            number,
            place,
            cycles: NONE,
            rows: NONE,
            states: NONE,
        }
    }
}

impl From<Fault> for ModeurwanWriting {
    ghost from_gives = { λ fault r. r ≡ writing_numbers (writing_of (Err fault)) };

    fn from(fault: Fault) -> ModeurwanWriting {
        let (number, place) = numbers(fault);
        ModeurwanWriting {
            number,
            place,
            length: NONE,
        }
    }
}

// Reads a graph file.
#[unsafe(no_mangle)]
pub extern "C" fn modeurwan_read(graph: &[u8]) -> ModeurwanReading
    ensures { result ≡ reading_numbers (reader graph.now) }
{
    match reader::read_graph(graph) {
        Err(fault) => ModeurwanReading::from(fault),
        Ok(counts) => ModeurwanReading {
            number: SUCCESS,
            place: NONE,
            operations: counts.operations,
            classes: counts.classes,
            controls: counts.controls,
            arcs: counts.arcs,
        },
    }
}

// Schedules a graph file, in the slots and the table buffer lent.
#[unsafe(no_mangle)]
pub extern "C" fn modeurwan_schedule(
    graph: &[u8],
    slots: &mut [u64],
    table: &mut [u8],
) -> ModeurwanAnswer
    ensures { Schedules graph.now slots.old table.old result slots.new table.new }
{
    match scheduler::schedule(graph, slots, table) {
        Err(fault) => ModeurwanAnswer::from(fault),
        Ok(schedule) => ModeurwanAnswer {
            number: SUCCESS,
            place: NONE,
            cycles: schedule.cycles as usize,
            rows: schedule.rows,
            states: schedule.states,
        },
    }
}

// Checks a table file for a graph file.
#[unsafe(no_mangle)]
pub extern "C" fn modeurwan_check(graph: &[u8], table: &[u8]) -> ModeurwanAnswer
    ensures { result ≡ answer_numbers (checker graph.now table.now) }
{
    match checker::check(graph, table) {
        Err(fault) => ModeurwanAnswer::from(fault),
        Ok(acceptance) => ModeurwanAnswer {
            number: SUCCESS,
            place: NONE,
            cycles: acceptance.cycles as usize,
            rows: acceptance.rows,
            states: NONE,
        },
    }
}

// Where the rows of one cycle stand in a table.
#[unsafe(no_mangle)]
pub extern "C" fn modeurwan_rows_of(graph: &[u8], table: &[u8], cycle: u32) -> ModeurwanPart
    ensures { result ≡ part_numbers (rows_of_cycle graph.now table.now cycle) }
{
    let span = checker::span_of(graph, table, cycle);
    ModeurwanPart {
        start: span.start,
        end: span.end,
    }
}

// Writes the graph file of an edition and lists to the front of the output lent. The C interface needs them one by one.
#[unsafe(no_mangle)]
pub extern "C" fn modeurwan_write(
    edition: u8,
    operations: &[u8],
    limits: &[u8],
    controls: &[u8],
    arcs: &[u8],
    output: &mut [u8],
) -> ModeurwanWriting
    ensures { Writes (graph_of edition limits.now operations.now controls.now arcs.now) output.old result output.new }
{
    let graph = Graph {
        edition: u32::from(edition),
        limits,
        operations,
        controls,
        arcs,
    };
    match writer::write(&graph, output) {
        Err(fault) => ModeurwanWriting::from(fault),
        Ok(length) => ModeurwanWriting {
            number: SUCCESS,
            place: NONE,
            length,
        },
    }
}
