// Lists the schedule of the graph on standard input: a line with its cycles, rows and reachable states, then a line for each
// row with cycle, values, done and step; or the refusal.

#![tactic(auto)]

ghost use Rattle.std.specs.Prelude.{◌≡◌, ◌≤◌, length, take, IfOk};
ghost use Rattle.meaning.specs.Listing.{printed};
ghost use Rattle.listing.specs.Listed.{Listed};

use std::io::{self, Read};
use std::process::ExitCode;

// The listing of a graph, at the front of the text. The work slots and the table buffer are those that document 01 names.
fn list(
    graph: &[u8],
    slots: &mut [u64; 4096],
    table: &mut [u8; 3080],
    text: &mut [u8; 32768],
) -> usize
    ensures listed { Listed (printed graph.now) text.old text.new result }
    ensures prefix_len { result ≤ length text.new }
    ensures prefix { result ≡ length (take result text.new) }
{
    let scheduled = scheduler::schedule(graph, slots, table);
    let answer = scheduled.map_err(|fault| (fault.refusal.number(), fault.place));
    listing::put_listing(graph, answer, table, text)
}

// Reads until the buffer is full or the input ends, and gives how many bytes it put at the front. The rule of
// no heap needs the loop: std's methods that read to the end ask for one.
fn read_full<R: Read>(reader: &mut R, buffer: &mut [u8]) -> io::Result<usize>
    ensures { IfOk result (λ kept. kept ≤ length buffer.new) }
{
    let mut kept = 0;
    while kept < buffer.len() {
        let count = reader.read(&mut buffer[kept..])?;
        if count == 0 {
            break;
        }
        kept += count;
    }
    Ok(kept)
}

fn main(rt: HostRuntime) -> io::Result<ExitCode> {
    let mut input = [0u8; 1481];
    let mut slots = [0u64; 4096];
    let mut table = [0u8; 3080];
    let mut text = [0u8; 32768];
    let kept = read_full(&mut rt.reader(), &mut input)?;
    let length = list(&input[..kept], &mut slots, &mut table, &mut text);
    if rt.write_all(&text[..length]).is_err() {
        rt.eprintln("list: the listing could not be written")?;
        return Ok(ExitCode::FAILURE);
    }
    Ok(ExitCode::SUCCESS)
}
