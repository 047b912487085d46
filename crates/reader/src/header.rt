// The header of a graph file: refusals 1 to 5. `as usize` on a u32: usize has no From<u32>.
ghost use Rattle.std.specs.Prelude.{◌≡◌};
ghost use Rattle.machine.specs.Refusals.{judge};
ghost use Rattle.meaning.specs.Graph.{file_lines};
ghost use Rattle.refusals.specs.Faults.{verdict_of};
ghost use Rattle.reader.specs.Reading.{line_of};

use numbers::{byte, pair};
use parts::{Counts, HEADER_BYTES, Starts};
use refusals::{Fault, Refusal, refuse_if};

// Refusal 2: the mark or the edition differs.
fn unmarked(file: &[u8]) -> bool
    ensures { result ≡ (line_of 2 (file_lines file.now)).fault 0 }
{
    !((byte(file, 0) == 0x48) & (byte(file, 1) == 0x53) & parts::known(parts::edition(file)))
}

// Refusal 3: a count is above its maximum.
fn overfull(file: &[u8]) -> bool
    ensures { result ≡ (line_of 3 (file_lines file.now)).fault 0 }
{
    Counts::of_header(file).too_many(parts::edition(file))
}

// Refusal 4: an offset differs.
fn misplaced(file: &[u8]) -> bool
    ensures { result ≡ (line_of 4 (file_lines file.now)).fault 0 }
{
    let starts = Starts::of_header(file);
    !((pair(file, 8) as usize == HEADER_BYTES)
        & (pair(file, 10) as usize == starts.operations)
        & (pair(file, 12) as usize == starts.controls)
        & (pair(file, 14) as usize == starts.arcs))
}

// Refusals 1 to 5, the lower number first.
pub(crate) fn header(file: &[u8]) -> Result<(), Fault>
    ensures { verdict_of result ≡ judge (file_lines file.now) }
{
    refuse_if(file.len() < HEADER_BYTES, Refusal::Short)?;
    refuse_if(unmarked(file), Refusal::Unmarked)?;
    refuse_if(overfull(file), Refusal::Overfull)?;
    refuse_if(misplaced(file), Refusal::Misplaced)?;
    let end = Starts::of_header(file).end;
    refuse_if(file.len() != end, Refusal::Length)
}
