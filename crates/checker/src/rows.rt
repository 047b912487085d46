// The rows of a table file: what stands in them, their order, and searches over them. `as usize` on a u32: usize has no From<u32>.
// A cycle and a state come apart, as in the definitions `stands_at`, `has_row` and `covered`.
ghost use Rattle.std.specs.Prelude.{◌≡◌, ℕ, suc, ◌^◌, ◌&&◌, ltb, List, [], ◌∷◌};
ghost use Rattle.machine.specs.Refusals.{judge};
ghost use Rattle.machine.specs.Tables.{rises, stands_at, has_row, last_cycle, order_line};
ghost use Rattle.meaning.specs.Graph.{Graph, content};
ghost use Rattle.meaning.specs.Steps.{machine_of};
ghost use Rattle.meaning.specs.TableFile.{cycles_of, layout_line, table_in};
ghost use Rattle.meaning.specs.Answers.{cycle_start};
ghost use Rattle.parts.specs.Fields.{OfEdition, state_of, row_of};
ghost use Rattle.refusals.specs.Faults.{verdict_of};

use numbers::{byte, pair};
use parts::{Row, State, Table, most_rows, row_start};
use refusals::{Fault, Refusal, first_fault, refuse_if};

// The cycles that the header says.
#[tactic(auto, unfolding(meaning::specs::TableFile::cycles_of))]
pub(crate) fn cycles(table: &Table) -> u32
    ensures { result ≡ cycles_of table.now.bytes.now }
{
    byte(table.bytes, 3)
}

// The length, mark, edition, offset or number of rows is wrong.
fn misshapen(table: &Table) -> bool
    ensures { result ≡ (layout_line table.now.edition table.now.bytes.now).fault 0 }
{
    let bytes = table.bytes;
    let n = table.row_count();
    let start = row_start(table.edition, 0);
    (bytes.len() < start)
        | !((byte(bytes, 0) == 0x48) & (byte(bytes, 1) == 0x54) & (byte(bytes, 2) == table.edition))
        | !(pair(bytes, 6) as usize == start)
        | (most_rows(table.edition) < n)
        | !(bytes.len() == row_start(table.edition, n))
}

// Refusal 15.
pub(crate) fn layout(table: &Table) -> Result<(), Fault>
    ensures { verdict_of result ≡ judge (layout_line table.now.edition table.now.bytes.now ∷ []) }
{
    refuse_if(misshapen(table), Refusal::Layout)
}

// Row a stands before row b: by cycle, then by their states' order. It goes by `before`, so that what that promises holds the
// code that runs.
#[tactic(auto, unfolding(machine::specs::Tables::rises, parts::specs::Fields::row_of))]
fn rises(a: Row, b: Row) -> bool
    ensures { (g : Graph) → result ≡ rises (machine_of g) (row_of g a) (row_of g b) }
{
    (a.cycle < b.cycle) | ((a.cycle == b.cycle) & steps::before(a.state, b.state))
}

// The row at this place, counted from 1, is not above the row before. No row stands at a place that is no u32.
fn falls(table: &Table, place: usize) -> bool
    ensures { OfEdition table.now.edition
        (λ g. result ≡ (ltb place (2 ^ 32) && (order_line (machine_of g) (table_in g table.now.bytes.now)).fault place)) }
{
    let Ok(place) = u32::try_from(place) else {
        return false;
    };
    if place <= 1 {
        return false;
    }
    !rises(table.row(place - 2), table.row(place - 1))
}

// Refusal 16: the first row that is not above the row before.
pub(crate) fn order(table: &Table) -> Result<(), Fault>
    ensures { OfEdition table.now.edition
        (λ g. verdict_of result ≡ judge (order_line (machine_of g) (table_in g table.now.bytes.now) ∷ [])) }
{
    let places = table.row_count() as usize + 1;
    first_fault(Refusal::Order, places, |place| falls(table, place))
}

// Row i + 1 stands at cycle t with this state.
fn stands_at(table: &Table, t: u32, s: State, i: u32) -> bool
    ensures { OfEdition table.now.edition
        (λ g. result ≡ stands_at (machine_of g) (table_in g table.now.bytes.now) t (state_of s) (suc i)) }
{
    let row = table.row(i);
    (row.cycle == t) & steps::same(row.state, s)
}

// Some row does.
pub(crate) fn has_row(table: &Table, t: u32, s: State) -> bool
    ensures { OfEdition table.now.edition
        (λ g. result ≡ has_row (machine_of g) (table_in g table.now.bytes.now) t (state_of s)) }
{
    (0..table.row_count()).any(|i| stands_at(table, t, s, i))
}

// The last row's cycle. No Option: `check`'s promise compares with 0 where there are no rows (refusal 20).
pub(crate) fn last_cycle(table: &Table) -> u32
    ensures { OfEdition table.now.edition
        (λ g. result ≡ last_cycle (machine_of g) (table_in g table.now.bytes.now)) }
{
    let n = table.row_count();
    if n == 0 {
        return 0;
    }
    table.row(n - 1).cycle
}

// Where the rows of cycles before t end. They are no more than all rows, so `as u32` loses nothing.
pub(crate) fn cycle_start(table: &Table, t: u32) -> usize
    ensures { (file : List ℕ) → (content file).edition ≡ table.now.edition → result ≡ cycle_start file table.now.bytes.now t }
{
    let earlier = (0..table.row_count())
        .filter(|i| table.row(*i).cycle < t)
        .count();
    row_start(table.edition, earlier as u32)
}
