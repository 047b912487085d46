// The table file: numbers, the header and rows, written into the lent buffer. What an edition fixes is asked of `parts`. Plainer with
// the buffer, the edition and the place apart where bytes are all that is promised; `Rows` has them together.
ghost use Rattle.std.specs.Prelude.{◌≡◌, suc, [], ◌∷◌, ◌+◌, ◌<◌, ◌≤◌, ◌^◌, length};
ghost use Rattle.meaning.specs.Graph.{Graph};
ghost use Rattle.meaning.specs.TableFile.{row_start, most_rows, bytes_of, header_file, row_file};
ghost use Rattle.parts.specs.Fields.{row_of};
ghost use Rattle.scheduler.specs.Writing.{written};
ghost use Rattle.scheduler.specs.Rows.{Lays};

use parts::Row;

// Writes a number at `at`, in `size` bytes, low byte first.
fn put(table: &mut [u8], at: usize, size: usize, number: u32)
    requires { (at + size ≤ length table.old) × (size ≤ 4) }
    ensures { table.new ≡ written table.old at (bytes_of size number) }
{
    table[at..at + size].copy_from_slice(&number.to_le_bytes()[..size]);
}

// Writes the header.
#[tactic(auto, unfolding(meaning::specs::TableFile::row_start))]
pub(crate) fn put_header(table: &mut [u8], edition: u32, cycles: u32, rows: u32)
    requires edition_in_bounds { row_start edition 1 ≤ length table.old }
    requires edition_bound { (edition < 2 ^ 8) × (cycles < 2 ^ 8) }
    ensures { table.new ≡ written table.old 0 (header_file edition cycles rows) }
{
    put(table, 0, 2, 0x5448);
    put(table, 2, 1, edition);
    put(table, 3, 1, cycles);
    put(table, 4, 2, rows);
    // The header's own length, so that `as u32` loses nothing.
    put(table, 6, 2, parts::row_start(edition, 0) as u32);
}

// Writes a row behind `rows` others.
#[tactic(auto, unfolding(meaning::specs::TableFile::row_start, meaning::specs::TableFile::row_bytes, meaning::specs::TableFile::mask_bytes))]
fn put_row(table: &mut [u8], edition: u32, rows: u32, row: Row)
    requires rows_in_bounds { row_start edition (suc (suc rows)) ≤ length table.old }
    requires cycle_bound { (row.cycle < 2 ^ 8) × (row.state.values < 2 ^ 8) }
    ensures { (g : Graph) → g.edition ≡ edition → table.new ≡ written table.old (row_start edition (suc rows)) (row_file g (row_of g row)) }
{
    let at = parts::row_start(edition, rows);
    let size = parts::mask_bytes(edition);
    put(table, at, 1, row.cycle);
    put(table, at + 1, 1, row.state.values);
    put(table, at + 2, size, row.state.done);
    put(table, at + 2 + size, size, row.step);
}

// The rows laid so far, behind the place of the header: all are counted, and those written that have room in the lent buffer. The
// rule of fixed memory needs the count.
#[derive(Drop)]
pub(crate) struct Rows<'a> {
    pub table: &'a mut [u8],
    pub edition: u32,
    pub count: u32,
}

impl Rows<'_> {
    // Lays a row behind the others.
    #[tactic(auto, unfolding(meaning::specs::TableFile::most_rows))]
    pub(crate) fn lay(&mut self, row: Row)
        requires { (self.old.count < most_rows self.old.edition) × (row.cycle < 2 ^ 8) × (row.state.values < 2 ^ 8) }
        ensures { (g : Graph) → g.edition ≡ self.old.edition → Lays g self.old self.new (row_of g row ∷ []) }
    {
        if parts::row_start(self.edition, self.count + 1) <= self.table.len() {
            put_row(self.table, self.edition, self.count, row);
        }
        self.count += 1;
    }
}
