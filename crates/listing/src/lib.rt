// The listing of a scheduler's answer and its table, as text in a lent buffer.

#![tactic(auto)]

ghost use Rattle.std.specs.Prelude.{◌<◌, ◌≤◌, ◌^◌, ◌++◌, length};
ghost use Rattle.machine.specs.Refusals.{taken, refused};
ghost use Rattle.meaning.specs.Graph.{Graph, content};
ghost use Rattle.meaning.specs.Listing.{decimal, first_line, row_line, row_lines, listing};
ghost use Rattle.parts.specs.Fields.{OfEdition, row_of};
ghost use Rattle.listing.specs.Listed.{answer_of, Listed, Put, Adds};

use parts::{Row, Table};
use scheduler::Scheduled;

// A lent buffer that is written from its front on, and where the text in it ends. What has no room is left out, and counted.
// Graph, answer and table come apart, as `Listed` speaks of them. No `write!`: `put_listing`'s promise `Listed` is for every answer,
// and std promises the text only where no write failed.
// `as u64` on a usize: u64 has no From<usize>. The rule of fixed memory needs `end`; each bound on it is what that text can add.
#[derive(Drop)]
struct Page<'a> {
    out: &'a mut [u8],
    end: usize,
}

impl<'a> Page<'a> {
    // Writes a text.
    fn put(&mut self, text: &[u8])
        requires { (self.old.end < 2 ^ 33) × (length text.now ≤ 8) }
        ensures { Adds (length text.now) self.old text.now self.new }
    {
        text::put(self.out, self.end, text);
        self.end += text.len();
    }

    // Writes a text and a number behind it.
    fn put_field(&mut self, text: &[u8], number: u64)
        requires { (self.old.end < 2 ^ 32) × (length text.now ≤ 8) }
        ensures { Adds 28 self.old (text.now ++ decimal number) self.new }
    {
        self.put(text);
        self.end += text::put_decimal(self.out, self.end, number);
    }

    // The line of a refusal.
    fn put_refusal(&mut self, number: u32, place: usize)
        requires { self.old.end < 2 ^ 31 }
        ensures { Adds 57 self.old (first_line (refused number place) 0 0 0) self.new }
    {
        self.put_field(b"refused ", u64::from(number));
        self.put_field(b" ", place as u64);
        self.put(b"\n");
    }

    // The first line of a schedule.
    fn put_counts(&mut self, schedule: Scheduled)
        requires { self.old.end < 2 ^ 31 }
        ensures { Adds 85 self.old (first_line taken schedule.cycles schedule.rows schedule.states) self.new }
    {
        self.put_field(b"cycles ", u64::from(schedule.cycles));
        self.put_field(b" rows ", schedule.rows as u64);
        self.put_field(b" states ", schedule.states as u64);
        self.put(b"\n");
    }

    // The line of a row.
    fn put_row(&mut self, row: Row)
        requires { self.old.end < 2 ^ 31 }
        ensures { (g : Graph) → Adds 113 self.old (row_line g (row_of g row)) self.new }
    {
        self.put_field(b"", u64::from(row.cycle));
        self.put_field(b" ", u64::from(row.state.values));
        self.put_field(b" ", u64::from(row.state.done));
        self.put_field(b" ", u64::from(row.step));
        self.put(b"\n");
    }

    // The lines of all rows of a table.
    fn put_rows(&mut self, table: &Table)
        requires { self.old.end < 2 ^ 9 }
        ensures { OfEdition table.now.edition (λ g. Adds (2 ^ 30) self.old (row_lines g table.now.bytes.now) self.new) }
    {
        for row in 0..table.row_count() {
            self.put_row(table.row(row));
        }
    }

    // The whole listing.
    fn put_text(&mut self, graph: &[u8], answer: Result<Scheduled, (u32, usize)>, table: &[u8])
        requires { self.old.end < 2 ^ 8 }
        ensures { Adds (2 ^ 31) self.old (listing (content graph.now) (answer_of answer) table.now) self.new }
    {
        match answer {
            Ok(schedule) => {
                self.put_counts(schedule);
                self.put_rows(&Table {
                    edition: parts::edition(graph),
                    bytes: table,
                });
            }
            Err((number, place)) => self.put_refusal(number, place),
        }
    }
}

// Writes the listing to the front of a buffer, as far as that goes, and answers how long it is.
fn put_front(
    out: &mut [u8],
    graph: &[u8],
    answer: Result<Scheduled, (u32, usize)>,
    table: &[u8],
) -> usize
    ensures { Put (2 ^ 31) out.old 0 (listing (content graph.now) (answer_of answer) table.now) out.new result }
{
    let mut page = Page { out, end: 0 };
    page.put_text(graph, answer, table);
    page.end
}

// Writes the listing of an answer and its table to the front of the buffer, and answers how long it is. A buffer that has no
// room for it is left as it was: no Option, since `Listed` needs the length there too. A refusal comes as its number and its place,
// whatever the number is.
pub fn put_listing(
    graph: &[u8],
    answer: Result<Scheduled, (u32, usize)>,
    table: &[u8],
    out: &mut [u8],
) -> usize
    ensures { Listed (listing (content graph.now) (answer_of answer) table.now) out.old out.new result }
{
    let length = put_front(&mut [], graph, answer, table);
    if length <= out.len() {
        put_front(out, graph, answer, table);
    }
    length
}
