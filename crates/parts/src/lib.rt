// A graph: its edition and the bytes of its four parts, cut from any file; what an edition fixes; and operations, controls, arcs
// and a table's rows. No crate above knows a record size or an edition's numbers; only reader and writer know the header. A byte
// beyond the end of a part reads as 0. `as usize` on a u32 here and above: usize has no From<u32>.

#![tactic(auto)]

ghost use Rattle.std.specs.Prelude.{◌≡◌, [], ◌∷◌, suc, ◌*◌, ◌<◌, ◌≤◌, drop};
ghost use Rattle.std.proofs.Math.Seq.{slice};
ghost use Rattle.meaning.specs.Graph.{byte_at, known, too_many, operation_bytes, content, operation_count, arc_count, limit, producer};
ghost use Rattle.meaning.specs.TableFile.{mask_bytes, row_bytes, row_start, rows_of, most_rows};
ghost use Rattle.meaning.specs.Writer.{torn};
ghost use Rattle.numbers.specs.Reads.{Reads};
ghost use Rattle.parts.specs.Fields.{graph_in, kind_of, is_follow, is_unknown, Maxima, Counted, CountsOf, StartsOf, Stands, Lent, Cut, IsOperation, IsArc, IsRow, OfEdition};

use masks::Set;
use numbers::{byte, number, pair};

// The bytes of a graph file's header, and of a table's.
pub const HEADER_BYTES: usize = 16;

const TABLE_HEADER_BYTES: usize = 8;

const ARC_BYTES: usize = 5;

// An edition that the reader takes.
pub fn known(edition: u32) -> bool
    ensures { result ≡ known edition }
{
    edition == 1
}

// How many operations, classes, controls and arcs there are.
#[derive(Clone, Copy, PartialEq, Eq)]
pub struct Counts {
    pub operations: usize,
    pub classes: usize,
    pub controls: usize,
    pub arcs: usize,
}

// The most that an edition allows.
fn maxima(edition: u32) -> Counts
    ensures { Maxima edition result }
{
    Counts {
        operations: 24,
        classes: 8,
        controls: 4,
        arcs: 276,
    }
}

// The bytes of an operation.
fn operation_bytes(edition: u32) -> usize
    ensures { result ≡ operation_bytes edition }
{
    3
}

// The bytes of a done mask or a step mask in a table's row.
pub fn mask_bytes(edition: u32) -> usize
    ensures { result ≡ mask_bytes edition }
{
    3
}

// The bytes of a table's row.
fn row_bytes(edition: u32) -> usize
    ensures { result ≡ row_bytes edition }
{
    2 + 2 * mask_bytes(edition)
}

// The most rows that a table of an edition may have.
pub fn most_rows(edition: u32) -> u32
    ensures { result ≡ most_rows edition }
{
    384
}

// Where the row behind `rows` others stands in a table. Behind the last row this is the table's length.
pub fn row_start(edition: u32, rows: u32) -> usize
    ensures { Stands (row_start edition (suc rows)) 36 result }
{
    TABLE_HEADER_BYTES + row_bytes(edition) * rows as usize
}

// The edition that a file says.
pub fn edition(file: &[u8]) -> u32
    ensures { Reads (content file.now).edition 1 result }
{
    byte(file, 2)
}

impl Counts {
    // The counts that a file's header says.
    pub fn of_header(file: &[u8]) -> Counts
        ensures { Counted file.now result }
    {
        Counts {
            operations: byte(file, 3) as usize,
            classes: byte(file, 4) as usize,
            controls: byte(file, 5) as usize,
            arcs: pair(file, 6) as usize,
        }
    }

    // A count is above the maximum that the edition allows.
    pub fn too_many(self, edition: u32) -> bool
        ensures { result ≡ too_many edition self.operations self.classes self.controls self.arcs }
    {
        let most = maxima(edition);
        (most.operations < self.operations)
            | (most.classes < self.classes)
            | (most.controls < self.controls)
            | (most.arcs < self.arcs)
    }
}

// Where the operations, the controls and the arcs stand in a file, and where it ends.
#[derive(Clone, Copy, PartialEq, Eq)]
pub struct Starts {
    pub operations: usize,
    pub controls: usize,
    pub arcs: usize,
    pub end: usize,
}

impl Starts {
    // Where they have to stand by a file's header.
    pub fn of_header(file: &[u8]) -> Starts
        ensures { StartsOf file.now result }
    {
        let counts = Counts::of_header(file);
        let operations = HEADER_BYTES + counts.classes;
        let controls = operations + operation_bytes(edition(file)) * counts.operations;
        let arcs = controls + counts.controls;
        Starts {
            operations,
            controls,
            arcs,
            end: arcs + ARC_BYTES * counts.arcs,
        }
    }
}

// The bytes of a file from one place up to another, as far as the file reaches.
fn cut<'a>(file: &'a [u8], from: usize, to: usize) -> &'a [u8]
    requires { from ≤ to }
    ensures { Lent (slice from to file.now) from file.entry result }
{
    let start = from.min(file.len());
    let end = to.min(file.len());
    &file[start..end]
}

// A set of literals: the controls that it names on the true side, and those on the false side.
#[derive(Clone, Copy, PartialEq, Eq)]
pub struct Literals {
    pub on_true: u32,
    pub on_false: u32,
}

// An operation's class and path.
#[derive(Clone, Copy, PartialEq, Eq)]
pub struct Operation {
    pub class: usize,
    pub path: Literals,
}

// What an arc asks: a plain one that its source is done, a follow arc also that its target begins at once. Any other number is no
// kind of arc.
#[derive(Clone, Copy, PartialEq, Eq)]
pub enum Kind {
    Plain,
    Follow,
    Unknown(u32),
}

impl Kind {
    // A follow arc.
    #[tactic(auto, unfolding(crate::specs::Fields::is_follow))]
    pub fn is_follow(self) -> bool
        ensures { result ≡ is_follow self }
    {
        matches!(self, Kind::Follow)
    }

    // No kind of arc.
    #[tactic(auto, unfolding(crate::specs::Fields::is_unknown))]
    pub fn is_unknown(self) -> bool
        ensures { result ≡ is_unknown self }
    {
        matches!(self, Kind::Unknown(_))
    }
}

impl From<u32> for Kind {
    ghost from_gives = { λ n k. k ≡ kind_of n };

    fn from(number: u32) -> Kind {
        match number {
            0 => Kind::Plain,
            1 => Kind::Follow,
            _ => Kind::Unknown(number),
        }
    }
}

// An arc's source and target, its kind, and the join sides that it passes.
#[derive(Clone, Copy, PartialEq, Eq)]
pub struct Arc {
    pub source: usize,
    pub target: usize,
    pub kind: Kind,
    pub joins: Literals,
}

// A graph's edition, and the bytes of its limits, operations, controls and arcs.
#[derive(Clone, Copy)]
pub struct Graph<'a> {
    pub edition: u32,
    pub limits: &'a [u8],
    pub operations: &'a [u8],
    pub controls: &'a [u8],
    pub arcs: &'a [u8],
}

impl<'a> Graph<'a> {
    // The graph that a file holds, whatever its bytes are.
    pub fn of(file: &'a [u8]) -> Graph<'a>
        ensures graph { graph_in result ≡ content file.now }
        ensures cut { Cut file.entry result }
    {
        let starts = Starts::of_header(file);
        Graph {
            edition: edition(file),
            limits: cut(file, HEADER_BYTES, starts.operations),
            operations: cut(file, starts.operations, starts.controls),
            controls: cut(file, starts.controls, starts.arcs),
            arcs: cut(file, starts.arcs, starts.end),
        }
    }

    // The counts of its whole records.
    pub fn counts(&self) -> Counts
        ensures { CountsOf (graph_in self.now) result }
    {
        Counts {
            operations: self.operation_count(),
            classes: self.limits.len(),
            controls: self.controls.len(),
            arcs: self.arc_count(),
        }
    }

    // The operations or the arcs end inside a record.
    pub fn torn(&self) -> bool
        ensures { result ≡ torn self.now.edition self.now.operations.now self.now.arcs.now }
    {
        !((self.operations.len() % operation_bytes(self.edition) == 0)
            & (self.arcs.len() % ARC_BYTES == 0))
    }

    // The limit of class k.
    pub fn limit(&self, k: usize) -> u8
        ensures { result ≡ limit (graph_in self.now) k }
    {
        if k < self.limits.len() {
            self.limits[k]
        } else {
            0
        }
    }

    // How many operations there are.
    pub fn operation_count(&self) -> usize
        ensures { result ≡ operation_count (graph_in self.now) }
    {
        self.operations.len() / operation_bytes(self.edition)
    }

    // Operation j. Measured, as for `arc`: where j is compared with the count, as a loop over the operations does, it is tested once.
    #[tactic(auto, unfolding(meaning::specs::Graph::operation_bytes))]
    pub fn operation(&self, j: usize) -> Operation
        ensures { IsOperation (graph_in self.now) j result }
    {
        let size = operation_bytes(self.edition);
        let record = record(self.operations, size, j);
        let [class, on_true, on_false] = if j < self.operations.len() / size {
            [record[0], record[1], record[2]]
        } else {
            let [class, on_true, on_false, ..] = padded(record);
            [class, on_true, on_false]
        };
        Operation {
            class: usize::from(class),
            path: Literals {
                on_true: u32::from(on_true),
                on_false: u32::from(on_false),
            },
        }
    }

    // The operation that produces control b.
    pub fn producer(&self, b: usize) -> usize
        ensures { result ≡ producer (graph_in self.now) b }
    {
        byte(self.controls, b) as usize
    }

    // How many arcs there are.
    pub fn arc_count(&self) -> usize
        ensures { result ≡ arc_count (graph_in self.now) }
    {
        self.arcs.len() / ARC_BYTES
    }

    // Arc a. Measured: where a is compared with the count, as a loop over the arcs does, it is tested once. With that, and
    // with `demands` of `steps` as it is, a schedule of the largest graph takes 59 us for 77.
    pub fn arc(&self, a: usize) -> Arc
        ensures { IsArc (graph_in self.now) a result }
    {
        let record = record(self.arcs, ARC_BYTES, a);
        let [source, target, kind, on_true, on_false] = if a < self.arcs.len() / ARC_BYTES {
            [record[0], record[1], record[2], record[3], record[4]]
        } else {
            padded(record)
        };
        Arc {
            source: usize::from(source),
            target: usize::from(target),
            kind: Kind::from(u32::from(kind)),
            joins: Literals {
                on_true: u32::from(on_true),
                on_false: u32::from(on_false),
            },
        }
    }
}

// The first bytes of a record that is cut short: a byte beyond its end reads as 0. This is rare, so it stands apart from the code
// that is run for each record.
#[cold]
#[inline(never)]
fn padded(torn: &[u8]) -> [u8; 5]
    ensures { result ≡ byte_at torn.now 0 ∷ byte_at torn.now 1 ∷ byte_at torn.now 2 ∷ byte_at torn.now 3 ∷ byte_at torn.now 4 ∷ [] }
{
    // One byte each, so that `as u8` loses nothing.
    [0, 1, 2, 3, 4].map(|i| byte(torn, i) as u8)
}

// Record j of a part whose records have so many bytes, and what follows it: nothing where the part ends before it.
fn record<'a>(part: &'a [u8], size: usize, j: usize) -> &'a [u8]
    requires { 0 < size }
    ensures { result.now ≡ drop (size * j) part.now }
{
    if j <= part.len() / size {
        &part[size * j..]
    } else {
        &[]
    }
}

// A state: the values resolved and the operations done. States are ordered by values and then by what is done, as rows are.
#[derive(Clone, Copy, PartialEq, Eq, PartialOrd, Ord)]
pub struct State {
    pub values: u32,
    pub done: Set,
}

// What stands in a table's row.
#[derive(Clone, Copy, PartialEq, Eq)]
pub struct Row {
    pub cycle: u32,
    pub state: State,
    pub step: Set,
}

// A table file: the edition of its graph, and its bytes.
#[derive(Clone, Copy)]
pub struct Table<'a> {
    pub edition: u32,
    pub bytes: &'a [u8],
}

impl<'a> Table<'a> {
    // The rows that its header says.
    pub fn row_count(&self) -> u32
        ensures { Reads (rows_of self.now.bytes.now) 2 result }
    {
        pair(self.bytes, 4)
    }

    // The row behind `row` others.
    pub fn row(&self, row: u32) -> Row
        ensures { OfEdition self.now.edition (λ g. IsRow g self.now.bytes.now (suc row) result) }
    {
        let at = row_start(self.edition, row);
        let size = mask_bytes(self.edition);
        Row {
            cycle: byte(self.bytes, at),
            state: State {
                values: byte(self.bytes, at + 1),
                done: number(self.bytes, at + 2, size),
            },
            step: number(self.bytes, at + 2 + size, size),
        }
    }
}
