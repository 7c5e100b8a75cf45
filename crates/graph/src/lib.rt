// The graph in lent memory: the vertex record, and the view through which tables are read.
#![tactic(auto)]

ghost use Rattle.std.specs.Prelude.{◌≡◌, ◌+◌, ◌<◌, ◌↔◌, length, IfSome, IsSome, slice_index_or};
ghost use Rattle.data_bytes.specs.BigEndian.{word16};
ghost use Rattle.rows.specs.Kinds.{zero_link};
ghost use Rattle.model.specs.Rules.{nth};
ghost use Rattle.model.specs.Splitting.{lent};
ghost use Rattle.graph.specs.Holding.{room};
ghost use Rattle.graph.specs.Memory.{zero_vertex, memory, part_of, rows_of, HasPart};

use data_bytes::word_at;
use rows::LinkRow;

/// What the graph keeps of a vertex. A row that is not in use has zero in every field.
#[derive(Clone, Copy, PartialEq, Eq, Default, Debug)]
pub struct VertexRow {
    /// Where its part of the byte pool starts, and how many bytes that has.
    pub start: u32,
    pub size: u32,
    /// Its first link row, and how many it has, real and virtual.
    pub first: u32,
    pub links: u32,
    /// Its first parent row.
    pub parent: u32,
    /// In row n: the vertex of lookup n.
    pub lookup: u32,
    /// For the use of a call while it runs; zero otherwise.
    // Numbers and no `Option`: a row in lent memory is zero in every field when it is not in use.
    pub entries: u32,
    pub queue: u32,
    pub reached: bool,
}

impl VertexRow {
    /// What a row holds that is not in use.
    // One call of the default; it states which row that is.
    pub fn zero() -> VertexRow
        ensures { result ≡ zero_vertex }
    {
        VertexRow::default()
    }
}

/// How much of each pool a graph may take.
#[derive(Clone, Copy, PartialEq, Eq, Debug)]
pub struct Capacities {
    pub vertices: usize,
    pub links: usize,
    pub bytes: usize,
}

impl Capacities {
    /// What counts of the rows and bytes that a caller lends; of link rows and parent rows the shorter.
    pub fn lent(vertices: usize, links: usize, parents: usize, bytes: usize) -> Capacities
        ensures { room result ≡ lent vertices links parents bytes }
    {
        Capacities {
            vertices: vertices.min(800_000),
            links: links.min(parents).min(2_000_000),
            bytes: bytes.min(67_108_864),
        }
    }
}

/// How much of everything is in use, and how many lookups there are.
#[derive(Clone, Copy, PartialEq, Eq, Default, Debug)]
pub struct Counts {
    pub lookups: usize,
    pub vertices: usize,
    pub links: usize,
    pub parents: usize,
    pub bytes: usize,
}

/// The used rows and bytes of a graph, lent to be read.
#[derive(Clone, Copy, PartialEq, Eq, Debug)]
pub struct GraphView<'a> {
    pub vertices: &'a [VertexRow],
    pub links: &'a [LinkRow],
    pub bytes: &'a [u8],
}

impl<'a> GraphView<'a> {
    /// The row of a vertex; none where there is no such vertex.
    pub fn vertex(&self, vertex: u32) -> Option<VertexRow>
        ensures { result ≡ nth (memory self.now).vertices vertex }
    {
        self.vertices.get(vertex as usize).copied()
    }

    /// The bytes of a vertex; none where there is no such vertex, or where its row names bytes that are not there.
    pub fn part(&self, vertex: u32) -> Option<&'a [u8]>
        ensures part { IfSome result (λ s. s.now ≡ part_of (memory self.now) vertex) }
        ensures there { IsSome result ↔ HasPart (memory self.now) vertex }
    {
        let row = self.vertex(vertex)?;
        let start = row.start as usize;
        let end = start + row.size as usize;
        self.bytes.get(start..end)
    }

    /// The 16-bit number at a place of a vertex's part.
    pub fn word(&self, vertex: u32, at: usize) -> u16
        requires { at + 1 < length (part_of (memory self.now) vertex) }
        ensures { result ≡ word16 (part_of (memory self.now) vertex) at }
    {
        let row = self.vertices[vertex as usize];
        word_at(self.bytes, row.start as usize + at)
    }

    /// The i-th link row of a vertex.
    pub fn link(&self, vertex: u32, i: usize) -> LinkRow
        requires { i < length (rows_of (memory self.now) vertex) }
        ensures { result ≡ slice_index_or (rows_of (memory self.now) vertex) i zero_link }
    {
        let row = self.vertices[vertex as usize];
        self.links[row.first as usize + i]
    }
}
