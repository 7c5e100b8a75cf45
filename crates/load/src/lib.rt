// Load: graph words into lent tables, or a refusal that leaves them zero.
#![tactic(auto)]

ghost use Rattle.std.specs.Prelude.{◌≡◌, ℕ, ◌<◌, ◌≤◌, length, replicate, slice_index};
ghost use Rattle.graph.specs.Memory.{zero_vertex, vertex_at};
ghost use Rattle.graph.specs.Holding.{room};
ghost use Rattle.rows.specs.Kinds.{zero_link, zero_parent};
ghost use Rattle.load.specs.Outcome.{room_or, with_lookup, root_number};

use graph::{Capacities, VertexRow};
use refusals::{Pool, Refusal};
use rows::{LinkRow, ParentRow};
use words::StreamCounts;

/// The first pool that is too small for a stream.
fn room_for(capacities: Capacities, counts: StreamCounts) -> Result<(), Refusal>
    ensures { result ≡ room_or (room capacities) counts }
{
    if counts.tables > capacities.vertices {
        return Err(Refusal::NoRoom(Pool::Vertices));
    }
    if counts.links > capacities.links {
        return Err(Refusal::NoRoom(Pool::Links));
    }
    if counts.bytes > capacities.bytes {
        return Err(Refusal::NoRoom(Pool::Bytes));
    }
    Ok(())
}

/// Zeroes all rows and bytes.
// Only this takes all four; a struct of them would have to promise besides that each slice stays the one that was lent.
fn clear(
    vertices: &mut [VertexRow],
    links: &mut [LinkRow],
    parents: &mut [ParentRow],
    bytes: &mut [u8],
)
    ensures vertices { vertices.new ≡ replicate (length vertices.old) zero_vertex }
    ensures links { links.new ≡ replicate (length links.old) zero_link }
    ensures parents { parents.new ≡ replicate (length parents.old) zero_parent }
    ensures bytes { bytes.new ≡ replicate (length bytes.old) 0 }
{
    vertices.fill(VertexRow::default());
    links.fill(LinkRow::default());
    parents.fill(ParentRow::default());
    bytes.fill(0);
}

/// The vertex that a root word names.
// `words::decode` would test the kind once more and answer an option; the words were scanned before.
fn root_of(word: u32) -> u32
    ensures { result ≡ root_number word }
{
    word % 0x1000_0000
}

/// Notes in row n the vertex of lookup n.
fn set_lookups(vertices: &mut [VertexRow], roots: &[u32])
    requires { length roots.now ≤ length vertices.old }
    ensures noted { (v : ℕ) → v < length roots.now → vertex_at vertices.new v ≡ with_lookup (root_number (slice_index roots.now v)) (vertex_at vertices.old v) }
    ensures others { (v : ℕ) → length roots.now ≤ v → vertex_at vertices.new v ≡ vertex_at vertices.old v }
{
    // Of `vertices.iter_mut().zip(roots)` nothing is known afterwards but the length, so the rows are written by index.
    for (n, word) in roots.iter().enumerate() {
        vertices[n].lookup = root_of(*word);
    }
}
