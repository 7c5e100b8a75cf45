// The test for loose links: the first vertex with a link that leads nowhere, passes the end of its table, or stands where another does.
#![tactic(auto)]

ghost use Rattle.std.specs.Prelude.{◌<◌, ◌↔◌, length, IsTrue, MatchOption};
ghost use Rattle.graph.specs.Memory.{Owned};
ghost use Rattle.loose.specs.Faults.{Twins, Faulty, Faultless, FirstFault};

use graph::VertexRow;
use rows::LinkRow;

/// Whether a link and the one in front of it are real ones at one position of one table.
fn are_twins(before: Option<LinkRow>, row: LinkRow) -> bool
    ensures { IsTrue result ↔ (Twins before row) }
{
    let Some(other) = before else {
        return false;
    };
    let both_real = usize::from(other.width) > 0 && usize::from(row.width) > 0;
    both_real && (other.owner, other.position) == (row.owner, row.position)
}

/// Whether a link leads to no vertex, passes the end of its owner's table, or stands where the one in front does.
fn is_faulty(vertices: &[VertexRow], links: &[LinkRow], index: usize) -> bool
    requires there { index < length links.now }
    requires owned { Owned links.now (length vertices.now) }
    ensures { IsTrue result ↔ (Faulty vertices.now links.now index) }
{
    let row = links[index];
    let bytes = usize::from(row.width);
    let end = row.position as usize + bytes;
    let nowhere = row.target as usize >= vertices.len();
    let beyond = bytes > 0 && end > vertices[row.owner as usize].size as usize;
    nowhere || beyond || are_twins(links[..index].last().copied(), row)
}

/// The vertex of the first faulty link. Links stand by owner, so it is the lowest that has one.
pub fn first_loose(vertices: &[VertexRow], links: &[LinkRow]) -> Option<u32>
    requires owned { Owned links.now (length vertices.now) }
    ensures { MatchOption result (Faultless vertices.now links.now) (λ v. FirstFault vertices.now links.now v) }
{
    for (index, row) in links.iter().enumerate() {
        if is_faulty(vertices, links, index) {
            return Some(row.owner);
        }
    }
    None
}
