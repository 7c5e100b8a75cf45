// Glyph lists in slices: whether a coverage may hold them, and where a glyph stands.
ghost use Rattle.std.specs.Prelude.{◌≡◌, true};
ghost use Rattle.coverage.specs.Glyphs.{rises, is_glyph_list_of, index_in};

use crate::halving::halve;
use std::convert::Infallible;

/// Whether a coverage may cover these glyphs: 1 to 65,535 of them, in rising order.
pub fn is_glyph_list(glyphs: &[u16]) -> bool
    ensures { result ≡ is_glyph_list_of glyphs.now }
{
    (1..=65535).contains(&glyphs.len()) && glyphs.is_sorted_by(|a, b| a < b)
}

/// The index of a glyph in a list that rises, by binary search: what a loop asks once `glyphs_into` has read a coverage.
pub fn glyph_index(glyphs: &[u16], glyph: u16) -> Option<usize>
    ensures { rises glyphs.now ≡ true → result ≡ index_in glyph glyphs.now }
{
    // Not std's `binary_search`, which goes on behind a hit.
    let Ok(place) = halve(glyphs.len(), |n| Ok::<_, Infallible>(glyphs[n].cmp(&glyph)));
    place
}
