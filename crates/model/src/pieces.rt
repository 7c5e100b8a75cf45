// Theorems about the pieces of a subtable. Each function does nothing: its contract is the theorem.
ghost use Rattle.model.specs.PieceLaws.{PiecesAreTheParts, DividedSetsVertexGoesToOnePlace, WithoutAHead};

/// A theorem: a subtable becomes as many subtables as it has parts, the original first, and the k-th has the ligatures of
/// the k-th part in order, each under its first glyph; its sets and glyphs are those of the part's groups.
pub fn pieces_are_the_parts()
    ensures { PiecesAreTheParts }
{}

/// A theorem: the vertex of a set stays in the original if that keeps some of the set; else it goes to the last piece that
/// has some of it. It stands there and in no other piece: the others have new vertices for what they hold of the set.
pub fn a_divided_sets_vertex_goes_to_one_place()
    ensures { DividedSetsVertexGoesToOnePlace }
{}

/// A worked case: a set of which the original keeps nothing, cut twice; its vertex goes to the last piece. Beside it the same
/// behind extension tables, and a set whose head stays.
#[tactic(auto, unfolding(crate::specs::Cutting::run_size))]
pub fn a_set_without_a_head_goes_last()
    ensures { WithoutAHead }
{}
