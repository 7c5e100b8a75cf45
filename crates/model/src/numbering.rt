// Theorems on new vertex numbers and on what a split and a wrap take from the pools.

ghost use Rattle.model.specs.NumberingLaws.{NumbersNewVertices, BillsExactly, KeepsVerticesDistinct, WrapsAsBilled};

/// A theorem: the new vertices of a split are the next free numbers, in the order of the numbering rule.
pub fn new_vertices_are_numbered_in_order()
    ensures { NumbersNewVertices }
{}

/// A theorem: a split adds as many vertices and links as it takes, and takes the bytes of the rule.
pub fn the_bill_is_exact()
    ensures { BillsExactly }
{}

/// A theorem: after a split each vertex in use still stands at one place, and no ligature has changed.
pub fn splitting_keeps_vertices_distinct()
    ensures { KeepsVerticesDistinct }
{}

/// A theorem: k extension tables take k vertices, k links and 8k bytes, and are numbered by link position.
pub fn wrapping_takes_what_it_bills()
    ensures { WrapsAsBilled }
{}
