// Where the bytes of a wrap lie.
ghost use Rattle.model.specs.WrappingLaws.{WrapsLieInOrder};

/// A wrap takes one part of 8 bytes for each extension table, in the order of their numbers, and no more.
pub fn wraps_lie_in_order()
    ensures { WrapsLieInOrder }
{}
