// What splitting and wrapping keep of a model, each law on the contract of a function that does nothing.
ghost use Rattle.model.specs.KeepingLaws.{DivisionsKeepRules, DivisionsDoNotGrow};
ghost use Rattle.model.specs.KeepingLaws.{SplittingKeepsRules, WrappingKeepsRules, SplitSubtablesAreWithinTheCeiling, WrappingKeepsSizes};
ghost use Rattle.model.specs.KeepingLaws.{SplittingKeepsLookupsWellFormed, WrappingKeepsLookupsWellFormed};
ghost use Rattle.model.specs.KeepingLaws.{AcceptedSplitsKeepLookupsWellFormed, AcceptedWrapsKeepLookupsWellFormed};
ghost use Rattle.model.specs.KeepingLaws.{SplittingKeepsHeads, WrappingKeepsHeads};
ghost use Rattle.model.specs.KeepingLaws.{EachCoverageHasAPartOfTheGlyphs, NewSubtablesAreCountedByCuts, SplitsWithoutCutsChangeNothing};

/// Whatever a subtable becomes at a ceiling, its rules stay, in order.
pub fn divisions_keep_rules()
    ensures { DivisionsKeepRules }
{}

/// After an accepted split every lookup has its rules as before, in order and with the same ligature vertices: shaping and
/// rule questions are answered as before, but for the index of the subtable. The other lookups are the same.
pub fn splitting_keeps_rules()
    ensures { SplittingKeepsRules }
{}

/// The same of an accepted wrap.
pub fn wrapping_keeps_rules()
    ensures { WrappingKeepsRules }
{}

/// Whatever a subtable becomes at a ceiling, coverages apart, is no larger than it was.
pub fn divisions_do_not_grow()
    ensures { DivisionsDoNotGrow }
{}

/// After an accepted split no subtable of the lookup, its coverage apart, is larger than the ceiling; and a bound on the
/// subtables of any lookup that held before still holds, so that splits at higher ceilings undo nothing.
pub fn split_subtables_are_within_the_ceiling()
    ensures { SplitSubtablesAreWithinTheCeiling }
{}

/// After an accepted wrap a bound on the subtables of any lookup that held before still holds.
pub fn wrapping_keeps_sizes()
    ensures { WrappingKeepsSizes }
{}

/// A well-formed lookup is well-formed after a split, if no ligature is too long for the ceiling, the subtables are not too
/// many, and the bytes written for the coverages of divided subtables mean their glyphs.
pub fn splitting_keeps_lookups_well_formed()
    ensures { SplittingKeepsLookupsWellFormed }
{}

/// A well-formed lookup is well-formed after a wrap.
pub fn wrapping_keeps_lookups_well_formed()
    ensures { WrappingKeepsLookupsWellFormed }
{}

/// All lookups of a model are well-formed after an accepted split if they were before, given what the codec wrote.
pub fn accepted_splits_keep_lookups_well_formed()
    ensures { AcceptedSplitsKeepLookupsWellFormed }
{}

/// All lookups of a model are well-formed after an accepted wrap if they were before.
pub fn accepted_wraps_keep_lookups_well_formed()
    ensures { AcceptedWrapsKeepLookupsWellFormed }
{}

/// The glyphs of each subtable that a division makes are a contiguous part of the original's, so that a codec which admits
/// those admits these.
pub fn each_coverage_has_a_part_of_the_glyphs()
    ensures { EachCoverageHasAPartOfTheGlyphs }
{}

/// A split adds one subtable for each cut.
pub fn new_subtables_are_counted_by_cuts()
    ensures { NewSubtablesAreCountedByCuts }
{}

/// An accepted split that makes no subtable leaves the whole model as it was, what is taken from the pools included.
pub fn splits_without_cuts_change_nothing()
    ensures { SplitsWithoutCutsChangeNothing }
{}

/// An accepted split or wrap keeps the lookup's vertex, flag and mark filtering set; a split keeps its type, a wrap makes it 7.
pub fn heads_are_kept()
    ensures split { SplittingKeepsHeads }
    ensures wrap { WrappingKeepsHeads }
{}
