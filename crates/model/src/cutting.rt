// Theorems about cutting at a ceiling. Each function does nothing: its contract is the theorem.
ghost use Rattle.model.specs.CuttingLaws.{Fitting, Running, CutsFollowTheRule, RuleAllowsOnlyThese, Uncut, CutsNameTheirLigatures, Grouping, Sized, PartsCoverTheirGlyphs};

/// A theorem: each ligature fits under the ceiling in a part of its own just where a split refuses none as too long.
pub fn what_is_not_refused_fits()
    ensures { Fitting }
{}

/// A theorem: one ligature more adds 2 and its length to the size of a run, and 4 if it opens a set;
/// no run is smaller than its front or its back.
pub fn the_running_size_grows()
    ensures { Running }
{}

/// A theorem: the parts are the ligatures in order, each within the ceiling and none empty, and each cut is forced,
/// wherever each ligature alone fits.
pub fn cuts_follow_the_rule()
    ensures { CutsFollowTheRule }
{}

/// A theorem: no other parts are the ligatures in order, within the ceiling, with forced cuts.
pub fn the_rule_allows_only_these_cuts()
    ensures { RuleAllowsOnlyThese }
{}

/// A theorem: there is one cut less than there are parts, and none just where the subtable is within the ceiling.
pub fn no_cut_within_the_ceiling()
    ensures { Uncut }
{}

/// A theorem: a cut (i, j) stands before a part that begins with ligature j of set i.
pub fn cuts_name_their_ligatures()
    ensures { CutsNameTheirLigatures }
{}

/// A theorem: a run has a group for each set that it touches, and the groups hold its ligatures in order under their
/// first glyphs; the groups of a subtable are its sets.
pub fn groups_are_the_sets()
    ensures { Grouping }
{}

/// A theorem: the size of a subtable is the number of bytes of its table, its sets and its ligatures.
pub fn sizes_are_the_bytes_of_tables()
    ensures { Sized }
{}

/// A theorem: each part covers a stretch of the subtable's glyphs, those of just the sets that it has ligatures of;
/// parts that follow one another share the glyph of the set that the cut divides, if it divides one, and, where the
/// subtable's glyphs rise, no other.
pub fn parts_cover_their_glyphs()
    ensures { PartsCoverTheirGlyphs }
{}
